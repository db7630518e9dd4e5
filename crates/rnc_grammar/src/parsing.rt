// From the tokens of a schema file, or from its syntax tree, to its file tree.
ghost use Rattle.std.specs.Prelude.{◌≡◌, ℕ, Err, IfErr, IfOk, Ok, map};
ghost use Rattle.std.specs.List.Sorted.{IsStrictlyIncreasing};
ghost use Rattle.rnc_model.specs.declarations.DeclarationRules.{BreaksDeclarationRule};
ghost use Rattle.rnc_model.specs.declarations.Declarations as declarations;
ghost use Rattle.rnc_grammar.specs.views.Fault.{tree_or_fault};
ghost use Rattle.rnc_model.specs.declarations.FileTree as tree;
ghost use Rattle.rnc_model.specs.loading.Mentions.{mention_of, mentions_of};
ghost use Rattle.rnc_model.specs.loading.SchemaFile.{BreaksDeclarations, IsFileTree};
ghost use Rattle.rnc_model.specs.grammar.Sentence.{BreaksNesting};
ghost use Rattle.rnc_model.specs.grammar.SyntaxTrees.{BreaksGrammar};
ghost use Rattle.rng_model.specs.plain.Answers.{Gives};
ghost use Rattle.rnc_grammar.specs.views.ParsingFaults.{IsFaultOf, IsFaultOfTree, IsResolved, unless_memory};
ghost use Rattle.rnc_grammar.specs.views.View.{file_of};
ghost use Rattle.rnc_grammar.specs.declared.fault.ParseFault.TheVariants as faults;
ghost use Rattle.rnc_model.specs.tokens.Cut.{lexemes};
ghost use Rattle.rnc_syntax.specs.views.SyntaxView as syntax;
ghost use Rattle.rnc_model.specs.tokens.CutTokens.{tokens_of};

use crate::fault::ParseFault;
use crate::file_tree::FileTree;
use crate::resolving::file_tree;
use crate::scope::ScopeFault;
use rnc_syntax::{File, read_syntax};
use rnc_text::Token;
use std::alloc::Global;

/// The file tree of a syntax tree. Fails if its declarations or prefixes break a rule.
fn resolved(alloc: Global, file: &File<'_>) -> Result<FileTree, ParseFault>
    ensures { Gives unless_memory file_of result (tree_or_fault (declarations.file_tree (syntax.file_of file.now))) }
{
    match file_tree(alloc, file) {
        Ok(tree) => Ok(tree),
        Err(ScopeFault::Memory) => Err(ParseFault::Memory),
        Err(ScopeFault::Broken) => Err(ParseFault::Clause(8)),
    }
}

/// Returns the file tree of a syntax tree, with its declarations applied.
///
/// A syntax tree that keeps the rules about declarations has one file tree, and the call returns it.
///
/// Fails with clause 8, without a number, exactly if a rule is broken: a prefix or the default namespace is declared
/// twice, a prefix is not declared, or `xml`, `xmlns` or `xsd` is declared as what it must not represent. No other
/// clause is reported. Fails with `Memory` only when out of memory, which says nothing about the syntax tree.
///
/// `parse` is `read_syntax` followed by this call. A caller that makes the two calls can free the tokens between them,
/// so that tokens and file tree are not in memory at once.
///
/// Takes time and memory linear in the syntax tree and its texts, except that each datatype has its own copy of the uri
/// of its library. Names and mentions share the uri of their declaration. Prefixes are looked up by a hash with a fixed
/// seed: if n prefixes are chosen to have equal hashes, each look-up takes n steps. Recurses as deep as the syntax tree.
///
/// RELAX NG Compact Syntax, "Syntax" (`decl`).
pub fn resolve(alloc: Global, file: &File<'_>) -> Result<FileTree, ParseFault>
    ensures tree { IfOk result (λ t. IsResolved (syntax.file_of file.now) (file_of t)) }
    ensures fault { IfErr result (IsFaultOfTree (syntax.file_of file.now)) }
    ensures only { (t : tree.FileTree) → IsResolved (syntax.file_of file.now) t → Gives unless_memory file_of result (Ok t) }
    ensures declarations { BreaksDeclarationRule (syntax.file_of file.now) → Gives unless_memory file_of result (Err (faults.Clause 8)) }
{
    resolved(alloc, file)
}

/// Returns the tree of the schema file that has these tokens, with its declarations applied.
///
/// `tokens` are all tokens of the file, in order, and are numbered from 1. Their kinds and texts matter, but not their
/// positions in the text. The tree has the numbers of the words `include` and `external`. Tokens that break no clause
/// have one tree, and the call returns it. Otherwise it fails with the clause that they break:
///
/// - 7, without a number, if at some token the `{` and `(` up to it exceed the `}` and `)` up to it by more than 128;
/// - 6, if the tokens do not break 7 and are no sentence of the grammar. The number is that of the first token such
///   that no sentence begins with the tokens up to and including it, or the number of tokens plus one;
/// - 8, without a number, if they break neither, and a prefix or the default namespace is declared twice, a prefix is
///   not declared, or `xml`, `xmlns` or `xsd` is declared as what it must not represent.
///
/// Fails with `Memory` only when out of memory, which says nothing about the tokens.
///
/// The mentions of other files in the tree are in the order of their tokens, and no two have the same token
/// (`FileTree::mentioned_files`). The tree owns its texts, and does not borrow from the tokens.
///
/// Takes time and memory linear in the tokens and their texts, except that each datatype has its own copy of the uri of
/// its library. Names and mentions share the uri of their declaration. Prefixes are looked up by a hash with a fixed
/// seed: if n prefixes are chosen to have equal hashes, each look-up takes n steps. Recurses as deep as `{` and `(`
/// nest, at most 128.
///
/// RELAX NG Compact Syntax, "Syntax".
pub fn parse(alloc: Global, tokens: &[Token<'_>]) -> Result<FileTree, ParseFault>
    ensures tree { IfOk result (λ t. IsFileTree (lexemes (tokens_of tokens.now)) (file_of t)) }
    ensures mentions { IfOk result (λ t. IsStrictlyIncreasing (map (λ m. (mention_of m).token) (mentions_of (file_of t)))) }
    ensures fault { IfErr result (IsFaultOf (lexemes (tokens_of tokens.now))) }
    ensures only { (t : tree.FileTree) → IsFileTree (lexemes (tokens_of tokens.now)) t → Gives unless_memory file_of result (Ok t) }
    ensures nesting { BreaksNesting (lexemes (tokens_of tokens.now)) → Gives unless_memory file_of result (Err (faults.Clause 7)) }
    ensures grammar { BreaksGrammar (lexemes (tokens_of tokens.now)) → (number : ℕ) × Gives unless_memory file_of result (Err (faults.At 6 number)) }
    ensures declarations { BreaksDeclarations (lexemes (tokens_of tokens.now)) → Gives unless_memory file_of result (Err (faults.Clause 8)) }
    ensures one { (t u : tree.FileTree) → IsFileTree (lexemes (tokens_of tokens.now)) t → IsFileTree (lexemes (tokens_of tokens.now)) u → t ≡ u }
{
    let file = read_syntax(alloc, tokens)?;
    resolve(alloc, &file)
}
