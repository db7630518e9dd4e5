// From the tokens of a schema file to its syntax tree.
ghost use Rattle.std.specs.Prelude.{◌≡◌, ℕ, Err, IfErr, IfOk, Ok, length};
ghost use Rattle.rng_model.specs.plain.Answers.{Gives};
ghost use Rattle.rnc_syntax.specs.views.Fault.{told, unless_memory};
ghost use Rattle.rnc_model.specs.grammar.Grammar.{IsFile};
ghost use Rattle.rnc_model.specs.tokens.Cut.{lexemes};
ghost use Rattle.rnc_syntax.specs.plain.Productions.{file_with, inside_at};
ghost use Rattle.rnc_model.specs.grammar.Sentence.{BreaksNesting, nesting_limit};
ghost use Rattle.rnc_model.specs.grammar.SyntaxTrees.{BreaksGrammar, IsSyntaxTree};
ghost use Rattle.rnc_syntax.specs.views.SentenceFaults.{IsFaultOf};
ghost use Rattle.rnc_model.specs.grammar.Syntax as syntax;
ghost use Rattle.rnc_syntax.specs.views.SyntaxView.{file_of};
ghost use Rattle.rnc_syntax.specs.declared.fault.SyntaxFault.TheVariants as faults;
ghost use Rattle.rnc_model.specs.tokens.CutTokens.{tokens_of};

use crate::fault::{ReadFault, Stop, SyntaxFault};
use crate::nesting::{NESTING_LIMIT, nests_within_limit};
use crate::reading::Reader;
use crate::syntax_tree::File;
use rnc_text::Token;
use std::alloc::Global;

/// Reads the tokens of a file that nest within the limit. Fails where reading stops.
fn read<'a>(alloc: Global, tokens: &[Token<'a>]) -> Result<File<'a>, SyntaxFault>
    ensures { Gives unless_memory file_of result (told (length (lexemes (tokens_of tokens.now))) (file_with (inside_at nesting_limit) (lexemes (tokens_of tokens.now)))) }
{
    let reader = Reader {
        alloc,
        count: tokens.len(),
    };
    match reader.file(NESTING_LIMIT, tokens) {
        Ok(file) => Ok(file),
        Err(ReadFault::Memory) => Err(SyntaxFault::Memory),
        Err(ReadFault::Stop(Stop::TooDeep)) => Err(SyntaxFault::TooDeep),
        Err(ReadFault::Stop(Stop::Unexpected(left))) => Err(SyntaxFault::Unexpected {
            number: tokens.len().saturating_sub(left) as u64 + 1,
        }),
    }
}

/// Reads the syntax tree of the schema file that has these tokens.
///
/// `tokens` are all tokens of the file, in order, and are numbered from 1. Their kinds and texts matter, but not their
/// positions in the text. The tree has the numbers of the words `include` and `external`.
///
/// A sentence of the grammar has one syntax tree. The call returns it if `{` and `(` nest within the limit. Otherwise
/// it fails with
///
/// - `TooDeep` if at some token the `{` and `(` up to it exceed the `}` and `)` up to it by more than 128;
/// - `Unexpected` if this holds at no token and the tokens are no sentence. The number is that of the first token such
///   that no sentence begins with the tokens up to and including it, or the number of tokens plus one.
///
/// Fails with `Memory` only when out of memory, which says nothing about the tokens.
///
/// Annotations are skipped, at any depth, and are not in the tree. Their tokens are numbered like all others.
///
/// Takes time and memory linear in the tokens. The tree borrows their texts. Recurses as deep as `{` and `(` nest.
///
/// RELAX NG Compact Syntax, "Syntax", "Annotations".
#[tactic(auto, using(crate::proofs::CompletenessFiles::unique))]
pub fn read_syntax<'a>(alloc: Global, tokens: &[Token<'a>]) -> Result<File<'a>, SyntaxFault>
    ensures tree { IfOk result (λ f. IsSyntaxTree (lexemes (tokens_of tokens.now)) (file_of f)) }
    ensures fault { IfErr result (IsFaultOf (lexemes (tokens_of tokens.now))) }
    ensures only { (f : syntax.File) → IsSyntaxTree (lexemes (tokens_of tokens.now)) f → Gives unless_memory file_of result (Ok f) }
    ensures nesting { BreaksNesting (lexemes (tokens_of tokens.now)) → Gives unless_memory file_of result (Err faults.TooDeep) }
    ensures grammar { BreaksGrammar (lexemes (tokens_of tokens.now)) → (number : ℕ) × Gives unless_memory file_of result (Err (faults.Unexpected number)) }
    ensures one { (f g : syntax.File) → IsFile (lexemes (tokens_of tokens.now)) f → IsFile (lexemes (tokens_of tokens.now)) g → f ≡ g }
{
    if nests_within_limit(tokens) {
        read(alloc, tokens)
    } else {
        Err(SyntaxFault::TooDeep)
    }
}
