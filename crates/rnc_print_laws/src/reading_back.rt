// The laws of reading printed texts back.
ghost use Rattle.std.specs.Prelude.{◌≤◌, ℕ, IsTrue, List, is_some, length};
ghost use Rattle.rng_model.specs.datatypes.Datatypes.{type_named};
ghost use Rattle.rng_model.specs.simple.Grammar.{Grammar};
ghost use Rattle.rncv_model.specs.printed.PrintedText.{IsPrinted};
ghost use Rattle.rnc_print_laws.specs.plain.LinesTree.{lines_tree};
ghost use Rattle.rnc_print_laws.specs.plain.Printable.{CanBeNamed, IsPrintable};
ghost use Rattle.rnc_print_laws.specs.views.ReadBack.{IsReadAs};

use rnc_text::marks_laws;

/// States the laws of reading back. It does nothing: its contract is what matters.
///
/// Consider the printed text of a printable grammar, if it has at most 1,048,576 bytes. It decodes to characters, which
/// are cut into tokens. The tokens are a sentence that nests within the limit, and no rule about declarations is
/// broken. The file tree is a plain `start`, followed by a plain define for each element and for each pattern with
/// parts. Each has the pattern that its line shows. RELAX NG Compact Syntax, "Lexical structure" and "Syntax".
pub fn reading_back_laws()
    // The text has the tree of its lines.
    ensures read { (g : Grammar) (text : List ℕ) → IsPrintable g → (p : IsPrinted g text) → length text ≤ 1048576 → IsReadAs text (lines_tree g p.items) }
    // Each datatype of the table can be named.
    ensures named { (library name : List ℕ) → IsTrue (is_some (type_named library name)) → CanBeNamed library name }
{
    marks_laws();
}
