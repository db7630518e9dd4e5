// The laws of printed texts themselves.
ghost use Rattle.std.specs.Prelude.{◌≡◌, ℕ, List, length};
ghost use Rattle.rng_model.specs.schema.Schema.{Schema};
ghost use Rattle.rng_model.specs.simple.SchemaForm.{IsSimpleGrammarOf};
ghost use Rattle.rng_model.specs.simple.Grammar.{Grammar};
ghost use Rattle.rncv_model.specs.printed.PrintedText.{IsPrinted};
ghost use Rattle.rnc_print.specs.plain.Renumbered.{AreSameUpToNumbering};
ghost use Rattle.rncv_model.specs.printed.SchemaText.{IsPrintedForm};

/// States the laws of the definition of printed texts. It does nothing: its contract is what matters.
///
/// Each grammar has one printed text. Grammars that are the same up to the numbers of their elements have the same text
/// and the same number of elements. They are simple forms of the same schemas. So a schema has at most one printed
/// form, whichever of its simple forms is printed.
#[tactic(auto, using(crate::proofs::OneText::text_there))]
pub fn printing_laws()
    ensures some { (g : Grammar) → (t : List ℕ) × IsPrinted g t }
    ensures one { (g : Grammar) (t u : List ℕ) → IsPrinted g t → IsPrinted g u → t ≡ u }
    ensures schema { (s : Schema) (t u : List ℕ) → IsPrintedForm s t → IsPrintedForm s u → t ≡ u }
    ensures same { (g h : Grammar) → AreSameUpToNumbering g h → (t u : List ℕ) → IsPrinted g t → IsPrinted h u → t ≡ u }
    ensures as_many { (g h : Grammar) → AreSameUpToNumbering g h → length g.elements ≡ length h.elements }
    ensures form { (g h : Grammar) → AreSameUpToNumbering g h → (s : Schema) → IsSimpleGrammarOf s g → IsSimpleGrammarOf s h }
{}
