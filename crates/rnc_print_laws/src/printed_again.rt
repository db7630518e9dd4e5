// The laws of answers for printed texts.
ghost use Rattle.std.specs.Prelude.{◌≡◌, ◌≤◌, ℕ, List, Option, length};
ghost use Rattle.rnc_model.specs.loading.SchemaFile.{FileName, NamedFile, size_limit};
ghost use Rattle.rng_model.specs.schema.Schema.{Schema};
ghost use Rattle.rnc_print_laws.specs.plain.HandedIn.{AreFilesOf, AreOfSameForm, IsHandedInAgain, IsPrintedFile, text_alone};
ghost use Rattle.rncv_model.specs.answers.Answer.{Answer, printed};
ghost use Rattle.rncv_model.specs.answers.Run.{IsAnswer};
ghost use Rattle.rncv_model.specs.declared.command.Command.TheVariants.{Simple};

use crate::printable::printable_laws;
use crate::reading_back::reading_back_laws;
use rncv_run::answer_laws;

/// States the laws of printed texts that are handed in again. It does nothing: its contract is what matters.
///
/// Consider what `simple` prints for a schema, handed in alone as a file with any name, if it is no longer than a file
/// may be. It is a schema that breaks no clause, with the same simple form up to the numbers of its elements
/// (`same_form`).
///
/// Suppose that a text is printed for a schema that breaks no clause, and that the main file has the tree of its lines.
/// Then the answer of `simple` is this text and no other (`again`). The same holds if the text is handed in alone, is
/// no longer than a file may be, and has that tree (`alone`). What `simple` answers for files has that tree. So its
/// answer for this text alone is the text itself, if it is no longer than a file may be (`twice`).
pub fn printed_again_laws()
    ensures same_form { (files : List NamedFile) (main : FileName) (input_old input_new : Option (List ℕ)) (text : List ℕ)
        → IsAnswer Simple files main input_old input_new (printed text) → length text ≤ size_limit
        → (s : Schema) → AreFilesOf s files main → (name : FileName) → AreOfSameForm s (text_alone name text) name }
    ensures again { (s : Schema) (text : List ℕ) (files : List NamedFile) (main : FileName) → IsHandedInAgain s text files main
        → (input_old input_new : Option (List ℕ)) (answer : Answer) → IsAnswer Simple files main input_old input_new answer → answer ≡ printed text }
    ensures alone { (s : Schema) (text : List ℕ) → IsPrintedFile s text → (main : FileName) (input_old input_new : Option (List ℕ)) (answer : Answer)
        → IsAnswer Simple (text_alone main text) main input_old input_new answer → answer ≡ printed text }
    ensures twice { (files : List NamedFile) (main : FileName) (input_old input_new : Option (List ℕ)) (text : List ℕ)
        → IsAnswer Simple files main input_old input_new (printed text) → length text ≤ size_limit → (name : FileName) (old new : Option (List ℕ)) (answer : Answer)
        → IsAnswer Simple (text_alone name text) name old new answer → answer ≡ printed text }
{
    reading_back_laws();
    printable_laws();
    answer_laws();
}
