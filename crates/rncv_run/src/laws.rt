// Laws of answers.
ghost use Rattle.std.specs.Prelude.{◌≡◌, ℕ, List, All, Option, Some};
ghost use Rattle.rng_model.specs.names.Names.{In, Name};
ghost use Rattle.rng_model.specs.schema.Schema.{Schema};
ghost use Rattle.rng_model.specs.simple.SchemaForm.{SimpleForm, IsSimpleFormOfSchema};
ghost use Rattle.rnc_model.specs.loading.LoadedSchema.{AreSchema};
ghost use Rattle.rnc_model.specs.loading.Loading.{TakenFiles};
ghost use Rattle.rnc_model.specs.loading.SchemaFile.{NamedFile};
ghost use Rattle.rncv_model.specs.answers.Answer.{Answer};
ghost use Rattle.rncv_model.specs.answers.Verdict.{IsUnknownIn};
ghost use Rattle.rncv_model.specs.answers.Run.{IsAnswer};
ghost use Rattle.rncv_model.specs.declared.command.Command.{Command};
ghost use Rattle.rncv_run.specs.plain.SameAnswers.{AreSameAnswer, HasPartsOf};

/// States the laws of the definition of answers. The function does nothing: its contract is the laws.
///
/// Files are at most one schema (`AreSchema`). A schema has at most one simple form, except for the order of its
/// elements. So the names that no element may have (`IsUnknownIn`) are the same for every simple form of a schema. For
/// one command, the same files and the same bytes of a document there is at most one answer (`IsAnswer`), except for
/// the line in `invalid`.
pub fn answer_laws()
    ensures schema { (read : TakenFiles) (main : List ℕ) (s t : Schema) → AreSchema read main s → AreSchema read main t → s ≡ t }
    ensures form { (s : Schema) (f h : SimpleForm) → IsSimpleFormOfSchema s f → IsSimpleFormOfSchema s h → HasPartsOf h f }
    ensures unknown { (s : Schema) (name : Name) → IsUnknownIn s name → (f : SimpleForm) → IsSimpleFormOfSchema s f → All (λ e. ¬ (In e.class name)) f.elements }
    ensures answer { (command : Command) (files : List NamedFile) (main bytes : List ℕ) (left other : Option (List ℕ)) (a b : Answer)
        → IsAnswer command files main (Some bytes) left a → IsAnswer command files main (Some bytes) other b → AreSameAnswer a b }
{}
