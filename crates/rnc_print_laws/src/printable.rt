// The laws of the simple grammars of schemas.
ghost use Rattle.std.specs.Prelude.{ℕ, List};
ghost use Rattle.rnc_model.specs.loading.LoadedSchema.{AreSchema};
ghost use Rattle.rnc_model.specs.loading.Loading.{TakenFiles, are_taken, FilesHaveOnlyVerdict};
ghost use Rattle.rnc_model.specs.loading.SchemaFile.{FileName, NamedFile, IsSchemaFile};
ghost use Rattle.rng_model.specs.schema.Schema.{Schema};
ghost use Rattle.rng_model.specs.schema.SchemaClauses.{BreaksDatatype, BreaksNoClause};
ghost use Rattle.rng_model.specs.simple.SchemaForm.{IsSimpleGrammarOf};
ghost use Rattle.rng_model.specs.simple.Grammar.{Grammar};
ghost use Rattle.rnc_model.specs.declarations.FileTree.{FileTree};
ghost use Rattle.rnc_print_laws.specs.plain.Printable.{IsPrintable};
ghost use Rattle.rnc_print_laws.specs.plain.WellSpelledFiles.{IsWellSpelledFile};
ghost use Rattle.rnc_print_laws.specs.plain.WellSpelledSchemas.{IsWellSpelledSchema};

/// States the laws of printable grammars. It does nothing: its contract is what matters.
///
/// The tree of a file that breaks no clause by itself is well spelled, and so is the schema of some files. Consider a
/// well spelled schema without unknown datatypes and without wrong values. Each of its simple grammars is printable. So
/// each simple grammar of a schema of files that breaks no clause is printable.
pub fn printable_laws()
    ensures file { (bytes : List ℕ) (t : FileTree) → IsSchemaFile bytes t → IsWellSpelledFile t }
    ensures schema { (files : List NamedFile) (main : FileName) (read : TakenFiles) (s : Schema) → FilesHaveOnlyVerdict files main (are_taken read)
        → AreSchema read main s → IsWellSpelledSchema s }
    ensures form { (s : Schema) → IsWellSpelledSchema s → ¬ (BreaksDatatype s) → (g : Grammar) → IsSimpleGrammarOf s g → IsPrintable g }
    ensures printable { (files : List NamedFile) (main : FileName) (read : TakenFiles) (s : Schema) → FilesHaveOnlyVerdict files main (are_taken read)
        → AreSchema read main s → BreaksNoClause s → (g : Grammar) → IsSimpleGrammarOf s g → IsPrintable g }
{}
