// The laws of the schemas of printed texts.
ghost use Rattle.std.specs.Prelude.{◌≡◌, ℕ, List, Result};
ghost use Rattle.rng_model.specs.schema.Schema.{Schema};
ghost use Rattle.rng_model.specs.schema.SchemaClauses.{BreaksNoClause};
ghost use Rattle.rng_model.specs.simple.SchemaForm.{IsOnlySimpleGrammarOf, IsSimpleGrammarOf};
ghost use Rattle.rng_model.specs.simple.Grammar.{Grammar};
ghost use Rattle.rng_model.specs.declared.fault.SchemaFault.{SchemaFault};
ghost use Rattle.rnc_model.specs.loading.LoadedSchema.{AreSchema};
ghost use Rattle.rng_load.specs.views.Loaded.{IsLoaded};
ghost use Rattle.rnc_model.specs.loading.Loading.{are_taken, FilesHaveVerdict};
ghost use Rattle.rnc_model.specs.loading.SchemaFile.{HasTree, FileName, NamedFile};
ghost use Rattle.rng_load.specs.declared.schema.Schema as loaded;
ghost use Rattle.rncv_model.specs.printed.Items.{PrintedItem};
ghost use Rattle.rnc_print.specs.plain.Renumbered.{AreSameUpToNumbering};
ghost use Rattle.rncv_model.specs.printed.SchemaText.{IsPrintedForm};
ghost use Rattle.rnc_print_laws.specs.plain.HandedIn.{IsAgain, IsHandedInAgain, IsPrintedFile, lines_alone, text_alone};
ghost use Rattle.rnc_print_laws.specs.plain.LinesSchema.{IsReprinted, IsReprintedAs, IsSchemaOfLines, schema_of_lines};
ghost use Rattle.rnc_print_laws.specs.plain.LinesTree.{lines_tree};

/// States the laws of the schema of the lines of a printed grammar. It does nothing: its contract is what matters.
///
/// Suppose that the grammar is a simple form of a schema that breaks no clause. Then the schema of its lines breaks
/// none, and the grammar is a simple form of it. Each simple form of it is that grammar up to the numbers of its
/// elements. So what is printed for it is the text that is printed for the first schema, and no other.
pub fn reprinting_laws()
    ensures kept { (s r : Schema) (g : Grammar) (items : List PrintedItem) → IsReprinted s r g items → BreaksNoClause r }
    ensures form { (s r : Schema) (g : Grammar) (items : List PrintedItem) → IsReprinted s r g items → IsSimpleGrammarOf r g }
    ensures only { (s r : Schema) (g : Grammar) (items : List PrintedItem) → IsReprinted s r g items → IsOnlySimpleGrammarOf r g }
    ensures numbers { (s r : Schema) (g : Grammar) (items : List PrintedItem) → IsReprinted s r g items → (other : Grammar)
        → IsSimpleGrammarOf r other → AreSameUpToNumbering g other }
    ensures printed { (s r : Schema) (text : List ℕ) → IsReprintedAs s r text → BreaksNoClause r × IsPrintedForm r text }
    ensures same { (s r : Schema) (text other : List ℕ) → IsReprintedAs s r text → IsPrintedForm r other → other ≡ text }
{}

/// States the laws of the file of the lines of a printed grammar. It does nothing: its contract is what matters.
///
/// If the main file has the tree of the lines, it is taken alone and breaks no clause about several files. Its schema
/// is the schema of the lines, and there is one. Suppose that the lines are what is printed for a schema that breaks no
/// clause. Then the schema that is loaded breaks none either, and the same is printed for it. The only fault is out of
/// memory. This also holds for the text handed in alone, if it is no longer than a file may be.
pub fn printed_file_laws()
    ensures taken { (files : List NamedFile) (main : FileName) (g : Grammar) (items : List PrintedItem) → HasTree files main main (lines_tree g items)
        → FilesHaveVerdict files main (are_taken (lines_alone main g items)) }
    ensures lines { (main : FileName) (g : Grammar) (items : List PrintedItem) (r : Schema) → AreSchema (lines_alone main g items) main r → IsSchemaOfLines g items r }
    ensures there { (main : FileName) (g : Grammar) (items : List PrintedItem) → AreSchema (lines_alone main g items) main (schema_of_lines g items) }
    ensures alone { (s : Schema) (text : List ℕ) → IsPrintedFile s text → (main : FileName) → IsHandedInAgain s text (text_alone main text) main }
    ensures again { (s : Schema) (text : List ℕ) (files : List NamedFile) (main : FileName) → IsHandedInAgain s text files main
        → (result : Result loaded.Schema SchemaFault) → IsLoaded files main result → IsAgain text result }
{}
