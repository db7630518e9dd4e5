// From the given files to their schema.
ghost use Rattle.std.specs.Prelude.{IfSome};
ghost use Rattle.rnc_model.specs.loading.SchemaFile.{named_files};
ghost use Rattle.rng_load.specs.views.Loaded.{IsLoaded};
ghost use Rattle.rnc_model.specs.loading.Loading.{FilesHaveOnlyVerdict};
ghost use Rattle.rng_load.specs.views.LoadingFaults.{reading_of};

use crate::fault::ReadingFault;
use crate::includes::breaks_includes;
use crate::order::load_in_order;
use crate::paths::breaks_mentions;
use crate::schema::Schema;
use crate::schema_reader::schema_of_files;
use indexmap::IndexMap;
use rnc_grammar::FileTree;
use rng_model::SchemaFault;
use std::alloc::Global;

/// Loads the schema whose main file has the name `main`, from the given files.
///
/// The load order begins with the main file. For each file in load order, the files follow that it mentions with
/// `include` or `external`, at any depth, in the order of its tokens. A file that is in the order already is not added
/// again. The bytes of other files are not read. The call fails with the first clause that is broken:
///
/// - `File` with the name of the first file in load order that breaks a clause by itself, and the first clause that it
///   breaks:
///   - 1 if no file of this name is given, or more than one;
///   - 2 if it is the main file and more than 64 files are given, or it has more than 1,048,576 bytes. Then no byte is
///     read;
///   - 3 if the bytes are not UTF-8;
///   - 4 if XML does not allow a character, or an escape is bad;
///   - 5 if neither a blank, a comment nor a token begins at some offset;
///   - 7 if up to some token the opening brackets exceed the closing ones by more than 128;
///   - 6 if 7 is not broken and the tokens are no sentence of the grammar;
///   - 8 if a declaration or a prefix breaks a rule;
/// - otherwise `Clause(9)` if a file mentions itself, directly or through others, or there are more than 4,096 paths of
///   mentions from the main file, including the empty one;
/// - otherwise `Clause(10)` if an included file is no grammar, or an include overrides a start or a name that the
///   included grammar does not have.
///
/// If no clause is broken, the call returns the schema: the components of the main grammar, and those of each nested
/// grammar.
///
/// - The main file inherits the empty namespace. A mentioned file inherits the namespace that the mention names with
///   `inherit`, or otherwise the default namespace of the file that mentions it.
/// - An include adds to its grammar the components of its file, except for those that its braces override. These are
///   the starts if the braces have a start, and the components of each name that the braces define. The components in
///   the braces follow.
/// - An external is replaced by the pattern of its file. If the file is a grammar, it is a nested grammar there.
/// - Each grammar that is nested in a component is at its place, and the grammar around it is that of the component.
///
/// Fails with `Memory` only when out of memory, which says nothing about the files. Decodes and parses each file once,
/// in time linear in its bytes. For an include with braces, reads the components of the two grammars once. Copies
/// nothing before all clauses are checked. After that, time and memory are linear in the contents of all places, each
/// grammar with the way to it.
///
/// RELAX NG Specification, sections 4.6, 4.7, 4.9, 4.11 and 4.18. The order and the limits are of the profile
/// (docs/use/LANGUAGE.md).
pub fn load(alloc: Global, files: &[(String, Vec<u8>)], main: &str) -> Result<Schema, SchemaFault>
    ensures { IsLoaded (named_files files.now) main.now result }
{
    let trees = load_files(alloc, files, main)?;
    let tree = trees.get(main).unwrap();
    Ok(schema_of_files(alloc, &trees, tree)?)
}

/// Reads the files of the schema with their trees, or fails with the first clause that is broken.
fn load_files(
    alloc: Global,
    files: &[(String, Vec<u8>)],
    main: &str,
) -> Result<IndexMap<String, FileTree>, SchemaFault>
    ensures { IfSome (reading_of result) (FilesHaveOnlyVerdict (named_files files.now) main.now) }
{
    let trees = match load_in_order(alloc, files, main) {
        Ok(trees) => trees,
        Err(ReadingFault::File { clause, name }) => return Err(SchemaFault::File { clause, name }),
        Err(ReadingFault::Memory) => return Err(SchemaFault::Memory),
    };
    if breaks_mentions(alloc, &trees, main)? {
        return Err(SchemaFault::Clause(9));
    }
    if breaks_includes(alloc, &trees)? {
        return Err(SchemaFault::Clause(10));
    }
    Ok(trees)
}
