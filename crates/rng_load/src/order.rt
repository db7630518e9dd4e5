// The files of a schema, in load order.
ghost use Rattle.std.specs.Prelude.{◌≡◌, fold, IfSome, OnOk};
ghost use Rattle.rnc_grammar.specs.views.View.{file_of};
ghost use Rattle.rng_load.specs.views.FilesView.{names_of};
ghost use Rattle.rnc_model.specs.loading.SchemaFile.{named_files};
ghost use Rattle.rnc_model.specs.loading.Loading.{hrefs_of, with_name};
ghost use Rattle.rng_load.specs.views.LoadingFaults.{IsNamedTree, IsTheReading, order_of};

use crate::fault::{FileFault, ReadingFault};
use crate::mentioned::hrefs;
use crate::put::put;
use crate::reading::tree_of_file;
use indexmap::{IndexMap, IndexSet};
use rnc_grammar::FileTree;
use rng_model::OutOfMemory;
use std::alloc::Global;

/// Returns the files that the main file reaches, by name in load order, each with its tree.
///
/// The load order begins with the main file. For each file in load order, the files follow that it mentions, in the
/// order of its tokens. A file that is in the order already is not added again. Fails with `File` for the first file in
/// load order that breaks a clause by itself, with the first clause that it breaks, 1 to 8. Files after it are not read.
///
/// Decodes and parses each file once, however often it is mentioned.
pub fn load_in_order(
    alloc: Global,
    files: &[(String, Vec<u8>)],
    main: &str,
) -> Result<IndexMap<String, FileTree>, ReadingFault>
    ensures { IfSome (order_of result) (IsTheReading (named_files files.now) main.now) }
{
    let mut names = IndexSet::new(alloc);
    names.insert(String::from_str(alloc, main)?)?;
    let mut trees = IndexMap::new(alloc);
    'files: while let Some(name) = names.get_index(trees.len()) {
        let name = String::from_str(alloc, name.as_str())?;
        let tree = named_tree(alloc, files, main, name.as_str())?;
        note_all(alloc, &mut names, &tree)?;
        put(&mut trees, name, tree)?;
    }
    Ok(trees)
}

/// Reads the tree of the file of this name. Fails with `File` and its name if it breaks a clause by itself.
fn named_tree(
    alloc: Global,
    files: &[(String, Vec<u8>)],
    main: &str,
    name: &str,
) -> Result<FileTree, ReadingFault>
    ensures { IsNamedTree (named_files files.now) main.now name.now result }
{
    match tree_of_file(alloc, files, main, name) {
        Ok(tree) => Ok(tree),
        Err(FileFault::Clause(clause)) => Err(ReadingFault::File {
            clause,
            name: String::from_str(alloc, name)?,
        }),
        Err(FileFault::Memory) => Err(ReadingFault::Memory),
    }
}

/// Appends the names that a file mentions, unless they are in the set.
fn note_all(alloc: Global, names: &mut IndexSet<String>, tree: &FileTree) -> Result<(), OutOfMemory>
    ensures { OnOk result (names_of names.new ≡ fold with_name (names_of names.old) (hrefs_of (file_of tree.now))) }
{
    let mentioned = hrefs(alloc, tree)?;
    for name in mentioned.iter() {
        note(alloc, names, name)?;
    }
    Ok(())
}

fn note(alloc: Global, names: &mut IndexSet<String>, name: &str) -> Result<(), OutOfMemory>
    ensures { OnOk result (names_of names.new ≡ with_name (names_of names.old) name.now) }
{
    if !names.contains(name) {
        names.insert(String::from_str(alloc, name)?)?;
    }
    Ok(())
}
