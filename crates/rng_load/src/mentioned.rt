// The names of the files that a file mentions.
ghost use Rattle.std.specs.Prelude.{◌≡◌, map, IfOk};
ghost use Rattle.rnc_model.specs.loading.Mentions.{mention_of};
ghost use Rattle.rnc_grammar.specs.views.View.{file_of, mentioned_file_of};
ghost use Rattle.rng_load.specs.views.FilesView.{taken_files_of};
ghost use Rattle.rnc_model.specs.loading.Loading.{hrefs_of, hrefs_in};

use indexmap::IndexMap;
use rnc_grammar::{FileTree, MentionedFile};
use rng_model::OutOfMemory;
use std::alloc::Global;

/// Returns the names that a file mentions as they are written, in the order of its tokens. Takes memory linear in the
/// mentions; the names are borrowed.
pub fn hrefs<'a>(alloc: Global, tree: &'a FileTree) -> Result<Vec<&'a str>, OutOfMemory>
    ensures { IfOk result (λ names. map (λ n. n.now) names.items ≡ hrefs_of (file_of tree.now)) }
{
    let mentioned = tree.mentioned_files(alloc)?;
    let mut names = Vec::new(alloc);
    for file in &mentioned {
        names.push(href(*file))?;
    }
    Ok(names)
}

/// The names that the file of this name mentions, in order. Empty if there is no such file.
pub fn hrefs_in<'a>(
    alloc: Global,
    trees: &'a IndexMap<String, FileTree>,
    name: &str,
) -> Result<Vec<&'a str>, OutOfMemory>
    ensures { IfOk result (λ names. map (λ n. n.now) names.items ≡ hrefs_in (taken_files_of trees.now) name.now) }
{
    match trees.get(name) {
        Some(tree) => hrefs(alloc, tree),
        None => Ok(Vec::new(alloc)),
    }
}

/// The name of a mentioned file.
fn href<'a>(file: MentionedFile<'a>) -> &'a str
    ensures { result.now ≡ (mention_of (mentioned_file_of file.entry)).href }
{
    match file {
        MentionedFile::External(mention) | MentionedFile::Included(mention, _) => {
            mention.href.as_str()
        }
    }
}
