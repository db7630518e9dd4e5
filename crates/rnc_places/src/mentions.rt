// The files that a schema file mentions.
ghost use Rattle.std.specs.Prelude.{◌≡◌, IfErr, IfOk, map, string_bytes};
ghost use Rattle.rnc_grammar.specs.views.View.{file_of, mentioned_file_of};
ghost use Rattle.rnc_model.specs.loading.Loading.{hrefs_of};
ghost use Rattle.rnc_model.specs.loading.Mentions.{mention_of};
ghost use Rattle.rnc_places.specs.views.Mentions.{AreMentionedIn, IsFaultOfFile};

use crate::fault::FileFault;
use crate::places::tree_of;
use rnc_grammar::{FileTree, MentionedFile};
use rng_model::OutOfMemory;
use std::alloc::Global;

/// Returns the names of the files that a schema file mentions by `include` and `external`, as they are written.
///
/// They are in the order of the file. Those in the braces of an `include` come after the file that it names. A name
/// that is mentioned twice is listed twice. What is in an annotation or a comment is not mentioned.
///
/// Fails with the clause from 3 to 8 that the file breaks, and its place, exactly if it breaks one. Fails with `Memory`
/// only when out of memory. Takes the time and the memory that it takes to read the file. Its size is not limited.
///
/// RELAX NG Specification, sections 4.6 and 4.7.
pub fn mentioned_names(alloc: Global, file: &[u8]) -> Result<Vec<String>, FileFault>
    ensures names { IfOk result (λ names. AreMentionedIn file.now (map string_bytes names.items)) }
    ensures fault { IfErr result (IsFaultOfFile file.now) }
{
    let tree = tree_of(alloc, file)?;
    Ok(names_in(alloc, &tree)?)
}

/// The names that a file mentions, in order.
fn names_in(alloc: Global, tree: &FileTree) -> Result<Vec<String>, OutOfMemory>
    ensures { IfOk result (λ names. map string_bytes names.items ≡ hrefs_of (file_of tree.now)) }
{
    let mentioned = tree.mentioned_files(alloc)?;
    let mut names = Vec::new(alloc);
    for file in &mentioned {
        names.push(String::from_str(alloc, name_of(*file))?)?;
    }
    Ok(names)
}

/// The name of a mentioned file.
fn name_of<'a>(file: MentionedFile<'a>) -> &'a str
    ensures { result.now ≡ (mention_of (mentioned_file_of file.entry)).href }
{
    match file {
        MentionedFile::External(mention) | MentionedFile::Included(mention, _) => {
            mention.href.as_str()
        }
    }
}
