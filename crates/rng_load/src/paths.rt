// Whether files mention themselves, or there are too many paths of mentions.
ghost use Rattle.std.specs.Prelude.{◌≡◌, ◌↔◌, IfOk, IfSome, IsTrue, MatchOption};
ghost use Rattle.rng_load.specs.plain.Counting.{marks_of, AreMore, HasFewPaths, IsMarked, StopsAt};
ghost use Rattle.rng_load.specs.views.FilesView.{taken_files_of};
ghost use Rattle.rnc_model.specs.loading.Mentions.{BreaksMentions};
ghost use Rattle.rnc_model.specs.loading.Loading.{hrefs_in};

use crate::mentioned::hrefs_in;
use indexmap::IndexMap;
use rnc_grammar::FileTree;
use rng_model::OutOfMemory;
use std::alloc::Global;
use std::collections::HashMap;

/// The largest number of paths of mentions from the main file, including the empty one.
const PATH_LIMIT: u32 = 4096;

/// The state of counting the paths of a file.
#[derive(Clone, Copy)]
enum Mark {
    /// Not all of its mentions are counted yet.
    Open,
    /// The file has this many paths.
    Counted(u32),
}

/// Whether a file that the main file reaches mentions itself, directly or through others, or there are more than 4,096
/// paths of mentions from the main file, including the empty one.
///
/// Reads the mentions of each file once, however many paths lead to it. Recurses no deeper than the number of names.
pub(crate) fn breaks_mentions(
    alloc: Global,
    trees: &IndexMap<String, FileTree>,
    main: &str,
) -> Result<bool, OutOfMemory>
    ensures { IfOk result (λ broken. IsTrue broken ↔ BreaksMentions (hrefs_in (taken_files_of trees.now)) main.now) }
{
    let mut marks = HashMap::new(alloc);
    let number = count_paths(alloc, trees, &mut marks, main, PATH_LIMIT)?;
    Ok(number.is_none())
}

/// Counts the paths of mentions from a file. Returns `None` if there are too many, if one returns to an open file, or
/// if one has as many steps as there are levels.
fn count_paths<'a>(
    alloc: Global,
    trees: &'a IndexMap<String, FileTree>,
    marks: &mut HashMap<&'a str, Mark>,
    name: &'a str,
    levels: u32,
) -> Result<Option<u32>, OutOfMemory>
    requires marked { IsMarked (hrefs_in (taken_files_of trees.now)) name.now (marks_of marks.old) }
    ensures counts { let mentions = hrefs_in (taken_files_of trees.now) in
        IfOk result (λ number. MatchOption number (StopsAt mentions levels name.now) (HasFewPaths mentions name.now)) }
    ensures marks { let mentions = hrefs_in (taken_files_of trees.now) in
        IfOk result (λ number. IfSome number (λ _. AreMore mentions (marks_of marks.old) (marks_of marks.new))) }
{
    match mark_of(marks, name) {
        Some(Mark::Counted(number)) => return Ok(Some(number)),
        Some(Mark::Open) => return Ok(None),
        None => {}
    }
    if levels == 0 {
        return Ok(None);
    }
    marks.insert(name, Mark::Open)?;
    let mut total = 1;
    let names = hrefs_in(alloc, trees, name)?;
    for next in &names {
        let Some(number) = count_paths(alloc, trees, marks, *next, levels - 1)? else {
            return Ok(None);
        };
        total += number;
        if total > PATH_LIMIT {
            return Ok(None);
        }
    }
    marks.insert(name, Mark::Counted(total))?;
    Ok(Some(total))
}

/// The mark of a file.
fn mark_of(marks: &HashMap<&str, Mark>, name: &str) -> Option<Mark>
    ensures { result ≡ marks_of marks.now name.now }
{
    marks.get(name).copied()
}
