// Whether each include is of a grammar that has everything that is overridden.
ghost use Rattle.std.specs.Prelude.{◌↔◌, IfOk, IsTrue, map};
ghost use Rattle.rnc_model.specs.grammar.Syntax.{components_of};
ghost use Rattle.rnc_grammar.specs.views.View.{component_of, file_of, mention_of, mentioned_file_of};
ghost use Rattle.rng_load.specs.views.FilesView.{taken_files_of};
ghost use Rattle.rnc_model.specs.loading.Loading.{BreaksInclude, BreaksIncludes, IsBrokenInclude, HasBrokenInclude};

use crate::component_names::component_names;
use indexmap::IndexMap;
use rnc_grammar::{Component, FileTree, Mention, MentionedFile};
use rng_model::OutOfMemory;
use std::alloc::Global;

/// Whether some include breaks a rule, at any depth in one of the files: the included file is no grammar, or the
/// include overrides a start or a name that the included grammar does not have.
///
/// RELAX NG Specification, section 4.7.
pub fn breaks_includes(
    alloc: Global,
    trees: &IndexMap<String, FileTree>,
) -> Result<bool, OutOfMemory>
    ensures { IfOk result (λ broken. IsTrue broken ↔ BreaksIncludes (taken_files_of trees.now)) }
{
    for tree in trees.values().as_slice() {
        if has_broken_include(alloc, trees, tree)? {
            return Ok(true);
        }
    }
    Ok(false)
}

/// Whether some include of one file breaks a rule.
fn has_broken_include(
    alloc: Global,
    trees: &IndexMap<String, FileTree>,
    tree: &FileTree,
) -> Result<bool, OutOfMemory>
    ensures { IfOk result (λ broken. IsTrue broken ↔ HasBrokenInclude (taken_files_of trees.now) (file_of tree.now)) }
{
    let mentioned = tree.mentioned_files(alloc)?;
    for file in &mentioned {
        if is_broken(alloc, trees, *file)? {
            return Ok(true);
        }
    }
    Ok(false)
}

/// Whether the mention is an include that breaks a rule.
fn is_broken(
    alloc: Global,
    trees: &IndexMap<String, FileTree>,
    file: MentionedFile<'_>,
) -> Result<bool, OutOfMemory>
    ensures { IfOk result (λ broken. IsTrue broken ↔ IsBrokenInclude (taken_files_of trees.now) (mentioned_file_of file.entry)) }
{
    match file {
        MentionedFile::External(_) => Ok(false),
        MentionedFile::Included(mention, overriding) => {
            breaks_include(alloc, trees, mention, overriding)
        }
    }
}

/// Whether an include with these components in its braces breaks a rule.
fn breaks_include(
    alloc: Global,
    trees: &IndexMap<String, FileTree>,
    mention: &Mention,
    overriding: &[Component],
) -> Result<bool, OutOfMemory>
    ensures { IfOk result (λ broken. IsTrue broken ↔ BreaksInclude (taken_files_of trees.now) (mention_of mention.now) (components_of (map component_of overriding.now))) }
{
    let Some(tree) = trees.get(mention.href.as_str()) else {
        return Ok(false);
    };
    let Some(included) = tree.grammar() else {
        return Ok(true);
    };
    if overriding.is_empty() {
        return Ok(false);
    }
    let there = component_names(alloc, trees, included)?;
    let overridden = component_names(alloc, trees, overriding)?;
    Ok(!there.have_all_of(&overridden))
}
