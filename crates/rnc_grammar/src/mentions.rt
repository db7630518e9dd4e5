// The files that a schema file mentions.
ghost use Rattle.std.specs.Prelude.{◌≡◌, ◌++◌, IfOk, OnOk, map};
ghost use Rattle.rnc_model.specs.grammar.Syntax.{components_of, patterns_of};
ghost use Rattle.rnc_model.specs.loading.Mentions.{mentions_of, mentions_of_component, mentions_of_components, mentions_of_pattern, mentions_of_patterns};
ghost use Rattle.rnc_grammar.specs.views.View.{component_of, file_of, mentioned_file_of, pattern_of};

use crate::file_tree::{Component, FileTree, Mention, Pattern};
use rng_model::OutOfMemory;
use std::alloc::Global;

/// A file that another one mentions.
///
/// RELAX NG Specification, sections 4.6 and 4.7.
#[derive(Clone, Copy)]
pub enum MentionedFile<'a> {
    /// `external ".."`: it is replaced by the pattern of the file.
    External(&'a Mention),
    /// `include ".." { .. }`: it is replaced by the components of the file's grammar, together with those in the
    /// braces.
    Included(&'a Mention, &'a [Component]),
}

impl FileTree {
    /// Returns the files that this file mentions, in the order of their tokens.
    ///
    /// All mentions are listed, at any depth. In a file that `parse` returns, the token of each mention has a greater
    /// number than that of the one before. The mentions in the braces of an include come after it. A file that is
    /// mentioned twice is listed twice.
    ///
    /// Fails only when out of memory. Takes time linear in the tree, and memory linear in the mentions. Recurses as
    /// deep as the tree nests.
    ///
    /// RELAX NG Specification, sections 4.6 and 4.7.
    pub fn mentioned_files(&self, alloc: Global) -> Result<Vec<MentionedFile<'_>>, OutOfMemory>
        ensures { IfOk result (λ all. map mentioned_file_of all.items ≡ mentions_of (file_of self.now)) }
    {
        let mut all = Vec::new(alloc);
        match self {
            FileTree::Pattern(pattern) => push_from_pattern(&mut all, pattern)?,
            FileTree::Grammar(components) => push_from_components(&mut all, components)?,
        }
        Ok(all)
    }
}

/// Appends the files that a pattern mentions.
#[cycle(mentions)]
fn push_from_pattern<'a>(
    all: &mut Vec<MentionedFile<'a>>,
    pattern: &'a Pattern,
) -> Result<(), OutOfMemory>
    ensures { OnOk result (map mentioned_file_of all.new.items ≡ map mentioned_file_of all.old.items ++ mentions_of_pattern (pattern_of pattern.now)) }
{
    match pattern {
        Pattern::Element(_, body)
        | Pattern::Attribute(_, body)
        | Pattern::List(body)
        | Pattern::Mixed(body)
        | Pattern::Optional(body)
        | Pattern::ZeroOrMore(body)
        | Pattern::OneOrMore(body) => push_from_pattern(all, body),
        Pattern::Ref(_)
        | Pattern::ParentRef(_)
        | Pattern::Empty
        | Pattern::Text
        | Pattern::NotAllowed
        | Pattern::Value(_) => Ok(()),
        Pattern::Data { except, .. } => match except {
            Some(except) => push_from_pattern(all, except),
            None => Ok(()),
        },
        Pattern::External(mention) => Ok(all.push(MentionedFile::External(mention))?),
        Pattern::Grammar(components) => push_from_components(all, components),
        Pattern::Group(members) | Pattern::Interleave(members) | Pattern::Choice(members) => {
            push_from_patterns(all, members)
        }
    }
}

/// Appends the files that patterns mention.
#[cycle(mentions)]
fn push_from_patterns<'a>(
    all: &mut Vec<MentionedFile<'a>>,
    patterns: &'a [Pattern],
) -> Result<(), OutOfMemory>
    ensures { OnOk result (map mentioned_file_of all.new.items ≡ map mentioned_file_of all.old.items ++ mentions_of_patterns (patterns_of (map pattern_of patterns.now))) }
{
    for pattern in patterns {
        push_from_pattern(all, pattern)?;
    }
    Ok(())
}

/// Appends the files that a component mentions. The file of an include comes before those in its braces.
#[cycle(mentions)]
fn push_from_component<'a>(
    all: &mut Vec<MentionedFile<'a>>,
    component: &'a Component,
) -> Result<(), OutOfMemory>
    ensures { OnOk result (map mentioned_file_of all.new.items ≡ map mentioned_file_of all.old.items ++ mentions_of_component (component_of component.now)) }
{
    match component {
        Component::Start(_, body) | Component::Define(_, _, body) => push_from_pattern(all, body),
        Component::Div(components) => push_from_components(all, components),
        Component::Include(mention, overriding) => {
            all.push(MentionedFile::Included(mention, overriding))?;
            push_from_components(all, overriding)
        }
    }
}

/// Appends the files that components mention.
#[cycle(mentions)]
fn push_from_components<'a>(
    all: &mut Vec<MentionedFile<'a>>,
    components: &'a [Component],
) -> Result<(), OutOfMemory>
    ensures { OnOk result (map mentioned_file_of all.new.items ≡ map mentioned_file_of all.old.items ++ mentions_of_components (components_of (map component_of components.now))) }
{
    for component in components {
        push_from_component(all, component)?;
    }
    Ok(())
}
