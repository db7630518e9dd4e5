// Components that are being gathered, and the lists of components that are not gathered to their ends.
ghost use Rattle.std.specs.Prelude.{◌≡◌, IsTrue, List, OnOk, reverse};
ghost use Rattle.rng_load.specs.plain.OpenComponents.{Files, IsLast, after_end, gathered_at_end, with_list};
ghost use Rattle.rng_load.specs.views.GrammarParts.{AreJoined};
ghost use Rattle.rnc_model.specs.loading.Places.{Gathered, TreePath};
ghost use Rattle.rng_load.specs.views.GatheredComponents.{end_of, gathered_in, list_of, lists_in};

use crate::gathering::{GrammarParts, replace};
use crate::pattern_rows::FileScope;
use crate::reading_patterns::NestedGrammar;
use rnc_grammar::Component;
use rng_model::OutOfMemory;
use rng_overrides::GatheredComponent;
use std::alloc::Global;
use std::mem;

/// How many components are moved on at once, at the least.
const MANY: usize = 1_024;

/// A list of components that is not gathered to its end: where it is read, the number of the next component, and what
/// is to be done at the end of the list.
#[derive(Drop)]
pub(crate) struct OpenComponents<'a> {
    pub scope: FileScope<'a>,
    pub components: &'a [Component],
    pub number: usize,
    pub at_end: AtEnd<'a>,
}

/// What is to be done at the end of a list of components.
#[derive(Drop)]
pub(crate) enum AtEnd<'a> {
    /// Nothing: the list is that of a grammar or of a div.
    Nothing,
    /// The list is that of an included file. The braces of its include are next, in the scope of the include.
    Braces {
        before: Vec<GatheredComponent<NestedGrammar<'a>>>,
        scope: FileScope<'a>,
        overriding: &'a [Component],
    },
    /// The list is that of an include's braces. Included components of the same names are removed.
    Override {
        before: Vec<GatheredComponent<NestedGrammar<'a>>>,
        included: Vec<GatheredComponent<NestedGrammar<'a>>>,
    },
}

/// What is gathered, and the lists of components that are open. The innermost open list is the last. An include that is
/// open has what was gathered before it, and `all` has only what was gathered since.
#[derive(Drop)]
pub(crate) struct GatheredComponents<'a> {
    pub all: Vec<GatheredComponent<NestedGrammar<'a>>>,
    pub open: Vec<OpenComponents<'a>>,
}

impl<'a> GatheredComponents<'a> {
    /// Opens a list of components. `way` leads to their parent.
    pub(crate) fn open_list(
        &mut self,
        way: &mut Vec<usize>,
        list: OpenComponents<'a>,
    ) -> Result<(), OutOfMemory>
        ensures { OnOk result ((files : Files) → gathered_at_end files (lists_in self.new) (gathered_in self.new, reverse way.new.items)
            ≡ gathered_at_end files (lists_in self.old) (with_list files (list_of list.entry) (gathered_in self.old, reverse way.old.items))) }
    {
        way.push(0)?;
        Ok(self.open.push(list)?)
    }

    /// Whether components can be moved on: many are gathered, and no include is open.
    pub(crate) fn has_enough(&self) -> bool
        ensures { IsTrue result → IsLast (lists_in self.now) }
    {
        match self.open.as_slice() {
            [
                OpenComponents {
                    at_end: AtEnd::Nothing,
                    ..
                },
            ] => self.all.len() >= MANY,
            _ => false,
        }
    }

    /// Moves what is gathered to the parts of the grammar, if it is much and no include is open. So a grammar that includes
    /// many files has its components in one list alone.
    pub(crate) fn move_on(
        &mut self,
        alloc: Global,
        parts: &mut GrammarParts<'a>,
    ) -> Result<(), OutOfMemory>
        ensures { OnOk result ((files : Files) (x : TreePath) (all : List Gathered)
            → AreJoined parts.old (gathered_at_end files (lists_in self.old) (gathered_in self.old, x)).0 all
            → AreJoined parts.new (gathered_at_end files (lists_in self.new) (gathered_in self.new, x)).0 all) }
    {
        if !self.has_enough() {
            return Ok(());
        }
        parts.append(mem::replace(&mut self.all, Vec::new(alloc)))?;
        Ok(())
    }

    /// Does what is to be done at the end of a list of components. `way` leads to their parent.
    ///
    /// RELAX NG Specification, section 4.7.
    pub(crate) fn end_list(
        &mut self,
        alloc: Global,
        way: &mut Vec<usize>,
        at_end: AtEnd<'a>,
    ) -> Result<(), OutOfMemory>
        ensures { OnOk result ((files : Files) → gathered_at_end files (lists_in self.new) (gathered_in self.new, reverse way.new.items)
            ≡ gathered_at_end files (lists_in self.old) (after_end files (end_of at_end.entry) (gathered_in self.old, reverse way.old.items))) }
    {
        match at_end {
            AtEnd::Nothing => Ok(()),
            AtEnd::Braces {
                before,
                scope,
                overriding,
            } => {
                let included = mem::replace(&mut self.all, Vec::new(alloc));
                way.pop();
                way.push(1)?;
                let list = OpenComponents {
                    scope,
                    components: overriding,
                    number: 0,
                    at_end: AtEnd::Override { before, included },
                };
                self.open_list(way, list)
            }
            AtEnd::Override { before, included } => {
                let overriding = mem::replace(&mut self.all, before);
                way.pop();
                replace(alloc, &mut self.all, included, overriding)
            }
        }
    }
}
