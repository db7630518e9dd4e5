// The names that the components of a grammar have, including the components of the files that it includes.
ghost use Rattle.std.specs.Prelude.{◌≡◌, ◌↔◌, ℕ, List, Option, IfOk, IsFalse, IsTrue, OnOk, Some, map, option_map, slice_get};
ghost use Rattle.rnc_model.specs.grammar.Syntax.{components_of};
ghost use Rattle.rnc_grammar.specs.views.View.{component_of};
ghost use Rattle.rng_load.specs.plain.ComponentNames.{HasIt, gather, gather_component, gather_if, names_in, no_names};
ghost use Rattle.rng_load.specs.views.FilesView.{taken_files_of};
ghost use Rattle.rnc_model.specs.loading.Loading.{tree_in, with_name};
ghost use Rattle.rnc_model.specs.loading.FileGrammars.{grammar_in};
ghost use Rattle.rnc_model.specs.loading.Mentions.{HasName};

use indexmap::{IndexMap, IndexSet};
use rnc_grammar::{Component, FileTree};
use rng_model::OutOfMemory;
use std::alloc::Global;

/// The names that are gathered from the components of a grammar: the names of its defines, whether it has a start, and
/// the files that it includes.
#[derive(Drop)]
pub struct ComponentNames<'a> {
    defines: IndexSet<&'a str>,
    has_start: bool,
    included: IndexSet<&'a str>,
}

/// Returns the names of these components and of the files that they include, directly or through other files. Reads
/// each file once.
pub fn component_names<'a>(
    alloc: Global,
    trees: &'a IndexMap<String, FileTree>,
    components: &'a [Component],
) -> Result<ComponentNames<'a>, OutOfMemory>
    ensures { IfOk result (λ names. (y : Option (List ℕ)) → HasIt (names_in names) y ↔ HasName (tree_in (taken_files_of trees.now)) y (components_of (map component_of components.now))) }
{
    let mut names = ComponentNames::new(alloc);
    names.add_all(components)?;
    let mut looked = 0;
    'included: while looked < names.included.len() {
        names.add_file(trees, looked)?;
        looked += 1;
    }
    Ok(names)
}

/// The components of the file of this name, if it is a grammar.
pub fn grammar_of<'a>(trees: &'a IndexMap<String, FileTree>, name: &str) -> Option<&'a [Component]>
    ensures { option_map (λ cs. components_of (map component_of cs.now)) result ≡ grammar_in (taken_files_of trees.now) name.now }
{
    match trees.get(name) {
        Some(tree) => tree.grammar(),
        None => None,
    }
}

impl<'a> ComponentNames<'a> {
    /// Creates a value without names.
    fn new(alloc: Global) -> Self
        ensures { names_in result ≡ no_names }
    {
        ComponentNames {
            defines: IndexSet::new(alloc),
            has_start: false,
            included: IndexSet::new(alloc),
        }
    }

    /// Whether `self` has each name of `others`, and a start if `others` has one.
    pub fn have_all_of(&self, others: &ComponentNames<'a>) -> bool
        ensures all { IsTrue result → (y : Option (List ℕ)) → HasIt (names_in others.now) y → HasIt (names_in self.now) y }
        ensures lack { IsFalse result → (y : Option (List ℕ)) × HasIt (names_in others.now) y × ¬ (HasIt (names_in self.now) y) }
    {
        if others.has_start && !self.has_start {
            return false;
        }
        others.defines.is_subset(&self.defines)
    }

    /// Adds the names of the included file at this index, if it is a grammar.
    fn add_file(
        &mut self,
        trees: &'a IndexMap<String, FileTree>,
        at: usize,
    ) -> Result<(), OutOfMemory>
        ensures { (f : List ℕ) → slice_get (names_in self.old).included at ≡ Some f → OnOk result (names_in self.new ≡ gather_if (names_in self.old) (grammar_in (taken_files_of trees.now) f)) }
    {
        let Some(name) = self.included.get_index(at).copied() else {
            return Ok(());
        };
        match grammar_of(trees, name) {
            Some(components) => self.add_all(components),
            None => Ok(()),
        }
    }

    /// Adds the name of a component, or the names in its braces. For an include, also adds the file.
    #[cycle(component_names)]
    fn add(&mut self, component: &'a Component) -> Result<(), OutOfMemory>
        ensures { OnOk result (names_in self.new ≡ gather_component (names_in self.old) (component_of component.now)) }
    {
        match component {
            Component::Start(_, _) => {
                self.has_start = true;
                Ok(())
            }
            Component::Define(name, _, _) => note(&mut self.defines, name.as_str()),
            Component::Div(components) => self.add_all(components),
            Component::Include(mention, overriding) => {
                note(&mut self.included, mention.href.as_str())?;
                self.add_all(overriding)
            }
        }
    }

    /// Adds the names of all components.
    #[cycle(component_names)]
    fn add_all(&mut self, components: &'a [Component]) -> Result<(), OutOfMemory>
        ensures { OnOk result (names_in self.new ≡ gather (names_in self.old) (components_of (map component_of components.now))) }
    {
        for component in components {
            self.add(component)?;
        }
        Ok(())
    }
}

/// Appends a name, unless the set has it.
pub fn note<'a>(names: &mut IndexSet<&'a str>, name: &'a str) -> Result<(), OutOfMemory>
    ensures { OnOk result (map (λ n. n.now) names.new.keys ≡ with_name (map (λ n. n.now) names.old.keys) name.now) }
{
    names.insert(name)?;
    Ok(())
}
