// From the components of files to those of the grammars of a schema.
ghost use Rattle.std.specs.Prelude.{◌≡◌, [], ◌∷◌, ◌++◌, false, IfOk, OnOk, map, option_map, reverse, string_bytes};
ghost use Rattle.rng_model.specs.names.NameViews.{namespace_bytes};
ghost use Rattle.rng_model.specs.views.SchemaView.{schema_component_of};
ghost use Rattle.rnc_model.specs.grammar.Syntax.{components_of};
ghost use Rattle.rnc_grammar.specs.views.View.{component_of, mention_of, pattern_of};
ghost use Rattle.rng_load.specs.views.GatheredComponents.{gathered_in, gathered_of, list_of, lists_in};
ghost use Rattle.rnc_model.specs.loading.FileGrammars.{grammar_if};
ghost use Rattle.rnc_model.specs.loading.Places.{TreePath, uri_in};
ghost use Rattle.rng_load.specs.plain.OpenComponents.{components_at, gathered_at_end};
ghost use Rattle.rng_load.specs.plain.PlainReading.{gather_at, gather_below, gather_one_at, gathered_as, included_with, read_at, replaced_by};
ghost use Rattle.rng_load.specs.plain.FoundGrammars.{nested_in};
ghost use Rattle.rng_load.specs.views.GrammarParts.{AreParts};
ghost use Rattle.rng_load.specs.views.ReadPatterns.{files_in, nested_of};

use crate::component_names::grammar_of;
use crate::open_components::{AtEnd, GatheredComponents, OpenComponents};
use crate::pattern_rows::FileScope;
use crate::reading_names::namespace_uri;
use crate::reading_patterns::{NestedGrammar, TreeReader};
use rnc_grammar::{Mention, Method, Pattern};
use rng_model::{Component, Namespace, OutOfMemory};
use rng_overrides::GatheredComponent;
use std::alloc::Global;
use std::mem;

/// The components of a grammar, and the grammars that are nested in them, both in order.
#[derive(Drop)]
pub(crate) struct GrammarParts<'a> {
    pub components: Vec<Component>,
    pub nested: Vec<NestedGrammar<'a>>,
}

impl<'a> GrammarParts<'a> {
    /// No parts yet.
    pub(crate) fn new(alloc: Global) -> Self
        ensures components { result.components.items ≡ [] }
        ensures nested { result.nested.items ≡ [] }
    {
        GrammarParts {
            components: Vec::new(alloc),
            nested: Vec::new(alloc),
        }
    }

    /// Appends gathered components, and the grammars that are nested in them.
    pub(crate) fn append(
        &mut self,
        all: Vec<GatheredComponent<NestedGrammar<'a>>>,
    ) -> Result<(), OutOfMemory>
        ensures components { OnOk result (map schema_component_of self.new.components.items
            ≡ map schema_component_of self.old.components.items ++ map (λ g. g.component) (map gathered_of all.entry.items)) }
        ensures nested { OnOk result (map nested_of self.new.nested.items ≡ map nested_of self.old.nested.items ++ nested_in (map gathered_of all.entry.items)) }
    {
        for gathered in all {
            let mut grammars = gathered.grammars;
            self.components.push(gathered.component)?;
            self.nested.append(&mut grammars)?;
        }
        Ok(())
    }
}

impl<'a> TreeReader<'a> {
    /// Returns the components that `components` add to their grammar, in order, and the grammars that are nested in
    /// them. Follows includes for at most `levels` levels. `uri` is the namespace that their file inherits. `way` leads
    /// to their parent, with the outermost number first.
    ///
    /// An include adds the components of its file, except for those that its braces override, and then the components
    /// in its braces. If the file is no grammar, or no level is left, an include adds only the components in its
    /// braces.
    ///
    /// RELAX NG Specification, sections 4.7, 4.9 and 4.11.
    pub(crate) fn gather_all(
        self,
        levels: u32,
        uri: &'a Namespace,
        way: &mut Vec<usize>,
        components: &'a [rnc_grammar::Component],
    ) -> Result<GrammarParts<'a>, OutOfMemory>
        ensures { IfOk result (λ parts. AreParts parts
            (gather_at (files_in self.entry) levels (namespace_bytes uri.now) (reverse way.old.items) 0 (components_of (map component_of components.now)))) }
    {
        let mut made = GatheredComponents {
            all: Vec::new(self.alloc),
            open: Vec::new(self.alloc),
        };
        let list = OpenComponents {
            scope: FileScope { levels, uri },
            components,
            number: 0,
            at_end: AtEnd::Nothing,
        };
        made.open_list(way, list)?;
        let mut parts = GrammarParts::new(self.alloc);
        // The count only bounds the loop for the proof.
        'steps: for _ in 0..usize::MAX {
            if !self.gather_next(way, &mut made)? {
                parts.append(made.all)?;
                return Ok(parts);
            }
            made.move_on(self.alloc, &mut parts)?;
        }
        Err(OutOfMemory)
    }

    /// Gathers the next component of the innermost open list, or ends that list if it has none. Returns whether a list
    /// was open.
    fn gather_next(
        self,
        way: &mut Vec<usize>,
        made: &mut GatheredComponents<'a>,
    ) -> Result<bool, OutOfMemory>
        ensures same { OnOk result (gathered_at_end (files_in self.entry) (lists_in made.new) (gathered_in made.new, reverse way.new.items)
            ≡ gathered_at_end (files_in self.entry) (lists_in made.old) (gathered_in made.old, reverse way.old.items)) }
        ensures none { IfOk result (λ some. some ≡ false → lists_in made.new ≡ []) }
    {
        let Some(mut list) = made.open.pop() else {
            return Ok(false);
        };
        way.pop();
        if list.number >= list.components.len() {
            made.end_list(self.alloc, way, list.at_end)?;
            return Ok(true);
        }
        let scope = list.scope;
        let component = &list.components[list.number];
        way.push(list.number)?;
        list.number += 1;
        made.open.push(list)?;
        self.gather(scope, way, component, made)?;
        Ok(true)
    }

    /// Appends what a component adds, or opens the list of components in it. `way` leads to the component.
    ///
    /// RELAX NG Specification, sections 4.7 and 4.11.
    #[tactic(auto, unfolding(crate::specs::plain::PlainReading::gather_with))]
    fn gather(
        self,
        scope: FileScope<'a>,
        way: &mut Vec<usize>,
        component: &'a rnc_grammar::Component,
        made: &mut GatheredComponents<'a>,
    ) -> Result<(), OutOfMemory>
        ensures { OnOk result (gathered_at_end (files_in self.entry) (lists_in made.new) (gathered_in made.new, reverse way.new.items)
            ≡ gathered_at_end (files_in self.entry) (lists_in made.old) (
              gathered_in made.old ++ gather_one_at (files_in self.entry) scope.entry.levels
                  (namespace_bytes scope.entry.uri.now) (reverse way.old.items) (component_of component.now),
              reverse way.old.items,
            )) }
    {
        match component {
            rnc_grammar::Component::Start(method, body) => {
                let start = self.gathered(scope, way, None, *method, body)?;
                Ok(made.all.push(start)?)
            }
            rnc_grammar::Component::Define(name, method, body) => {
                let name = String::from_str(self.alloc, name.as_str())?;
                let define = self.gathered(scope, way, Some(name), *method, body)?;
                Ok(made.all.push(define)?)
            }
            rnc_grammar::Component::Div(components) => {
                let list = OpenComponents {
                    scope,
                    components,
                    number: 0,
                    at_end: AtEnd::Nothing,
                };
                made.open_list(way, list)
            }
            rnc_grammar::Component::Include(mention, overriding) => {
                let before = mem::replace(&mut made.all, Vec::new(self.alloc));
                let at_end = AtEnd::Braces {
                    before,
                    scope,
                    overriding,
                };
                way.push(0)?;
                made.open_list(way, self.included(scope, mention, at_end))
            }
        }
    }

    /// The components of the included file, with what is to be done at their end. There are none if the file is no
    /// grammar, or no level is left.
    ///
    /// RELAX NG Specification, sections 4.7 and 4.9.
    fn included(
        self,
        scope: FileScope<'a>,
        mention: &'a Mention,
        at_end: AtEnd<'a>,
    ) -> OpenComponents<'a>
        ensures gathered { (x : TreePath) → components_at (files_in self.entry) (0 ∷ x) (list_of result)
            ≡ included_with (gather_below (files_in self.entry) scope.entry.levels) (uri_in (namespace_bytes scope.entry.uri.now) (mention_of mention.now).inherit)
            x (grammar_if (files_in self.entry (mention_of mention.now).href)) }
        ensures end { result.at_end ≡ at_end.entry }
    {
        let uri = namespace_uri(&mention.namespace, scope.uri);
        match grammar_of(self.trees, mention.href.as_str()) {
            Some(components) if scope.levels > 0 => OpenComponents {
                scope: FileScope {
                    levels: scope.levels - 1,
                    uri,
                },
                components,
                number: 0,
                at_end,
            },
            _ => OpenComponents {
                scope: FileScope { levels: 0, uri },
                components: &[],
                number: 0,
                at_end,
            },
        }
    }

    /// The component of this name, with the grammars that are nested in its pattern.
    pub(crate) fn gathered(
        self,
        scope: FileScope<'a>,
        way: &mut Vec<usize>,
        name: Option<String>,
        method: Method,
        pattern: &'a Pattern,
    ) -> Result<GatheredComponent<NestedGrammar<'a>>, OutOfMemory>
        ensures gathered { IfOk result (λ g. gathered_of g
            ≡ gathered_as (option_map (λ y. string_bytes y) name) method
            (read_at (files_in self.entry) scope.entry.levels (namespace_bytes scope.entry.uri.now) (reverse way.old.items) (pattern_of pattern.now))) }
        ensures way { OnOk result (way.new.items ≡ way.old.items) }
    {
        let (pattern, grammars) = self.pattern(scope, way, pattern)?;
        let component = Component {
            name,
            method,
            pattern,
        };
        Ok(GatheredComponent {
            component,
            grammars,
        })
    }
}

/// Appends the included components that are not overridden, and then the overriding ones.
///
/// RELAX NG Specification, section 4.7.
pub(crate) fn replace<'a>(
    alloc: Global,
    all: &mut Vec<GatheredComponent<NestedGrammar<'a>>>,
    included: Vec<GatheredComponent<NestedGrammar<'a>>>,
    overriding: Vec<GatheredComponent<NestedGrammar<'a>>>,
) -> Result<(), OutOfMemory>
    ensures { OnOk result (map gathered_of all.new.items ≡ map gathered_of all.old.items
        ++ replaced_by (map gathered_of included.entry.items) (map gathered_of overriding.entry.items)) }
{
    rng_overrides::replace(alloc, all, included, overriding)
}
