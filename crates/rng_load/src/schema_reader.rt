// From the files of a schema to its grammars at their places.
ghost use Rattle.std.specs.Prelude.{◌≡◌, ◌++◌, [], List, map, option_map, reverse, IfOk, OnOk, None};
ghost use Rattle.rng_model.specs.views.SchemaView.{place_of};
ghost use Rattle.rng_model.specs.names.NameViews.{namespace_bytes};
ghost use Rattle.rnc_model.specs.grammar.Syntax.{components_of};
ghost use Rattle.rnc_grammar.specs.views.View.{component_of, file_of, pattern_of};
ghost use Rattle.rng_load.specs.views.FilesView.{taken_files_of};
ghost use Rattle.rng_load.specs.plain.FoundGrammars.{AreFound, CanBeRead, IsPut, gathered_at, grammar_with, left_by};
ghost use Rattle.rng_load.specs.views.GrammarParts.{AreParts};
ghost use Rattle.rnc_model.specs.loading.Loading.{tree_in};
ghost use Rattle.rng_load.specs.views.PendingGrammars.{pending_of};
ghost use Rattle.rng_load.specs.views.PlacedGrammars.{grammars_of, schema_of};
ghost use Rattle.rnc_model.specs.loading.Places.{Gathered, grammar_or_start, main_grammar};
ghost use Rattle.rnc_model.specs.loading.LoadedSchema.{IsSchemaOf};
ghost use Rattle.rng_load.specs.views.ReadPatterns.{files_in, nested_of};

use crate::gathering::GrammarParts;
use crate::pattern_rows::FileScope;
use crate::put::put;
use crate::reading_patterns::{NestedGrammar, TreeReader};
use crate::schema::{Grammar, Schema};
use indexmap::IndexMap;
use rnc_grammar::{FileTree, Method, Pattern};
use rng_model::{Namespace, OutOfMemory, Place};
use std::alloc::Global;

/// The largest number of mentions that follow one another.
const MENTION_LIMIT: u32 = 4096;

/// Reads a schema, given the trees of its files and that of the main file.
#[derive(Clone, Copy)]
struct SchemaReader<'a> {
    trees: TreeReader<'a>,
    main: &'a FileTree,
}

/// A grammar that is left to be put at its place, and the place of the grammar around it.
#[derive(Drop)]
struct PendingGrammar<'a> {
    outer: Place,
    nested: NestedGrammar<'a>,
}

/// The grammars that are at their places, and those that are left, the next one last.
#[derive(Drop)]
struct FoundGrammars<'a> {
    grammars: IndexMap<Place, Grammar>,
    left: Vec<PendingGrammar<'a>>,
}

/// Reads the schema of these files, whose main file has the tree `main`.
///
/// Takes time and memory linear in the contents of all places, each with the way to it.
///
/// RELAX NG Specification, sections 4.6, 4.7, 4.9, 4.11 and 4.18.
pub(crate) fn schema_of_files(
    alloc: Global,
    trees: &IndexMap<String, FileTree>,
    main: &FileTree,
) -> Result<Schema, OutOfMemory>
    requires readable { CanBeRead (tree_in (taken_files_of trees.now)) (file_of main.now) }
    ensures { IfOk result (λ s. IsSchemaOf (tree_in (taken_files_of trees.now)) (file_of main.now) (schema_of s)) }
{
    let reader = SchemaReader {
        trees: TreeReader { alloc, trees },
        main,
    };
    let none = Namespace::none();
    let components = reader.main_components(&none)?;
    Ok(Schema {
        main: Place::main(),
        grammars: reader.grammars(components)?,
    })
}

impl<'a> SchemaReader<'a> {
    /// The components of the main grammar. Its file inherits no namespace.
    fn main_components(self, none: &'a Namespace) -> Result<GrammarParts<'a>, OutOfMemory>
        requires { namespace_bytes none.now ≡ [] }
        ensures { IfOk result (λ parts. AreParts parts (gathered_at (files_in self.entry.trees) [] [] (main_grammar (file_of self.entry.main.now)))) }
    {
        let way = Vec::new(self.trees.alloc);
        match self.main {
            FileTree::Grammar(components) => self.components(none, way, components),
            FileTree::Pattern(pattern) => match self.main.grammar() {
                Some(components) => self.components(none, way, components),
                None => self.start(none, pattern),
            },
        }
    }

    /// The components of a grammar to which this way leads, in a file that inherits this namespace.
    fn components(
        self,
        uri: &'a Namespace,
        mut way: Vec<usize>,
        components: &'a [rnc_grammar::Component],
    ) -> Result<GrammarParts<'a>, OutOfMemory>
        ensures { IfOk result (λ parts. AreParts parts (gathered_at (files_in self.entry.trees) (namespace_bytes uri.now) (reverse way.items) (components_of (map component_of components.now)))) }
    {
        self.trees
            .gather_all(MENTION_LIMIT, uri, &mut way, components)
    }

    /// The only component of a main file that is no grammar: a plain start.
    fn start(
        self,
        none: &'a Namespace,
        pattern: &'a Pattern,
    ) -> Result<GrammarParts<'a>, OutOfMemory>
        requires { namespace_bytes none.now ≡ [] }
        ensures { IfOk result (λ parts. AreParts parts (gathered_at (files_in self.entry.trees) [] [] (grammar_or_start (pattern_of pattern.now) None))) }
    {
        let mut way = Vec::from_slice(self.trees.alloc, &[0])?;
        let scope = FileScope {
            levels: MENTION_LIMIT,
            uri: none,
        };
        let start = self
            .trees
            .gathered(scope, &mut way, None, Method::Plain, pattern)?;
        let mut all = Vec::new(self.trees.alloc);
        all.push(start)?;
        let mut parts = GrammarParts::new(self.trees.alloc);
        parts.append(all)?;
        Ok(parts)
    }

    /// The grammars at their places, given the components of the main one. Fails only when out of memory.
    fn grammars(self, main: GrammarParts<'a>) -> Result<IndexMap<Place, Grammar>, OutOfMemory>
        requires readable { CanBeRead (files_in self.trees) (file_of self.main.now) }
        requires there { AreParts main (gathered_at (files_in self.trees) [] [] (main_grammar (file_of self.main.now))) }
        ensures { IfOk result (λ all. AreFound (files_in self.entry.trees) (file_of self.entry.main.now) (grammars_of all) []) }
    {
        let alloc = self.trees.alloc;
        let mut found = FoundGrammars {
            grammars: IndexMap::new(alloc),
            left: Vec::new(alloc),
        };
        found.add(Place::main(), None, main)?;
        // The count only bounds the loop for the proof. Past it the call fails as it does when memory runs out.
        'places: for _ in 0..usize::MAX {
            let Some(PendingGrammar { outer, nested }) = found.left.pop() else {
                return Ok(found.grammars);
            };
            let way = nested.place.to_numbers(alloc)?;
            let parts = self.components(nested.uri, way, nested.components)?;
            found.add(nested.place, Some(outer), parts)?;
        }
        Err(OutOfMemory)
    }
}

impl<'a> FoundGrammars<'a> {
    /// Puts a grammar of these components at a place, with the place of the grammar around it. The grammars that are nested in it are
    /// then left, the first one last. Fails only when out of memory.
    ///
    /// RELAX NG Specification, section 4.18.
    fn add(
        &mut self,
        place: Place,
        outer: Option<Place>,
        parts: GrammarParts<'a>,
    ) -> Result<(), OutOfMemory>
        ensures put { (all : List Gathered) → AreParts parts.entry all
            → OnOk result (IsPut (grammars_of self.old.grammars) (grammars_of self.new.grammars) (place_of place) (grammar_with (option_map place_of outer) all)) }
        ensures left { OnOk result (map pending_of self.new.left.items ≡ map pending_of self.old.left.items ++ left_by (place_of place) (map nested_of parts.entry.nested.items)) }
    {
        let GrammarParts {
            mut components,
            mut nested,
        } = parts;
        components.shrink_to_fit();
        'inner: while let Some(grammar) = nested.pop() {
            self.left.push(PendingGrammar {
                outer: place.share()?,
                nested: grammar,
            })?;
        }
        put(&mut self.grammars, place, Grammar { components, outer })
    }
}
