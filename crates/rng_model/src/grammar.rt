// A simple grammar in tables.
ghost use Rattle.std.specs.Prelude.{◌≡◌, ◌<◌, slice_get, option_copied, IfSome};
ghost use Rattle.rng_model.specs.simple.Table.{tree_at, tree_over};
ghost use Rattle.rng_model.specs.simple.TableRules.{IsTable, AreChildrenBelow};
ghost use Rattle.rng_model.specs.declared.type_set.TypeSet.TheVariants.{Profile};

use crate::name::NameClass;
use crate::simple::{ElementId, PatternId, Simple};
use crate::type_set::TypeSet;
use std::marker::Model;

/// A grammar in simple form: a table of patterns, a table of elements (a name class and a body each), and the start.
///
/// RELAX NG Specification, section 5. The start and each body are positions in the table of patterns. A child's
/// position is smaller than its parent's. Every ref is a position in the table of elements. Every choice in a name
/// class has two members. Every datatype is one of the set and has parameters that it takes (section 4.16). Contracts see
/// the tables; `Rattle.rng_model.specs.simple.Table.grammar_of` returns the trees that they represent.
#[derive(Drop)]
pub struct SimpleGrammar {
    patterns: Vec<Simple>,
    elements: Vec<(NameClass, PatternId)>,
    start: PatternId,
    types: TypeSet,
}

impl Model for SimpleGrammar {
    ghost use Rattle.rng_model.specs.simple.Table.{Table};
    ghost use Rattle.rng_model.specs.simple.TableRules.{IsTable};

    ghost Value = { Table };

    ghost use Rattle.rng_model.specs.contracts.name.NameClass as classes;
    ghost use Rattle.std.specs.Coded.{codes};

    ghost coded = { Prim.hlevel (codes, classes.the_row.coded) };

    ghost view = { λ g. record { patterns = g.patterns.items; elements = g.elements.items; start = g.start; types = g.types } };

    ghost invariant = { λ g. IsTable (record { patterns = g.patterns.items; elements = g.elements.items; start = g.start; types = g.types }) };
}

impl SimpleGrammar {
    /// Creates the grammar with these tables, which meet what the type says of positions, refs, name classes and datatypes
    /// (RELAX NG Specification, section 5). Its datatypes are of the set `Profile`. Allocates nothing.
    pub fn new(
        patterns: Vec<Simple>,
        elements: Vec<(NameClass, PatternId)>,
        start: PatternId,
    ) -> Self
        requires { IsTable (record { patterns = patterns.items; elements = elements.items; start = start; types = Profile }) }
        ensures { result ≡ record { patterns = patterns.items; elements = elements.items; start = start; types = Profile } }
    {
        SimpleGrammar::with_types(TypeSet::Profile, patterns, elements, start)
    }

    /// Creates the grammar with these tables, as `new` does. Its datatypes are of this set. Allocates nothing.
    pub fn with_types(
        types: TypeSet,
        patterns: Vec<Simple>,
        elements: Vec<(NameClass, PatternId)>,
        start: PatternId,
    ) -> Self
        requires { IsTable (record { patterns = patterns.items; elements = elements.items; start = start; types = types }) }
        ensures { result ≡ record { patterns = patterns.items; elements = elements.items; start = start; types = types } }
    {
        SimpleGrammar {
            patterns,
            elements,
            start,
            types,
        }
    }

    /// Returns the set of datatypes that the patterns name. Allocates nothing.
    pub fn types(&self) -> TypeSet
        ensures { result ≡ self.now.types }
    {
        self.types
    }

    /// Returns the pattern where matching starts. Allocates nothing.
    pub fn start(&self) -> PatternId
        ensures start { result ≡ self.now.start }
        ensures valid { IsTable self.now }
    {
        self.start
    }

    /// Returns the pattern at a position, or `None` past the end of the table. Allocates nothing.
    pub fn pattern(&self, id: PatternId) -> Option<&Simple>
        ensures value { option_copied result ≡ slice_get self.now.patterns id.0 }
        ensures below { IfSome result (λ p. AreChildrenBelow id.0 p.now) }
        ensures tree { IfSome result (λ p. tree_at self.now.patterns id ≡ tree_over (tree_at self.now.patterns) p.now) }
    {
        found_at(self.patterns.as_slice(), id.0)
    }

    /// Returns the name class and the body of the element at a position, or `None` past the end of the table. Allocates
    /// nothing.
    pub fn element(&self, id: ElementId) -> Option<&(NameClass, PatternId)>
        ensures { option_copied result ≡ slice_get self.now.elements id.0 }
    {
        found_at(self.elements.as_slice(), id.0)
    }
}

fn found_at<T>(items: &[T], place: usize) -> Option<&T>
    ensures { option_copied result ≡ slice_get items.now place }
{
    items.get(place)
}
