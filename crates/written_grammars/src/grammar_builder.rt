// Grammars, built from what fits.
ghost use Rattle.std.specs.Bool.{OnTrue};
ghost use Rattle.rng_model.specs.datatypes.Datatypes.{IsKnownDatatype};
ghost use Rattle.rng_model.specs.simple.TableRules.{AreChildrenBelow, IsClassPaired, IsDatatypeKnown, IsLeafListed, IsPaired};
ghost use Rattle.rng_types.specs.views.View.{datatype_at};
ghost use Rattle.rng_model.specs.declared.type_set.TypeSet.TheVariants.{Profile};

use rng_model::{NameClass, PatternId, Simple, SimpleGrammar};
use rng_types::Builtin;
use std::alloc::Global;
use std::marker::Model;

/// A grammar that is being built, with refs to this many elements. It records whether something was rejected.
#[derive(Drop)]
pub struct GrammarBuilder {
    patterns: Vec<Simple>,
    elements: Vec<(NameClass, PatternId)>,
    count: usize,
    is_whole: bool,
}

impl Model for GrammarBuilder {
    ghost use Rattle.std.specs.Prelude.{◌<◌, ℕ, List, length, All};
    ghost use Rattle.rng_model.specs.simple.TableRules.{Falls, IsClassPaired, IsDatatypeKnown, IsLeafListed, IsPaired};
    ghost use Rattle.rng_model.specs.declared.simple.Simple.{Simple};
    ghost use Rattle.rng_model.specs.declared.type_set.TypeSet.TheVariants.{Profile};
    ghost use Rattle.rng_model.specs.declared.simple.PatternId.{PatternId};
    ghost use Rattle.rng_model.specs.declared.name.NameClass.{NameClass};
    ghost use Rattle.rng_model.specs.contracts.name.NameClass as classes;
    ghost use Rattle.std.specs.Coded.{codes};

    ghost Value = { List Simple × List (NameClass × PatternId) × ℕ };

    ghost coded = { Prim.hlevel (codes, classes.the_row.coded) };

    ghost view = { λ d. (d.patterns.items, d.elements.items, d.count) };

    ghost invariant = { λ d. Falls d.patterns.items × All (IsLeafListed d.count) d.patterns.items × All (λ e. e.1.0 < length d.patterns.items) d.elements.items × All IsClassPaired d.patterns.items × All (λ e. IsPaired e.0) d.elements.items
        × All (IsDatatypeKnown Profile) d.patterns.items };
}

impl GrammarBuilder {
    /// Creates a builder without patterns, for a grammar with this many elements.
    pub fn new(alloc: Global, count: usize) -> Self {
        GrammarBuilder {
            patterns: Vec::new(alloc),
            elements: Vec::new(alloc),
            count,
            is_whole: true,
        }
    }

    /// Adds a pattern whose children are there, or rejects it.
    pub fn add(&mut self, pattern: Simple) {
        if !fits(&pattern, self.patterns.len(), self.count) {
            self.is_whole = false;
            return;
        }
        if self.patterns.push(pattern).is_err() {
            self.is_whole = false;
        }
    }

    /// Records that something was rejected.
    pub fn refuse(&mut self) {
        self.is_whole = false;
    }

    /// Returns the last pattern.
    pub fn last(&self) -> PatternId {
        PatternId(self.patterns.len().saturating_sub(1))
    }

    /// Adds the next element. The choices of its name class must have two members each.
    pub fn list(&mut self, class: NameClass, body: PatternId) {
        if body.0 >= self.patterns.len() || !is_paired(&class) {
            self.is_whole = false;
            return;
        }
        if self.elements.push((class, body)).is_err() {
            self.is_whole = false;
        }
    }

    /// Returns the grammar, if nothing was rejected and all its elements are listed.
    pub fn finish(self, start: PatternId) -> Option<SimpleGrammar> {
        if !self.is_whole || self.elements.len() != self.count || start.0 >= self.patterns.len() {
            return None;
        }
        Some(SimpleGrammar::new(self.patterns, self.elements, start))
    }
}

/// Returns true only if each choice in a class has two members.
fn is_paired(class: &NameClass) -> bool
    ensures { OnTrue result (IsPaired class.now) }
{
    match class {
        NameClass::Any | NameClass::Ns(_) | NameClass::Name(_) => true,
        NameClass::AnyExcept(except) | NameClass::NsExcept(_, except) => is_paired(except),
        NameClass::Choice(members) => match members.as_slice() {
            [first, second] => is_paired(first) && is_paired(second),
            _ => false,
        },
    }
}

/// Returns true only if a datatype is known, with parameters that it takes.
fn is_known(library: &str, name: &str, parameters: &[(String, String)]) -> bool
    ensures { OnTrue result (IsKnownDatatype (datatype_at library.now name.now parameters.now)) }
{
    Builtin::find(library, name, parameters).is_ok()
}

/// Returns true only if the children of a pattern are below `next`, its ref is below `count`, its name class is paired,
/// and its datatype is known.
fn fits(pattern: &Simple, next: usize, count: usize) -> bool
    ensures tables { OnTrue result (AreChildrenBelow next pattern.now × IsLeafListed count pattern.now × IsClassPaired pattern.now) }
    ensures known { OnTrue result (IsDatatypeKnown Profile pattern.now) }
{
    match pattern {
        Simple::NotAllowed | Simple::Empty | Simple::Text => true,
        Simple::Data(datatype) => is_known(
            datatype.library.as_str(),
            datatype.name.as_str(),
            &datatype.parameters,
        ),
        Simple::Value(value) => is_known(value.library.as_str(), value.name.as_str(), &[]),
        Simple::Element(element) => element.0 < count,
        Simple::Attribute(class, body) => body.0 < next && is_paired(class),
        Simple::DataExcept(datatype, body) => {
            body.0 < next
                && is_known(
                    datatype.library.as_str(),
                    datatype.name.as_str(),
                    &datatype.parameters,
                )
        }
        Simple::List(body) | Simple::OneOrMore(body) => body.0 < next,
        Simple::Group(first, second)
        | Simple::Interleave(first, second)
        | Simple::Choice(first, second) => first.0 < next && second.0 < next,
    }
}
