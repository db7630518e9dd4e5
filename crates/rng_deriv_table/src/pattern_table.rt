// A table of patterns, each once.
ghost use Rattle.std.specs.Prelude.{◌≡◌, ◌↔◌, ◌++◌, ◌∷◌, [], ℕ, IsTrue, ◌<◌, ◌≤◌, All, IfOk, Some, length, map, slice_get};
ghost use Rattle.rng_model.specs.simple.Table.{Table};
ghost use Rattle.rng_model.specs.simple.Tree.{s_not_allowed, s_empty};
ghost use Rattle.rng_model.specs.matching.GrammarMatching.{Reading};
ghost use Rattle.rng_deriv_laws.specs.plain.Taking.{Takes};
ghost use Rattle.rng_deriv_table.specs.plain.Copies.{AreCopies, IsKeptLast, IsUnit};
ghost use Rattle.rng_deriv_table.specs.views.Node.{node_of};
ghost use Rattle.rng_deriv_table.specs.plain.Facts.{HasElement, IsWithin, LosesFirst};
ghost use Rattle.rng_deriv_table.specs.views.PatternTable.{Adds, ArePartsBelow, IsNew, IsPatternTable, Longer, both_facts, facts_of, nodes_of};
ghost use Rattle.rng_deriv_table.specs.plain.Reduced.{AreReduced};
ghost use Rattle.rng_deriv_table.specs.views.Trees.{choice_over, tree_of, tree_over};

use crate::pattern::{Facts, Pattern, PatternNumber, Span};
use indexmap::IndexMap;
use rng_model::OutOfMemory;
use std::alloc::Global;
use std::marker::Model;

/// Patterns by number, from 0, each once. The parts of a pattern have smaller numbers.
#[derive(Drop)]
pub struct PatternTable {
    rows: IndexMap<Pattern, Facts>,
    /// The units of the first patterns, by number. `NO_UNIT` means that a pattern has none other than itself.
    units: Vec<u32>,
    not_allowed: Option<PatternNumber>,
    empty: Option<PatternNumber>,
    /// The number of patterns of the grammar, which are the first ones.
    of_grammar: usize,
}

impl Model for PatternTable {
    ghost use Rattle.std.specs.Prelude.{List};
    ghost use Rattle.rng_deriv_table.specs.views.Node.{Node};

    ghost Value = { List Node };

    ghost use Rattle.rng_model.specs.simple.Tree.{s_not_allowed, s_empty};
    ghost use Rattle.rng_deriv_table.specs.plain.Copies.{AreUnits};
    ghost use Rattle.rng_deriv_table.specs.views.PatternTable.{nodes_of, AreExact, IsKnown, IsPatternTable};

    ghost view = { λ t. nodes_of t.rows.entries };

    ghost invariant = { λ t. IsPatternTable (nodes_of t.rows.entries) × AreExact t.rows.entries
        × IsKnown (nodes_of t.rows.entries) t.not_allowed s_not_allowed × IsKnown (nodes_of t.rows.entries) t.empty s_empty
        × AreUnits (nodes_of t.rows.entries) t.units.items };
}

impl PatternTable {
    /// Creates an empty table. Allocates nothing.
    pub fn new(alloc: Global) -> Self
        ensures { length result ≡ 0 }
    {
        PatternTable {
            rows: IndexMap::new(alloc),
            units: Vec::new(alloc),
            not_allowed: None,
            empty: None,
            of_grammar: 0,
        }
    }

    /// Notes that all patterns so far are those of the grammar. Allocates nothing.
    pub(crate) fn end_grammar(&mut self)
        ensures { self.new ≡ self.old }
    {
        self.of_grammar = self.rows.len();
    }

    /// Returns whether a pattern is one of the grammar, and not what is left of one. Allocates nothing.
    pub(crate) fn is_of_grammar(&self, number: PatternNumber) -> bool {
        number.0 < self.of_grammar
    }

    /// Returns the number of patterns. Allocates nothing.
    pub fn len(&self) -> usize
        ensures { result ≡ length self.now }
    {
        self.rows.len()
    }

    /// Returns the pattern with this number. Allocates nothing.
    pub fn pattern(&self, number: PatternNumber) -> &Pattern
        requires { number.0 < length self.now }
        ensures found { slice_get self.now number.0 ≡ Some (node_of result.now) }
        ensures table { IsPatternTable self.now }
    {
        row_at(&self.rows, number.0).0
    }

    /// Returns what is known of the pattern with this number. Allocates nothing.
    #[inline(always)]
    pub fn facts(&self, number: PatternNumber) -> Facts
        requires { number.0 < length self.now }
        ensures exact { (t : Table) → result ≡ facts_of (tree_of t self.now number.0) }
        ensures elements { (t : Table) (e : ℕ) → HasElement e (tree_of t self.now number.0) → IsWithin result.elements e }
        ensures nullable { (t : Table) (g : Reading) → IsTrue result.nullable ↔ Takes g (tree_of t self.now number.0) [] [] }
        ensures subsequences { (t : Table) (g : Reading) → IsTrue result.nullable → IsTrue result.subsequences
            → LosesFirst g (tree_of t self.now number.0) }
    {
        *row_at(&self.rows, number.0).1
    }

    /// Returns the pattern that matches nothing. Fails only when out of memory. The cost is one look-up in the first
    /// call and none in later ones.
    pub fn not_allowed(&mut self) -> Result<PatternNumber, OutOfMemory>
        ensures longer { Longer self.old self.new }
        ensures tree { IfOk result (λ n. Adds self.old self.new n.0 (λ t. s_not_allowed)) }
    {
        if let Some(number) = self.not_allowed {
            return Ok(number);
        }
        let number = self.number_of(Pattern::NotAllowed)?;
        self.not_allowed = Some(number);
        Ok(number)
    }

    /// Returns the pattern that matches no attributes with no items. Fails only when out of memory. The cost is one
    /// look-up in the first call and none in later ones.
    pub fn empty(&mut self) -> Result<PatternNumber, OutOfMemory>
        ensures longer { Longer self.old self.new }
        ensures tree { IfOk result (λ n. Adds self.old self.new n.0 (λ t. s_empty)) }
    {
        if let Some(number) = self.empty {
            return Ok(number);
        }
        let number = self.number_of(Pattern::Empty)?;
        self.empty = Some(number);
        Ok(number)
    }

    /// Returns what is known of a pattern whose parts are in the table.
    fn facts_of(&self, pattern: &Pattern) -> Facts
        requires { ArePartsBelow (length self.now) (node_of pattern.now) }
        ensures { (t : Table) → result ≡ facts_of (tree_over t (tree_of t self.now) (node_of pattern.now)) }
    {
        match pattern {
            Pattern::Empty | Pattern::Text => Facts {
                nullable: true,
                ..NOTHING_KNOWN
            },
            Pattern::Choice(members) => self.facts_of_choice(members.as_slice()),
            Pattern::Group(first, second) => {
                let first = self.facts(*first);
                let second = self.facts(*second);
                both(first, second, 1, first.depth.saturating_add(second.depth))
            }
            Pattern::Interleave(first, second) => {
                let first = self.facts(*first);
                let second = self.facts(*second);
                let members = first.members.saturating_add(second.members);
                both(first, second, members, first.depth.max(second.depth))
            }
            Pattern::OneOrMore(pattern) => {
                let facts = self.facts(*pattern);
                Facts {
                    members: 1,
                    depth: facts.depth.saturating_add(1),
                    ..facts
                }
            }
            Pattern::NotAllowed => NOTHING_KNOWN,
            Pattern::Data(_) => Facts {
                tests_strings: true,
                ..NOTHING_KNOWN
            },
            Pattern::Element(element) => Facts {
                elements: Span::one(element.0),
                ..NOTHING_KNOWN
            },
            Pattern::Attribute(_) => Facts {
                attributes: true,
                ..NOTHING_KNOWN
            },
        }
    }

    /// Returns what is known of a choice of these members.
    fn facts_of_choice(&self, members: &[PatternNumber]) -> Facts
        requires inside { All (λ m. m.0 < length self.now) members.now }
        requires two { 2 ≤ length members.now }
        ensures { (t : Table) → result ≡ facts_of (choice_over (tree_of t self.now) (map (λ m. m.0) members.now)) }
    {
        let mut known = NOTHING_KNOWN;
        for member in members {
            let facts = self.facts(*member);
            known.nullable |= facts.nullable;
            known.attributes |= facts.attributes;
            known.tests_strings |= facts.tests_strings;
            known.subsequences &= facts.subsequences;
            known.depth = known.depth.max(facts.depth);
            known.elements = known.elements.joined(facts.elements);
        }
        known
    }

    /// Returns the number of a pattern whose parts are in the table. It is a new one if no pattern of the table is
    /// equal.
    pub(crate) fn number_of(&mut self, pattern: Pattern) -> Result<PatternNumber, OutOfMemory>
        requires below { ArePartsBelow (length self.old) (node_of pattern) }
        requires reduced { (t : Table) → AreReduced (tree_of t self.old) (node_of pattern) }
        ensures longer { Longer self.old self.new }
        ensures adds { IfOk result (λ n. Adds self.old self.new n.0 (λ t. tree_over t (tree_of t self.old) (node_of pattern))) }
    {
        let facts = self.facts_of(&pattern);
        let unit = self.unit_of(&pattern);
        let (number, _) = self.rows.insert_full(pattern, facts)?;
        keep_unit(&mut self.units, number, unit)?;
        Ok(PatternNumber(number))
    }

    /// Adds a pattern that is not in the table and whose parts are, and returns its number.
    pub(crate) fn add(&mut self, pattern: Pattern) -> Result<PatternNumber, OutOfMemory>
        requires below { ArePartsBelow (length self.old) (node_of pattern) }
        requires reduced { (t : Table) → AreReduced (tree_of t self.old) (node_of pattern) }
        requires new { IsNew self.old (node_of pattern) }
        ensures longer { Longer self.old self.new }
        ensures added { IfOk result (λ n. (n.0 ≡ length self.old) × (self.new ≡ self.old ++ node_of pattern ∷ [])) }
    {
        let number = self.rows.len();
        let facts = self.facts_of(&pattern);
        let unit = self.unit_of(&pattern);
        self.rows.insert(pattern, facts)?;
        keep_unit(&mut self.units, number, unit)?;
        Ok(PatternNumber(number))
    }

    /// Returns the pattern of which this one is copies, one after the other. For a group it is the unit of its sides,
    /// if both are copies of one pattern. For any other pattern it is the pattern itself. Allocates nothing.
    pub fn unit(&self, number: PatternNumber) -> PatternNumber
        requires { number.0 < length self.now }
        ensures inside { result.0 < length self.now }
        ensures copies { (t : Table) → AreCopies (tree_of t self.now result.0) (tree_of t self.now number.0) }
    {
        match self.units.get(number.0) {
            Some(unit) if *unit < NO_UNIT => PatternNumber(*unit as usize),
            _ => number,
        }
    }

    /// Returns the value to keep as the unit of a pattern whose parts are in the table.
    fn unit_of(&self, pattern: &Pattern) -> u32
        requires { ArePartsBelow (length self.now) (node_of pattern.now) }
        ensures { IsUnit self.now (λ t. tree_over t (tree_of t self.now) (node_of pattern.now)) result }
    {
        let Pattern::Group(first, second) = pattern else {
            return NO_UNIT;
        };
        let unit = self.unit(*first);
        if self.unit(*second) != unit {
            return NO_UNIT;
        }
        unit.0.min(NO_UNIT as usize) as u32
    }
}

/// The value that is kept for a pattern that is not copies of another one.
const NO_UNIT: u32 = u32::MAX;

/// Keeps the unit of the pattern with this number, if it is the next one.
fn keep_unit(units: &mut Vec<u32>, number: usize, unit: u32) -> Result<(), OutOfMemory>
    ensures { IsKeptLast units.old.items units.new.items number unit }
{
    if units.len() == number {
        units.push(unit)?;
    }
    Ok(())
}

/// What is known of notAllowed.
const NOTHING_KNOWN: Facts = Facts {
    nullable: false,
    attributes: false,
    tests_strings: false,
    subsequences: true,
    members: 1,
    depth: 0,
    elements: Span::NONE,
};

/// Returns what is known of a group or an interleave of two patterns, with this many members and with sides of this
/// depth, from what is known of these.
fn both(first: Facts, second: Facts, members: u16, depth: u16) -> Facts
    ensures { result ≡ both_facts first second members depth }
{
    Facts {
        nullable: first.nullable && second.nullable,
        attributes: first.attributes || second.attributes,
        tests_strings: first.tests_strings || second.tests_strings,
        subsequences: first.nullable
            && first.subsequences
            && second.nullable
            && second.subsequences,
        members,
        depth: depth.saturating_add(1),
        elements: first.elements.joined(second.elements),
    }
}

/// Returns the row at a place.
#[inline(always)]
fn row_at(rows: &IndexMap<Pattern, Facts>, place: usize) -> (&Pattern, &Facts)
    requires { place < length rows.now.entries }
    ensures { slice_get rows.now.entries place ≡ Some (result.0.now, result.1.now) }
{
    match rows.get_index(place) {
        Some(row) => row,
        None => unreachable!(),
    }
}
