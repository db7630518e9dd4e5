// Known ways of patterns.
ghost use Rattle.std.specs.Prelude.{◌≡◌, ◌⊎◌, ◌<◌, IfOk, IfSome, List, OnOk, length};
ghost use Rattle.rng_names.specs.plain.Keys.{Keys, KeysServe};
ghost use Rattle.rng_model.specs.simple.Table.{Table};
ghost use Rattle.rng_deriv_table.specs.views.Node.{Node};
ghost use Rattle.rng_deriv_table.specs.declared.pattern.PatternNumber.{PatternNumber};
ghost use Rattle.rng_deriv_ways.specs.views.KnownWays.{AreAllKnown, HasKnown, HasLast};
ghost use Rattle.rng_deriv_ways.specs.views.Plans.{IsPlanFor};
ghost use Rattle.rng_deriv_ways.specs.declared.way.LeafWay.{LeafWay};
ghost use Rattle.rng_deriv_ways.specs.declared.known.LastWays.{LastWays};

use crate::alike::alike_elements;
use crate::datatypes::Datatypes;
use crate::plans::{Asked, Plan, Plans};
use crate::rests::KnownRests;
use crate::takers::Takers;
use crate::way::{LeafWay, Ways};
use rng_deriv_table::{PatternNumber, Skips, Span};
use rng_model::{ElementId, OutOfMemory, SimpleGrammar};
use rng_names::{NameKey, NameKeys};
use smallvec::SmallVec;
use std::alloc::Global;
use std::collections::HashMap;

/// The number of ways up to which the rests of a pattern are chosen anew for what comes first.
const FEW_WAYS: usize = 2;

/// The known ways of patterns to take one kind of what comes first.
pub type KnownWays = HashMap<PatternNumber, Ways>;

/// The known ways for the keys of names that have occurred.
pub type KnownByKey = HashMap<NameKey, KnownWays>;

/// The ways of a pattern to take an attribute with the representative name of a key.
#[derive(Drop)]
pub struct LastWays {
    pub key: NameKey,
    pub ways: Ways,
}

/// For the first patterns, by number, the ways to take an attribute that were computed last, if there are some.
pub type LastByPattern = Vec<Option<Box<LastWays>>>;

/// The known ways of patterns, for each kind of what comes first.
#[derive(Drop)]
pub struct Known {
    pub texts: KnownWays,
    /// The ways to take elements with the representative name of a key, by keys.
    pub elements: KnownByKey,
    /// The ways to take attributes with the representative name of a key, by keys.
    pub attributes: KnownByKey,
    /// What is left of patterns after the attributes of a tag are taken.
    pub rests: KnownRests,
    /// The elements that may have a name, by its key.
    pub takers: Takers,
    /// For each element the first one that takes the same.
    pub alike: Vec<ElementId>,
    /// The attributes that may have a name, by its key.
    pub attribute_takers: Takers,
    /// For the first patterns of the table, the range of positions of the attributes in each.
    pub spans: Vec<Span>,
    /// The skips of choices of many members, for elements.
    pub skips: Skips,
    /// The datatypes that the grammar names, by positions.
    pub datatypes: Datatypes,
    /// For patterns with known ways to take an attribute, those that were computed last. They are tried first for the
    /// next attribute.
    pub last: LastByPattern,
    /// What the tests of leaves leave, for patterns of more than two ways.
    pub plans: Plans,
}

impl Known {
    /// Creates a value without known ways, for a grammar that these keys of names serve. Fails only when out of memory.
    /// The cost is a few look-ups for each element and for each attribute whose name class is one name. Each data and
    /// each value costs one look-up.
    pub fn new(alloc: Global, grammar: &SimpleGrammar, keys: &NameKeys) -> Result<Self, OutOfMemory>
        requires { KeysServe grammar.now keys.now }
        ensures { IfOk result (λ known. (ns : List Node) → AreAllKnown grammar.now keys.now ns known) }
    {
        let takers = Takers::of_elements(alloc, grammar, keys)?;
        let attribute_takers = Takers::of_attributes(alloc, grammar, keys)?;
        let alike = alike_elements(alloc, grammar, keys)?;
        let datatypes = Datatypes::new(alloc, grammar)?;
        Ok(Known {
            texts: HashMap::new(alloc),
            elements: HashMap::new(alloc),
            attributes: HashMap::new(alloc),
            rests: HashMap::new(alloc),
            takers,
            alike,
            attribute_takers,
            spans: Vec::new(alloc),
            skips: Skips::new(alloc),
            datatypes,
            last: Vec::new(alloc),
            plans: HashMap::new(alloc),
        })
    }

    /// Forgets what is known of patterns, so that it serves for any table, and keeps what is known of the grammar.
    /// Allocates nothing.
    pub fn forget(&mut self, alloc: Global)
        ensures { (t : Table) (keys : Keys) (old new : List Node) → AreAllKnown t keys old self.old → AreAllKnown t keys new self.new }
    {
        self.texts = HashMap::new(alloc);
        self.elements = HashMap::new(alloc);
        self.attributes = HashMap::new(alloc);
        self.rests = HashMap::new(alloc);
        self.spans = Vec::new(alloc);
        self.skips = Skips::new(alloc);
        self.last = Vec::new(alloc);
        self.plans = HashMap::new(alloc);
    }

    /// Takes the plan of a pattern out, if there is one. Allocates nothing. The cost is one look-up.
    pub fn take_plan(&mut self, asked: Asked) -> Option<Plan>
        ensures known { (t : Table) (keys : Keys) (ns : List Node) → AreAllKnown t keys ns self.old → AreAllKnown t keys ns self.new }
        ensures plan { (t : Table) (keys : Keys) (ns : List Node) → AreAllKnown t keys ns self.old → IfSome result (IsPlanFor t keys ns asked) }
    {
        self.plans.remove(&asked)
    }

    /// Keeps the plan of a pattern, unless it has so few ways that nothing is gained. Fails only when out of memory.
    pub fn keep_plan(&mut self, asked: Asked, plan: Plan) -> Result<(), OutOfMemory>
        ensures { OnOk result ((t : Table) (keys : Keys) (ns : List Node) → AreAllKnown t keys ns self.old → IsPlanFor t keys ns asked plan
            → AreAllKnown t keys ns self.new) }
    {
        if plan.ways.len() <= FEW_WAYS {
            return Ok(());
        }
        self.plans.insert(asked, plan)?;
        Ok(())
    }
}

/// Returns a copy of ways. Fails only when out of memory.
pub fn copied_ways(alloc: Global, ways: &[LeafWay]) -> Result<Ways, OutOfMemory>
    ensures { IfOk result (λ copy. copy.items ≡ ways.now) }
{
    Ok(SmallVec::from_slice(alloc, ways)?)
}

/// Returns the known ways of a pattern. Allocates nothing. The cost is one look-up.
pub fn known_ways(known: &KnownWays, number: PatternNumber) -> Option<&[LeafWay]>
    ensures { IfSome result (λ ways. HasKnown known.now number ways.now) }
{
    Some(known.get(&number)?.as_slice())
}

/// Returns the ways of a pattern to take an attribute that were computed last. Allocates nothing.
#[inline(always)]
pub fn last_ways(last: &[Option<Box<LastWays>>], number: PatternNumber) -> Option<&LastWays>
    ensures { IfSome result (λ ways. HasLast last.now number ways.now) }
{
    match last.get(number.0) {
        Some(Some(ways)) => Some(ways),
        _ => None,
    }
}

/// Makes sure that there is a place for the last ways of the pattern with this number.
fn make_place(last: &mut LastByPattern, number: PatternNumber) -> Result<(), OutOfMemory>
    ensures place { OnOk result (number.0 < length last.new.items) }
    ensures last { OnOk result ((n : PatternNumber) (ways : LastWays) → HasLast last.new.items n ways → HasLast last.old.items n ways) }
{
    'places: while last.as_slice().len() <= number.0 {
        last.push(None)?;
    }
    Ok(())
}

/// Keeps the ways of a pattern to take an attribute as those that were computed last. Fails only when out of memory.
pub fn keep_last(
    alloc: Global,
    last: &mut LastByPattern,
    number: PatternNumber,
    key: NameKey,
    ways: &[LeafWay],
) -> Result<(), OutOfMemory>
    ensures { OnOk result ((n : PatternNumber) (ws : LastWays) → HasLast last.new.items n ws
        → HasLast last.old.items n ws ⊎ ((n ≡ number) × (ws.key ≡ key) × (ws.ways.items ≡ ways.now))) }
{
    make_place(last, number)?;
    let ways = copied_ways(alloc, ways)?;
    let kept = Box::new(alloc, LastWays { key, ways })?;
    last[number.0] = Some(kept);
    Ok(())
}

/// Keeps the ways of a pattern. Fails only when out of memory.
pub fn keep(
    alloc: Global,
    known: &mut KnownWays,
    number: PatternNumber,
    ways: &[LeafWay],
) -> Result<(), OutOfMemory>
    ensures { OnOk result ((n : PatternNumber) (ws : List LeafWay) → HasKnown known.new n ws → HasKnown known.old n ws ⊎ ((n ≡ number) × (ws ≡ ways.now))) }
{
    let copy = copied_ways(alloc, ways)?;
    known.insert(number, copy)?;
    Ok(())
}
