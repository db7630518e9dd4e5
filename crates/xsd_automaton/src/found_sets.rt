// The sets of positions that texts lead to.
ghost use Rattle.std.specs.Prelude.{◌≡◌, ◌<◌, ◌≤◌, ℕ, [], IfOk, IfSome, IsTrue, OnOk, length};
ghost use Rattle.xsd_automaton.specs.plain.Closures.{AreWithin, LeadsTo, has_number};
ghost use Rattle.xsd_automaton.specs.plain.Sets.{AreAlikeChars, AreAlikePast, AreSets, AreTargets, IsLonger, IsNumbered, IsRow, HasTarget, members_at};
ghost use Rattle.xsd_positions.specs.views.Positions.{positions_of};
ghost use Rattle.xsd_automaton.specs.views.Sets.{AreTables, lists_of, sets_of};

use crate::alike::{Alike, alike_chars};
use crate::past_ascii::are_alike_past;
use crate::reached::{MOST, Reached};
use crate::sets::{ASCII, MOST_SETS, NO_SET, SetRow, SetTable};
use crate::steps::{enter, find_nexts, start};
use arrayvec::ArrayVec;
use rng_model::OutOfMemory;
use std::alloc::Global;
use xsd_positions::Positions;

// How many positions are gone through before no further row is made. Four sets that are compared count as one.
const MOST_WORK: usize = 1_000_000;

// the sets that are found so far, with room to find more
#[derive(Drop)]
pub(crate) struct FoundSets {
    pub(crate) sets: Vec<Vec<u16>>,
    reached: Reached,
    nexts: ArrayVec<u16, MOST>,
    work: usize,
}

// Rows for the set that the first position leads to, and for those that texts lead to from there. Some have none, if there are
// more than 1,024 or if it takes too long.
pub(crate) fn set_table(alloc: Global, positions: &Positions) -> Result<SetTable, OutOfMemory>
    requires within { AreWithin (positions_of positions.now) }
    requires room { length (positions_of positions.now) < 12289 }
    requires first { positions.now.first ≤ length (positions_of positions.now) }
    ensures { IfOk result (λ t. AreTables (positions_of positions.now) positions.now.first t.rows.items t.ends.items) }
{
    let alike = Alike {
        ascii: alike_chars(positions),
        past: are_alike_past(positions),
    };
    let mut found = FoundSets::new(alloc, positions)?;
    let mut rows = Vec::new(alloc);
    let mut ends = Vec::new(alloc);
    'rows: while rows.len() < found.sets.len() && found.work < MOST_WORK {
        let set = rows.len();
        ends.push(found.is_end(positions, set))?;
        let row = found.row(alloc, positions, &alike, set)?;
        rows.push(row)?;
    }
    Ok(SetTable { rows, ends })
}

impl FoundSets {
    // the set that the first position leads to
    fn new(alloc: Global, positions: &Positions) -> Result<Self, OutOfMemory>
        requires within { AreWithin (positions_of positions.now) }
        requires room { length (positions_of positions.now) < 12289 }
        requires first { positions.now.first ≤ length (positions_of positions.now) }
        ensures sets { IfOk result (λ f. AreSets (positions_of positions.now) (sets_of f)) }
        ensures start { IfOk result (λ f. LeadsTo (positions_of positions.now) positions.now.first [] (members_at (sets_of f) 0)) }
    {
        let mut reached = Reached::new();
        start(positions, &mut reached);
        let mut sets = Vec::new(alloc);
        sets.push(Vec::from_slice(alloc, reached.numbers())?)?;
        Ok(FoundSets {
            sets,
            reached,
            nexts: ArrayVec::new(),
            work: 0,
        })
    }

    // the row of the set with this number
    fn row(
        &mut self,
        alloc: Global,
        positions: &Positions,
        alike: &Alike,
        set: usize,
    ) -> Result<SetRow, OutOfMemory>
        requires within { AreWithin (positions_of positions.now) }
        requires room { length (positions_of positions.now) < 12289 }
        requires alike { AreAlikeChars (positions_of positions.now) alike.now.ascii }
        requires past { IsTrue alike.now.past → AreAlikePast (positions_of positions.now) }
        requires sets { AreSets (positions_of positions.now) (sets_of self.old) }
        requires set { set < length (sets_of self.old) }
        ensures sets { OnOk result (AreSets (positions_of positions.now) (sets_of self.new)) }
        ensures longer { OnOk result (IsLonger (sets_of self.old) (sets_of self.new)) }
        ensures row { IfOk result (λ row. IsRow (positions_of positions.now) (sets_of self.new) set row.targets) }
    {
        let ascii = self.ascii_targets(alloc, positions, &alike.ascii, set)?;
        let past = self.past_target(alloc, positions, alike.past, set)?;
        Ok(SetRow::new(&ascii, set as u16, past))
    }

    // the number of the set behind each character of ASCII, if it has one
    fn ascii_targets(
        &mut self,
        alloc: Global,
        positions: &Positions,
        alike: &[bool; ASCII],
        set: usize,
    ) -> Result<[u16; ASCII], OutOfMemory>
        requires within { AreWithin (positions_of positions.now) }
        requires room { length (positions_of positions.now) < 12289 }
        requires alike { AreAlikeChars (positions_of positions.now) alike.now }
        requires sets { AreSets (positions_of positions.now) (sets_of self.old) }
        requires set { set < length (sets_of self.old) }
        ensures sets { OnOk result (AreSets (positions_of positions.now) (sets_of self.new)) }
        ensures longer { OnOk result (IsLonger (sets_of self.old) (sets_of self.new)) }
        ensures long { IfOk result (λ targets. length targets ≡ 128) }
        ensures targets { IfOk result (λ targets. AreTargets (positions_of positions.now) (sets_of self.new) (members_at (sets_of self.old) set) 128 targets) }
    {
        let mut targets = [NO_SET; ASCII];
        let mut target = NO_SET;
        for c in 0..128u8 {
            if !alike[usize::from(c)] {
                target = self.target(alloc, positions, set, char::from(c))?;
            }
            targets[usize::from(c)] = target;
        }
        Ok(targets)
    }

    // the number of the set behind all characters past ASCII, if they are alike and it has one
    fn past_target(
        &mut self,
        alloc: Global,
        positions: &Positions,
        are_alike: bool,
        set: usize,
    ) -> Result<u16, OutOfMemory>
        requires within { AreWithin (positions_of positions.now) }
        requires room { length (positions_of positions.now) < 12289 }
        requires alike { IsTrue are_alike → AreAlikePast (positions_of positions.now) }
        requires sets { AreSets (positions_of positions.now) (sets_of self.old) }
        requires set { set < length (sets_of self.old) }
        ensures sets { OnOk result (AreSets (positions_of positions.now) (sets_of self.new)) }
        ensures longer { OnOk result (IsLonger (sets_of self.old) (sets_of self.new)) }
        ensures target { IfOk result (λ t. (c : ℕ) → 128 ≤ c → HasTarget (positions_of positions.now) (sets_of self.new) (members_at (sets_of self.old) set) c t) }
    {
        if !are_alike {
            return Ok(NO_SET);
        }
        self.target(alloc, positions, set, '\u{80}')
    }

    // whether the end is in the set with this number
    fn is_end(&self, positions: &Positions, set: usize) -> bool
        requires room { length (positions_of positions.now) < 12289 }
        requires set { set < length (sets_of self.now) }
        ensures { result ≡ has_number (members_at (sets_of self.now) set) (length (positions_of positions.now)) }
    {
        contains(
            members_of(self.sets.as_slice(), set),
            positions.positions.len() as u16,
        )
    }

    // the number of the set behind the character, if it has one
    fn target(
        &mut self,
        alloc: Global,
        positions: &Positions,
        set: usize,
        c: char,
    ) -> Result<u16, OutOfMemory>
        requires within { AreWithin (positions_of positions.now) }
        requires room { length (positions_of positions.now) < 12289 }
        requires sets { AreSets (positions_of positions.now) (sets_of self.old) }
        requires set { set < length (sets_of self.old) }
        ensures sets { OnOk result (AreSets (positions_of positions.now) (sets_of self.new)) }
        ensures longer { OnOk result (IsLonger (sets_of self.old) (sets_of self.new)) }
        ensures target { IfOk result (λ t. HasTarget (positions_of positions.now) (sets_of self.new) (members_at (sets_of self.old) set) c t) }
    {
        let members = members_of(self.sets.as_slice(), set);
        self.work = self.work.saturating_add(members.len());
        find_nexts(positions, c, members, &mut self.nexts);
        enter(positions, self.nexts.as_slice(), &mut self.reached);
        self.work = self
            .work
            .saturating_add(self.reached.numbers().len())
            .saturating_add(self.sets.len() / 4);
        number_of(alloc, &mut self.sets, self.reached.numbers())
    }
}

// the positions of the set with this number
fn members_of(sets: &[Vec<u16>], set: usize) -> &[u16]
    requires { set < length sets.now }
    ensures { result.now ≡ members_at (lists_of sets.now) set }
{
    sets[set].as_slice()
}

// the number of the set of these positions, which is added if it is new
fn number_of(alloc: Global, sets: &mut Vec<Vec<u16>>, numbers: &[u16]) -> Result<u16, OutOfMemory>
    requires { length sets.old.items ≤ 1024 }
    ensures { IfOk result (λ t. IsNumbered numbers.now (lists_of sets.old.items) (lists_of sets.new.items) t) }
{
    if let Some(place) = place_of(sets.as_slice(), numbers) {
        return Ok(place as u16);
    }
    let number = sets.len();
    if number >= MOST_SETS {
        return Ok(NO_SET);
    }
    sets.push(Vec::from_slice(alloc, numbers)?)?;
    Ok(number as u16)
}

// the number of the set of these positions, if it is there
fn place_of(sets: &[Vec<u16>], numbers: &[u16]) -> Option<usize>
    ensures { IfSome result (λ i. i < length sets.now × (members_at (lists_of sets.now) i ≡ numbers.now)) }
{
    for (place, set) in sets.iter().enumerate() {
        if set.as_slice() == numbers {
            return Some(place);
        }
    }
    None
}

// whether the number is one of these
fn contains(numbers: &[u16], number: u16) -> bool
    ensures { result ≡ has_number numbers.now number }
{
    numbers.iter().any(|other| number == *other)
}
