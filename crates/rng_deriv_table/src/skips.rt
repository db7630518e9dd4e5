// Members of choices that a search for elements passes over.
ghost use Rattle.std.specs.Prelude.{◌≡◌, ◌⊎◌, ◌<◌, ℕ, All, IfOk, IfSome, List, OnOk, length, map};
ghost use Rattle.rng_deriv_table.specs.views.Node.{Node};
ghost use Rattle.rng_deriv_table.specs.views.Skips.{AreSkips, AreSkipsAt, AreSkipsIn, AreSkipsOf, HasSkips, IsSkip};
ghost use Rattle.rng_deriv_table.specs.declared.pattern.PatternNumber.{PatternNumber};
ghost use Rattle.rng_deriv_table.specs.declared.skips.Skip.{Skip};

use crate::pattern::{Pattern, PatternNumber, Span};
use crate::pattern_table::PatternTable;
use rng_model::OutOfMemory;
use std::alloc::Global;
use std::collections::HashMap;

/// The most members of a choice without skips.
pub const FEW_MEMBERS: usize = 16;

/// A step from a member of a choice to one behind it.
#[derive(Clone, Copy)]
pub struct Skip {
    /// The range of numbers of the elements in the members that it passes over. The first of these is where it begins.
    pub elements: Span,
    /// The position where it ends.
    pub behind: usize,
}

/// The skips of choices, one from each member.
type ByChoice = HashMap<PatternNumber, Vec<Skip>>;

/// For the first patterns of a table, the skips of each choice of many members.
///
/// A skip from a position that is an odd multiple of a power of two passes over as many members as that power, if there
/// are so many. So a search that passes over all members but one takes some steps for each bit of their number.
#[derive(Drop)]
pub struct Skips {
    by_choice: ByChoice,
    /// The number of these patterns.
    patterns: usize,
}

impl Skips {
    /// Creates a value for no patterns. Allocates nothing.
    pub fn new(alloc: Global) -> Self
        ensures { (ns : List Node) → AreSkips ns result }
    {
        Skips {
            by_choice: HashMap::new(alloc),
            patterns: 0,
        }
    }

    /// Adds the skips of the new choices of a table. Fails only when out of memory. The cost is one step for each new
    /// pattern, and a few for each member of these choices.
    pub fn add(&mut self, alloc: Global, table: &PatternTable) -> Result<(), OutOfMemory>
        ensures { OnOk result (AreSkips table.now self.old → AreSkips table.now self.new) }
    {
        'patterns: for number in self.patterns..table.len() {
            add_choice(alloc, table, &mut self.by_choice, PatternNumber(number))?;
        }
        self.patterns = table.len();
        Ok(())
    }

    /// Returns the skips of a choice, if it has some. Allocates nothing. The cost is one look-up.
    pub fn of(&self, number: PatternNumber) -> Option<&[Skip]>
        ensures { IfSome result (λ skips. (ns : List Node) → AreSkips ns self.now → AreSkipsAt ns number skips.now) }
    {
        skips_at(&self.by_choice, number)
    }
}

/// Returns the skips that are kept for a choice.
fn skips_at(by_choice: &ByChoice, number: PatternNumber) -> Option<&[Skip]>
    ensures { IfSome result (λ skips. HasSkips by_choice.now number skips.now) }
{
    Some(by_choice.get(&number)?.as_slice())
}

/// Adds the skips of a pattern, if it is a choice of many members.
fn add_choice(
    alloc: Global,
    table: &PatternTable,
    by_choice: &mut ByChoice,
    number: PatternNumber,
) -> Result<(), OutOfMemory>
    requires { number.0 < length table.now }
    ensures { OnOk result (AreSkipsIn table.now by_choice.old → AreSkipsIn table.now by_choice.new) }
{
    let Pattern::Choice(members) = table.pattern(number) else {
        return Ok(());
    };
    if members.len() <= FEW_MEMBERS {
        return Ok(());
    }
    let mut skips = single_skips(alloc, table, members.as_slice())?;
    widen_all(&mut skips);
    keep_skips(by_choice, number, skips)
}

/// Keeps the skips of a choice.
fn keep_skips(
    by_choice: &mut ByChoice,
    number: PatternNumber,
    skips: Vec<Skip>,
) -> Result<(), OutOfMemory>
    ensures { OnOk result ((n : PatternNumber) (s : List Skip) → HasSkips by_choice.new n s
        → HasSkips by_choice.old n s ⊎ ((n ≡ number) × (s ≡ skips.items))) }
{
    by_choice.insert(number, skips)?;
    Ok(())
}

/// Returns skips that pass over one member each.
fn single_skips(
    alloc: Global,
    table: &PatternTable,
    members: &[PatternNumber],
) -> Result<Vec<Skip>, OutOfMemory>
    requires { All (λ m. m.0 < length table.now) members.now }
    ensures { IfOk result (λ skips. AreSkipsOf table.now (map (λ m. m.0) members.now) skips.items) }
{
    let mut skips = Vec::with_capacity(alloc, members.len())?;
    'members: for (position, member) in members.iter().enumerate() {
        skips.push(Skip {
            elements: table.facts(*member).elements,
            behind: position + 1,
        })?;
    }
    Ok(skips)
}

/// Widens the skips of a choice, the last ones first, so that each takes those behind it in.
fn widen_all(skips: &mut Vec<Skip>)
    ensures { (ns : List Node) (ms : List ℕ) → AreSkipsOf ns ms skips.old.items → AreSkipsOf ns ms skips.new.items }
{
    let count = skips.len();
    'skips: for behind in 1..count {
        widen(skips, count - behind);
    }
}

/// Joins a skip with those behind it, once for each power of two that its position is a multiple of.
fn widen(skips: &mut Vec<Skip>, position: usize)
    ensures { (ns : List Node) (ms : List ℕ) → AreSkipsOf ns ms skips.old.items → AreSkipsOf ns ms skips.new.items }
{
    'powers: for _ in 0..position.trailing_zeros() {
        let Some(wider) = joined_skip(skips.as_slice(), position) else {
            return;
        };
        skips[position] = wider;
    }
}

/// Returns the skip from a position joined with the one from where it ends.
fn joined_skip(skips: &[Skip], position: usize) -> Option<Skip>
    ensures inside { IfSome result (λ s. position < length skips.now) }
    ensures skip { IfSome result (λ s. (ns : List Node) (ms : List ℕ) → AreSkipsOf ns ms skips.now → IsSkip ns ms position s) }
{
    let first = skips.get(position)?;
    let second = skips.get(first.behind)?;
    Some(Skip {
        elements: first.elements.joined(second.elements),
        behind: second.behind,
    })
}
