// The automaton of an expression.
ghost use Rattle.std.specs.Prelude.{◌≡◌, ◌≤◌, ◌↔◌, IfOk, IsTrue, length};
ghost use Rattle.std.specs.Str.{chars};
ghost use Rattle.rng_model.specs.regexes.Expressions.{Denotes, Regex};
ghost use Rattle.xsd_regex.specs.plain.Positions.{ArePositionsOf};
ghost use Rattle.xsd_positions.specs.views.Positions.{positions_of};
ghost use Rattle.xsd_automaton.specs.views.WhiteSpace.{treated};

use crate::found_sets::set_table;
use crate::sets::{SetTable, accepts_by_sets};
use crate::steps::accepts_from_first;
use crate::treated::{accepts_treated_by_sets, accepts_treated_from_first};
use crate::white_space::WhiteSpace;
use rng_model::OutOfMemory;
use std::alloc::Global;
use std::marker::Model;
use xsd_positions::Positions;

/// An automaton that says which texts an expression matches as a whole.
///
/// It has the positions of the expression, and a table of at most 1,024 sets of them, which texts lead to. A set takes 513
/// bytes there.
#[derive(Drop)]
pub struct Automaton {
    positions: Positions,
    sets: SetTable,
}

impl Model for Automaton {
    ghost use Rattle.xsd_positions.specs.declared.position.Positions.{Positions};
    ghost use Rattle.xsd_positions.specs.views.Positions.{positions_of};
    ghost use Rattle.xsd_automaton.specs.views.Automaton.{IsAutomaton};

    ghost Value = { Positions };

    ghost view = { λ a. a.positions };

    ghost invariant = { λ a. IsAutomaton a.positions.first (positions_of a.positions) a.sets.rows.items a.sets.ends.items };
}

impl Automaton {
    /// Returns the automaton of an expression with these positions, of which there are at most 12,288.
    ///
    /// Fails only when out of memory. The cost is linear in the positions, with a bound on what is spent on the table of sets: once
    /// 1,000,000 positions have been gone through, the row of a set is finished, and it is the last one. A set that is compared
    /// counts as a quarter of a position.
    pub fn new(alloc: Global, positions: Positions) -> Result<Self, OutOfMemory>
        requires few { length positions.positions.items ≤ 12288 }
        requires are { (r : Regex) × ArePositionsOf r positions.first (positions_of positions) }
        ensures { IfOk result (λ a. a ≡ positions) }
    {
        let sets = set_table(alloc, &positions)?;
        Ok(Automaton { positions, sets })
    }

    /// Returns whether the expression matches the text as a whole.
    ///
    /// XML Schema Part 2, Second Edition, appendix F. Allocates nothing. A text mostly costs one look-up for each byte. It costs
    /// one pass over the positions for each character if it leads to a set that has no row, or if it has a character past
    /// ASCII and a class of the expression is made of a set that holds some of these characters.
    pub fn accepts(&self, text: &str) -> bool
        ensures { (r : Regex) → ArePositionsOf r self.now.first (positions_of self.now) → IsTrue result ↔ Denotes r (chars text.now) }
    {
        match accepts_by_sets(&self.sets, text) {
            Some(answer) => answer,
            None => accepts_from_first(&self.positions, text),
        }
    }

    /// Returns whether the expression matches the text as a whole once its white space is treated.
    ///
    /// XML Schema Part 2, Second Edition, section 4.3.6 and appendix F. Allocates nothing: the treated text is not built. The
    /// cost is that of `accepts`, and one more pass over the text.
    pub fn accepts_treated(&self, white_space: WhiteSpace, text: &str) -> bool
        ensures { (r : Regex) → ArePositionsOf r self.now.first (positions_of self.now)
            → IsTrue result ↔ Denotes r (chars (treated white_space text.now)) }
    {
        if let WhiteSpace::Preserve = white_space {
            return self.accepts(text);
        }
        match accepts_treated_by_sets(&self.sets, white_space, text) {
            Some(answer) => answer,
            None => accepts_treated_from_first(&self.positions, white_space, text),
        }
    }
}
