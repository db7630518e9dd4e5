// Numbers of positions, each once.
ghost use Rattle.std.specs.Prelude.{◌≡◌, ◌<◌, ◌≤◌, [], IfSome, length, slice_get};
ghost use Rattle.xsd_automaton.specs.plain.Closures.{has_number, with_new};
ghost use Rattle.xsd_automaton.specs.views.Reached.{AreMarked};

use arrayvec::ArrayVec;
use std::marker::Model;

/// The number of numbers: of 12,288 positions, and of the end.
pub(crate) const MOST: usize = 12_289;

// numbers below `MOST`, each once, in the order in which they were added
#[derive(Drop)]
pub(crate) struct Reached {
    marks: [bool; MOST],
    numbers: ArrayVec<u16, MOST>,
}

impl Model for Reached {
    ghost use Rattle.std.specs.Prelude.{ℕ, List};
    ghost use Rattle.xsd_automaton.specs.views.Reached.{AreMarked};

    ghost Value = { List ℕ };

    ghost view = { λ r. r.numbers.items };

    ghost invariant = { λ r. AreMarked 12289 r.marks r.numbers.items };
}

impl Reached {
    // no number
    pub(crate) fn new() -> Self
        ensures { result ≡ [] }
    {
        Reached {
            marks: no_marks(),
            numbers: ArrayVec::new(),
        }
    }

    // the number at this place of the order, if there is one
    pub(crate) fn get(&self, place: usize) -> Option<u16>
        ensures value { result ≡ slice_get self.now place }
        ensures within { IfSome result (λ _. place < MOST) }
    {
        self.numbers.as_slice().get(place).copied()
    }

    // the numbers, in their order
    pub(crate) fn numbers(&self) -> &[u16]
        ensures value { result.now ≡ self.now }
        ensures within { length result.now ≤ 12289 }
    {
        self.numbers.as_slice()
    }

    // whether the number is there
    pub(crate) fn contains(&self, number: u16) -> bool
        requires { number < MOST }
        ensures { result ≡ has_number self.now number }
    {
        self.marks[usize::from(number)]
    }

    // adds the number, if it is not there
    pub(crate) fn add(&mut self, number: u16)
        requires { number < MOST }
        ensures { self.new ≡ with_new self.old number }
    {
        if !self.marks[usize::from(number)] {
            self.marks[usize::from(number)] = true;
            self.numbers.push(number);
        }
    }

    // takes all numbers away
    pub(crate) fn clear(&mut self)
        ensures { self.new ≡ [] }
    {
        while let Some(number) = self.numbers.pop() {
            self.marks[usize::from(number)] = false;
        }
    }
}

// no number is marked
fn no_marks<const COUNT: usize>() -> [bool; COUNT]
    ensures { AreMarked COUNT result [] }
{
    [false; COUNT]
}
