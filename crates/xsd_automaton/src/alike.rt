// Characters that are in the same classes.
ghost use Rattle.std.specs.Prelude.{◌≡◌, ◌-◌, ℕ, true, false, slice_index_or};
ghost use Rattle.rng_model.specs.regexes.Expressions.{holds};
ghost use Rattle.xsd_automaton.specs.plain.Sets.{AreAlikeChars};
ghost use Rattle.xsd_positions.specs.views.Positions.{positions_of};
ghost use Rattle.xsd_regex.specs.views.Classes.{class_of};

use crate::sets::ASCII;
use xsd_positions::Positions;
use xsd_regex::Class;

// which characters are in the same classes
#[derive(Clone, Copy)]
pub(crate) struct Alike {
    // whether each character of ASCII is in the same classes as the one before it
    pub(crate) ascii: [bool; ASCII],
    // whether all characters past ASCII are in the same classes
    pub(crate) past: bool,
}

// Whether each character of ASCII is in the same classes as the one before it. The first one has none before it.
pub(crate) fn alike_chars(positions: &Positions) -> [bool; ASCII]
    ensures { AreAlikeChars (positions_of positions.now) result }
{
    let mut alike = [true; ASCII];
    alike[0] = false;
    for class in &positions.classes {
        mark_changes(class, &mut alike);
    }
    alike
}

// takes the marks of the characters that the class holds, but not the one before them, or not them, but the one before them
fn mark_changes(class: &Class, alike: &mut [bool; ASCII])
    ensures before { (c : ℕ) → slice_index_or alike.new c false ≡ true → slice_index_or alike.old c false ≡ true }
    ensures alike { (c : ℕ) → slice_index_or alike.new c false ≡ true → holds (class_of class.now) c ≡ holds (class_of class.now) (c - 1) }
{
    let mut before = class.holds('\0');
    for c in 0..128u8 {
        let held = class.holds(char::from(c));
        if held != before {
            alike[usize::from(c)] = false;
        }
        before = held;
    }
}
