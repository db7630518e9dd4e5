// What a pattern contains.
ghost use Rattle.std.specs.Prelude.{◌≡◌};
ghost use Rattle.rng_rules.specs.plain.Facts.{nothing_held};
ghost use Rattle.rng_rules.specs.plain.FactsOver.{either_held, held_with};
ghost use Rattle.rng_rules.specs.plain.Kinds.{kind_seen};

use crate::kind::{
    Kind, is_barred_from_attribute, is_barred_from_except, is_barred_from_list,
    is_barred_from_start, is_between,
};

/// What a pattern contains, at any depth, but not through refs. Depending on the use it includes the pattern itself.
#[derive(Clone, Copy)]
pub struct Held {
    /// An attribute.
    pub attribute: bool,
    /// A group or an interleave with an attribute inside.
    pub joined_attribute: bool,
    /// A kind that is not allowed inside an attribute.
    pub barred_from_attribute: bool,
    /// A kind that is not allowed inside a list.
    pub barred_from_list: bool,
    /// A kind that is not allowed in the except of a datatype.
    pub barred_from_except: bool,
    /// A kind that is not allowed in a start.
    pub barred_from_start: bool,
    /// An attribute that breaks S18.
    pub breaks_attribute: bool,
    /// A oneOrMore that breaks S19.
    pub breaks_one_or_more: bool,
    /// A list that breaks S20.
    pub breaks_list: bool,
    /// A datatype that breaks S21.
    pub breaks_except: bool,
}

/// Returns the value for nothing.
pub fn held_by_none() -> Held
    ensures { result ≡ nothing_held }
{
    Held {
        attribute: false,
        joined_attribute: false,
        barred_from_attribute: false,
        barred_from_list: false,
        barred_from_except: false,
        barred_from_start: false,
        breaks_attribute: false,
        breaks_one_or_more: false,
        breaks_list: false,
        breaks_except: false,
    }
}

/// Returns what one or the other contains.
pub fn held_by_either(first: Held, second: Held) -> Held
    ensures { result ≡ either_held first second }
{
    Held {
        attribute: first.attribute | second.attribute,
        joined_attribute: first.joined_attribute | second.joined_attribute,
        barred_from_attribute: first.barred_from_attribute | second.barred_from_attribute,
        barred_from_list: first.barred_from_list | second.barred_from_list,
        barred_from_except: first.barred_from_except | second.barred_from_except,
        barred_from_start: first.barred_from_start | second.barred_from_start,
        breaks_attribute: first.breaks_attribute | second.breaks_attribute,
        breaks_one_or_more: first.breaks_one_or_more | second.breaks_one_or_more,
        breaks_list: first.breaks_list | second.breaks_list,
        breaks_except: first.breaks_except | second.breaks_except,
    }
}

/// Returns what a pattern of a kind contains, including itself, from what is inside it.
pub fn held_with(kind: Kind, inside: Held) -> Held
    ensures { result ≡ held_with (kind_seen kind) inside }
{
    let attribute = matches!(kind, Kind::Attribute);
    Held {
        attribute: attribute | inside.attribute,
        joined_attribute: is_between(kind) & inside.attribute | inside.joined_attribute,
        barred_from_attribute: is_barred_from_attribute(kind) | inside.barred_from_attribute,
        barred_from_list: is_barred_from_list(kind) | inside.barred_from_list,
        barred_from_except: is_barred_from_except(kind) | inside.barred_from_except,
        barred_from_start: is_barred_from_start(kind) | inside.barred_from_start,
        breaks_attribute: attribute & inside.barred_from_attribute | inside.breaks_attribute,
        breaks_one_or_more: matches!(kind, Kind::OneOrMore) & inside.joined_attribute
            | inside.breaks_one_or_more,
        breaks_list: matches!(kind, Kind::List) & inside.barred_from_list | inside.breaks_list,
        breaks_except: matches!(kind, Kind::Data) & inside.barred_from_except
            | inside.breaks_except,
    }
}
