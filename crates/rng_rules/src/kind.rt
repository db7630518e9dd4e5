// Kinds of pattern, and where each is not allowed.
ghost use Rattle.std.specs.Prelude.{◌≡◌, ℕ};
ghost use Rattle.rng_model.specs.simple.Grammar.{kind_of};
ghost use Rattle.rng_model.specs.simple.Table.{tree_over};
ghost use Rattle.rng_model.specs.simple.Tree as tree;
ghost use Rattle.rng_model.specs.declared.simple.PatternId.{PatternId};
ghost use Rattle.rng_rules.specs.plain.Kinds as kinds;
ghost use Rattle.rng_rules.specs.plain.Kinds.{kind_seen};

use rng_model::Simple;

/// A kind of pattern. A datatype has the same kind with and without an except.
#[derive(Clone, Copy)]
pub enum Kind {
    NotAllowed,
    Empty,
    Text,
    Ref,
    Attribute,
    List,
    Data,
    Value,
    OneOrMore,
    Choice,
    Group,
    Interleave,
}

/// Returns the kind of a pattern.
pub fn kind_of(pattern: &Simple) -> Kind
    ensures { (of : PatternId → tree.Simple ℕ) → kind_seen result ≡ kind_of (tree_over of pattern.now) }
{
    match pattern {
        Simple::NotAllowed => Kind::NotAllowed,
        Simple::Empty => Kind::Empty,
        Simple::Text => Kind::Text,
        Simple::Element(_) => Kind::Ref,
        Simple::Attribute(_, _) => Kind::Attribute,
        Simple::List(_) => Kind::List,
        Simple::Data(_) | Simple::DataExcept(_, _) => Kind::Data,
        Simple::Value(_) => Kind::Value,
        Simple::OneOrMore(_) => Kind::OneOrMore,
        Simple::Group(_, _) => Kind::Group,
        Simple::Interleave(_, _) => Kind::Interleave,
        Simple::Choice(_, _) => Kind::Choice,
    }
}

/// Returns whether the kind is a group or an interleave.
pub fn is_between(kind: Kind) -> bool
    ensures { result ≡ kinds.is_between (kind_seen kind) }
{
    matches!(kind, Kind::Group | Kind::Interleave)
}

/// Returns whether the kind is not allowed inside an attribute (RELAX NG Specification, section 7.1.1).
pub fn is_barred_from_attribute(kind: Kind) -> bool
    ensures { result ≡ kinds.is_barred_from_attribute (kind_seen kind) }
{
    matches!(kind, Kind::Ref | Kind::Attribute)
}

/// Returns whether the kind is not allowed inside a list (section 7.1.3).
pub fn is_barred_from_list(kind: Kind) -> bool
    ensures { result ≡ kinds.is_barred_from_list (kind_seen kind) }
{
    matches!(
        kind,
        Kind::List | Kind::Ref | Kind::Attribute | Kind::Text | Kind::Interleave
    )
}

/// Returns whether the kind is not allowed in the except of a datatype (section 7.1.4).
pub fn is_barred_from_except(kind: Kind) -> bool
    ensures { result ≡ kinds.is_barred_from_except (kind_seen kind) }
{
    !matches!(
        kind,
        Kind::NotAllowed | Kind::Data | Kind::Value | Kind::Choice
    )
}

/// Returns whether the kind is not allowed in a start (section 7.1.5).
pub fn is_barred_from_start(kind: Kind) -> bool
    ensures { result ≡ kinds.is_barred_from_start (kind_seen kind) }
{
    !matches!(kind, Kind::NotAllowed | Kind::Ref | Kind::Choice)
}
