// Whether two name classes have a name in common.
ghost use Rattle.std.specs.Prelude.{◌≡◌, ◌<◌, ◌≤◌, length, ◌⊎◌, Bool, IfOk, IsOk, IsTrue, IsFalse};
ghost use Rattle.rng_model.specs.names.Names.{Overlap};
ghost use Rattle.rng_model.specs.plain.ClassesApart.{AreApart};
ghost use Rattle.rng_model.specs.names.NameViews.{class_of};
ghost use Rattle.rng_names.specs.plain.EitherWay.{TellsOverlap};
ghost use Rattle.rng_names.specs.plain.Holding.{pair};
ghost use Rattle.rng_names.specs.views.PlainNames.{IsPlain};
ghost use Rattle.rng_names.specs.plain.Written.{both_hold, is_met, longest};

use crate::class_table::ClassTable;
use crate::membership::contains;
use rng_model::{NameClass, OutOfMemory};
use std::alloc::Global;

/// Returns whether some name is in both classes, where any pair of texts is a name.
///
/// RELAX NG Specification, section 7.3. The order of the two classes does not change the result. Fails only when out of
/// memory. If one of the two is a plain name, the cost is one `contains` of the other, and nothing is allocated.
/// Otherwise memory and cost are linear in the size of the two classes, apart from hashing, if each has at most one
/// except. In general each name and each namespace that is written in them costs three look-ups by hashing for each
/// except, and three more.
pub fn overlap(alloc: Global, a: &NameClass, b: &NameClass) -> Result<bool, OutOfMemory>
    ensures common { IfOk result (λ yes. IsTrue yes → Overlap (class_of a.now) (class_of b.now)) }
    ensures apart { IfOk result (λ yes. IsFalse yes → AreApart (class_of a.now) (class_of b.now)) }
    ensures either_way { IfOk result (λ yes. (back : Bool) → TellsOverlap (class_of b.now) (class_of a.now) back → back ≡ yes) }
    ensures plain { IsPlain a.now ⊎ IsPlain b.now → IsOk result }
{
    match (a, b) {
        (NameClass::Name(name), _) => Ok(contains(b, name)),
        (_, NameClass::Name(name)) => Ok(contains(a, name)),
        _ => {
            let first = ClassTable::of_class(alloc, a)?;
            let second = ClassTable::of_class(alloc, b)?;
            Ok(meet(&first, &second))
        }
    }
}

/// Returns whether some name is in both classes. It tries the names that are written in them and those with a fresh
/// text. Allocates nothing.
///
/// The cost is two look-ups in each class for each name and each namespace that is written in them. If the two have no
/// namespace in common, it is one look-up for each namespace of the second.
pub(crate) fn meet(a: &ClassTable, b: &ClassTable) -> bool
    ensures common { IsTrue result → Overlap (class_of a.now) (class_of b.now) }
    ensures apart { IsFalse result → AreApart (class_of a.now) (class_of b.now) }
{
    !a.is_apart(b) && meet_in(a, b, longer(a.fresh(), b.fresh()))
}

/// Returns the longer one of two texts.
fn longer<'a>(first: &'a str, second: &'a str) -> &'a str
    ensures first { length first.now ≤ length result.now }
    ensures second { length second.now ≤ length result.now }
{
    if first.len() < second.len() {
        second
    } else {
        first
    }
}

/// Returns whether some name is in both classes, by means of a text that is longer than each text written in them.
fn meet_in(a: &ClassTable, b: &ClassTable, fresh: &str) -> bool
    requires fresh_first { longest (class_of a.now) < length fresh.now }
    requires fresh_second { longest (class_of b.now) < length fresh.now }
    ensures common { IsTrue result → Overlap (class_of a.now) (class_of b.now) }
    ensures apart { IsFalse result → AreApart (class_of a.now) (class_of b.now) }
{
    let first = a.class();
    let second = b.class();
    both_hold(a, b, fresh, fresh) || is_met(first, fresh, a, b) || is_met(second, fresh, a, b)
}

/// Returns whether both classes hold the name with this namespace and this local name.
fn both_hold(a: &ClassTable, b: &ClassTable, ns: &str, local: &str) -> bool
    ensures test { result ≡ both_hold (class_of a.now) (class_of b.now) (pair ns.now local.now) }
    ensures common { IsTrue result → Overlap (class_of a.now) (class_of b.now) }
{
    a.hold(ns, local) && b.hold(ns, local)
}

/// Returns whether both classes hold a name that is written in `written`, or the fresh local name in a namespace of it.
fn is_met(written: &NameClass, fresh: &str, a: &ClassTable, b: &ClassTable) -> bool
    ensures test { result ≡ is_met (both_hold (class_of a.now) (class_of b.now)) fresh.now (class_of written.now) }
    ensures common { IsTrue result → Overlap (class_of a.now) (class_of b.now) }
{
    match written {
        NameClass::Any => false,
        NameClass::AnyExcept(except) => is_met(except, fresh, a, b),
        NameClass::Ns(ns) => both_hold(a, b, ns.as_str(), fresh),
        NameClass::NsExcept(ns, except) => {
            both_hold(a, b, ns.as_str(), fresh) || is_met(except, fresh, a, b)
        }
        NameClass::Name(name) => {
            both_hold(a, b, name.ns.as_str(), name.local.as_str())
                || both_hold(a, b, name.ns.as_str(), fresh)
        }
        NameClass::Choice(members) => {
            'members: for member in members {
                if is_met(member, fresh, a, b) {
                    return true;
                }
            }
            false
        }
    }
}
