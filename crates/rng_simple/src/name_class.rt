// Name classes in simple form.
ghost use Rattle.std.specs.Prelude.{◌≡◌, IfOk, map};
ghost use Rattle.rng_model.specs.names.Names.{some_of};
ghost use Rattle.rng_model.specs.simple.TableRules.{IsPaired};
ghost use Rattle.rng_model.specs.names.NameViews.{class_of};
ghost use Rattle.rng_simple.specs.plain.InTwos.{nested as nested_tree};

use rng_model::{Name, NameClass};
use std::alloc::{AllocError, Global};

/// A copy of a name class in which the members of each choice are nested in twos from the left.
///
/// RELAX NG Specification, section 4.12.
#[cycle(classes)]
pub fn nested(alloc: Global, class: &NameClass) -> Result<NameClass, AllocError>
    ensures nested { IfOk result (λ copy. class_of copy ≡ nested_tree (class_of class.now)) }
    ensures paired { IfOk result IsPaired }
{
    match class {
        NameClass::Any => Ok(NameClass::Any),
        NameClass::AnyExcept(except) => {
            let except = Box::new(alloc, nested(alloc, except)?)?;
            Ok(NameClass::AnyExcept(except))
        }
        NameClass::Ns(ns) => Ok(NameClass::Ns(ns.share()?)),
        NameClass::NsExcept(ns, except) => {
            let except = Box::new(alloc, nested(alloc, except)?)?;
            Ok(NameClass::NsExcept(ns.share()?, except))
        }
        NameClass::Name(name) => Ok(NameClass::Name(Name {
            ns: name.ns.share()?,
            local: String::from_str(alloc, name.local.as_str())?,
        })),
        NameClass::Choice(members) => nested_members(alloc, members),
    }
}

/// A choice of these members, nested in twos from the left. A choice of no members contains no name.
#[cycle(classes)]
fn nested_members(alloc: Global, members: &[NameClass]) -> Result<NameClass, AllocError>
    ensures nested { IfOk result (λ copy. class_of copy ≡ nested_tree (some_of (map class_of members.now))) }
    ensures paired { IfOk result IsPaired }
{
    let [first, rest @ ..] = members else {
        return Ok(NameClass::AnyExcept(Box::new(alloc, NameClass::Any)?));
    };
    let mut joined = nested(alloc, first)?;
    for member in rest {
        let next = nested(alloc, member)?;
        joined = NameClass::Choice(vec![in alloc; joined, next]?);
    }
    Ok(joined)
}
