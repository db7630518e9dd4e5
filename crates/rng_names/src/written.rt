// The texts that are written in a name class, and a text that is none of them.
ghost use Rattle.std.specs.Prelude.{◌≡◌, ◌<◌, length, IfOk};
ghost use Rattle.std.specs.String.{string_bytes};
ghost use Rattle.rng_model.specs.names.NameViews.{class_of};
ghost use Rattle.rng_names.specs.plain.Written.{longest};

use rng_model::NameClass;
use std::alloc::{AllocError, Global};

/// Returns the number of bytes in the longest text that is written in the class, as a namespace or a local name.
/// Returns 0 if there is none. Allocates nothing.
///
/// The cost is linear in the size of the class, but does not depend on the length of its texts.
pub fn longest(class: &NameClass) -> usize
    ensures { result ≡ longest (class_of class.now) }
{
    match class {
        NameClass::Any => 0,
        NameClass::AnyExcept(except) => longest(except),
        NameClass::Ns(ns) => ns.as_str().len(),
        NameClass::NsExcept(ns, except) => ns.as_str().len().max(longest(except)),
        NameClass::Name(name) => name.ns.as_str().len().max(name.local.len()),
        NameClass::Choice(members) => {
            let mut most = 0;
            'members: for member in members {
                most = most.max(longest(member));
            }
            most
        }
    }
}

/// Returns a text of more bytes than these. Fails only when out of memory.
pub fn fresh_text(alloc: Global, bytes: usize) -> Result<String, AllocError>
    ensures { IfOk result (λ text. bytes < length (string_bytes text)) }
{
    let mut text = "a".repeat(alloc, bytes)?;
    text.push('a')?;
    Ok(text)
}
