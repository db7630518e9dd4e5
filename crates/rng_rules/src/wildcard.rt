// Wildcards in name classes.
ghost use Rattle.std.specs.Prelude.{◌≡◌};
ghost use Rattle.rng_model.specs.names.NameViews.{class_of};
ghost use Rattle.rng_rules.specs.plain.Facts as facts;

use rng_model::NameClass;

/// Returns whether `*` or `p:*` is written in the class, with or without an except. A choice without members is seen as
/// `* - *`.
pub fn has_wildcard(class: &NameClass) -> bool
    ensures { result ≡ facts.has_wildcard (class_of class.now) }
{
    match class {
        NameClass::Any | NameClass::AnyExcept(_) | NameClass::Ns(_) | NameClass::NsExcept(_, _) =>
            true,
        NameClass::Name(_) => false,
        NameClass::Choice(members) => {
            'members: for member in members {
                if has_wildcard(member) {
                    return true;
                }
            }
            members.is_empty()
        }
    }
}
