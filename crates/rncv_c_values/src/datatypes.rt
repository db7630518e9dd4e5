// The sets of datatypes as C passes them.
ghost use Rattle.std.specs.Prelude.{◌≡◌};
ghost use Rattle.rncv_c_values.specs.views.Datatypes.{set_of};

use rng_model::TypeSet;

/// Returns the set of datatypes of a number of the header, if it has one. Allocates nothing.
pub fn set_of_number(number: u32) -> Option<TypeSet>
    ensures { result ≡ set_of number }
{
    match number {
        0 => Some(TypeSet::Profile),
        1 => Some(TypeSet::XmlSchema),
        _ => None,
    }
}
