// The place of a datatype that breaks the clause on datatypes.
ghost use Rattle.std.specs.Prelude.{◌≡◌, ◌≢◌};
ghost use Rattle.rnc_model.specs.loading.DatatypePlaces.{HasBrokenDatatype};
ghost use Rattle.rncv_c_values.specs.views.Told.{IsPlaceOfDatatype};

use crate::status::Status;
use crate::told::{Refusal, refusal_at};
use rnc_places::datatype_place_of;
use rng_model::TypeSet;
use std::alloc::Global;

/// Reports where the first datatype in a schema file breaks clause 12 with this set of datatypes.
///
/// Returns `Refused` if the file has no such datatype, or breaks a clause from 3 to 8 by itself; `Memory` when out of
/// memory. Costs what `datatype_place_of` costs.
pub fn datatype_place(alloc: Global, types: TypeSet, file: &[u8], place: &mut Refusal) -> Status
    ensures done { result ≡ Status.Done → IsPlaceOfDatatype types file.now place.new }
    ensures refused { result ≡ Status.Refused → ¬ (HasBrokenDatatype types file.now) }
    ensures others { (result ≢ Status.Malformed) × (result ≢ Status.Misuse) × (result ≢ Status.Space) }
    ensures untold { result ≢ Status.Done → place.new ≡ place.old }
{
    match datatype_place_of(alloc, types, file) {
        Ok(Some(found)) => {
            *place = refusal_at(Some(0), 12, Some(found));
            Status::Done
        }
        Ok(None) => Status::Refused,
        Err(_) => Status::Memory,
    }
}
