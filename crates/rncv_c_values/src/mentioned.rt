// The files that a schema file mentions.
ghost use Rattle.std.specs.Prelude.{◌≡◌, ◌≢◌, IfOk, map, string_bytes};
ghost use Rattle.rncv_c_values.specs.views.Mentions.{AreMentionsOf, IsRefusedAlone, with_ends};
ghost use Rattle.rncv_c_values.specs.views.Texts.{IsTooLong, IsWritten};

use crate::status::Status;
use crate::texts::copied;
use crate::told::{Refusal, refusal_at};
use rnc_places::{FileFault, mentioned_names};
use rng_model::OutOfMemory;
use std::alloc::Global;

/// Writes the names that a schema file mentions to the buffer if they fit, each with a zero after it, and their length,
/// with the zeros, to `count`.
///
/// Returns `Refused` if the file breaks a clause from 3 to 8, which is reported with its place; `Space` if the names do
/// not fit; `Memory` when out of memory. Costs what `mentioned_names` costs, and two copies of the names.
pub fn mentions(
    alloc: Global,
    file: &[u8],
    buffer: &mut [u8],
    count: &mut usize,
    fault: &mut Refusal,
) -> Status
    ensures done { result ≡ Status.Done → IsWritten (AreMentionsOf file.now) count.new buffer.old buffer.new }
    ensures space { result ≡ Status.Space → IsTooLong (AreMentionsOf file.now) count.new buffer.old }
    ensures refused { result ≡ Status.Refused → IsRefusedAlone file.now fault.new }
    ensures others { (result ≢ Status.Malformed) × (result ≢ Status.Misuse) }
    ensures failed { result ≢ Status.Done → buffer.new ≡ buffer.old }
    ensures uncounted { result ≢ Status.Done → result ≢ Status.Space → count.new ≡ count.old }
    ensures untold { result ≢ Status.Refused → fault.new ≡ fault.old }
{
    let names = match mentioned_names(alloc, file) {
        Ok(names) => names,
        Err(FileFault::Broken { clause, place }) => {
            *fault = refusal_at(Some(0), clause, Some(place));
            return Status::Refused;
        }
        Err(FileFault::Memory) => return Status::Memory,
    };
    match joined(alloc, names.as_slice()) {
        Ok(text) => copied(text.as_slice(), buffer, count),
        Err(_) => Status::Memory,
    }
}

/// Returns the names, each with a zero after it.
fn joined(alloc: Global, names: &[String]) -> Result<Vec<u8>, OutOfMemory>
    ensures { IfOk result (λ text. text.items ≡ with_ends (map string_bytes names.now)) }
{
    let mut text = Vec::new(alloc);
    for name in names {
        text.extend_from_slice(name.as_bytes())?;
        text.push(0)?;
    }
    Ok(text)
}
