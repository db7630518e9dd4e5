// Writing a whole slice to a device.
ghost use Rattle.std.specs.Prelude.{◌≡◌, ◌+◌, ◌-◌, ◌^◌, ◌<◌, is_ok, OnOk, OnErr, if◌then◌else◌};
ghost use Rattle.std.specs.Io.KnownBytes.{Appends};
ghost use Rattle.rng_model.specs.devices.Device.{device_inner, device_failures, device_taken, AppendsBeginning};

use crate::device::{Device, DeviceFault};
use std::io::Write;

/// Writes all of a slice, in as many calls of the writer as it needs.
///
/// Fails if a call of the writer fails, which the device counts. Then a beginning of the slice is written, and nothing
/// after it. An empty slice makes no call. Requires a device that has counted fewer than 2^64 - 1 failed calls. Allocates
/// nothing, and makes at most as many calls as there are bytes.
pub fn write_whole<W: Write>(output: &mut Device<W>, bytes: &[u8]) -> Result<(), DeviceFault>
    requires { device_failures output.old < 2 ^ 64 - 1 }
    ensures ok { OnOk result (Appends (W.contents (device_inner output.old)) (W.contents (device_inner output.new)) bytes.now) }
    ensures err { OnErr result (AppendsBeginning (W.contents (device_inner output.old)) (W.contents (device_inner output.new)) bytes.now) }
    ensures failures { device_failures output.new ≡ device_failures output.old + (if is_ok result then 0 else 1) }
    ensures taken { device_taken output.new ≡ device_taken output.old }
{
    let mut at = 0;
    'pieces: while at < bytes.len() {
        at += output.write(&bytes[at..])?;
    }
    Ok(())
}
