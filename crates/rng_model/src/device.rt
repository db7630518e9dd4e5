// A reader or a writer that counts its failed calls.
ghost use Rattle.std.specs.Prelude.{◌≡◌, ◌+◌, ◌-◌, ◌^◌, ◌<◌, ◌≤◌, nat_le, length, true, false, is_ok, IfOk, IsErr, MatchResult, if◌then◌else◌};
ghost use Rattle.std.specs.Io.{ReadsAtMost, WritesAtMost};
ghost use Rattle.std.specs.Io.KnownBytes.{ReadConsumes, WriteAppends, Keeps};
ghost use Rattle.rng_model.specs.devices.Device.{device_inner, device_failures, device_taken};
ghost use Rattle.rng_model.specs.views.DeviceViews.{device_flushed};

use std::io::{Read, Write};

/// A call of a device failed, and the device counted the failure.
#[derive(Clone, Copy, Debug, PartialEq, Eq)]
pub struct DeviceFault;

/// A `Read` or a `Write` that counts its failed calls.
#[derive(Drop)]
pub struct Device<T> {
    inner: T,
    failures: u64,
    taken: u64,
    flushed: bool,
}

/// Once this many bytes were read, further reads fail, so that every loop of reads ends.
const READ_LIMIT: u64 = 1 << 62;

impl<T> Device<T> {
    /// Creates a device that has counted no failure, has read no byte and has flushed nothing. Allocates nothing.
    pub fn new(inner: T) -> Self
        ensures inner { device_inner result ≡ inner }
        ensures failures { device_failures result ≡ 0 }
        ensures taken { device_taken result ≡ 0 }
        ensures flushed { device_flushed result ≡ false }
    {
        Device {
            inner,
            failures: 0,
            taken: 0,
            flushed: false,
        }
    }

    /// Returns the reader or the writer, as the calls have left it. Allocates nothing.
    pub fn into_inner(self) -> T
        ensures { result ≡ device_inner self }
    {
        let Device { inner, .. } = self;
        inner
    }

    /// Returns the number of failed calls. Allocates nothing.
    pub fn failures(&self) -> u64
        ensures { result ≡ device_failures self.now }
    {
        self.failures
    }

    /// Returns whether further reads fail because of the limit: 2^62 or more bytes were read.
    fn is_at_limit(&self) -> bool
        ensures { result ≡ nat_le (2 ^ 62) (device_taken self.now) }
    {
        self.taken >= READ_LIMIT
    }

    /// Counts a failed call.
    fn failure(&mut self) -> DeviceFault
        requires { device_failures self.old < 2 ^ 64 - 1 }
        ensures { self.new ≡ record self.old { failures = device_failures self.old + 1 } }
    {
        self.failures += 1;
        DeviceFault
    }
}

impl<R: Read> Device<R> {
    /// Reads into the front of a slice, and returns the number of bytes read. Allocates nothing.
    ///
    /// Every error of the reader counts as a failed call, also the error for an interrupted call. Once 2^62 or more
    /// bytes were read, this fails without a call of the reader, and counts as a failed call. Requires a device that has
    /// counted fewer than 2^64 - 1 failed calls. Costs at most one call of the reader.
    pub fn read(&mut self, buf: &mut [u8]) -> Result<usize, DeviceFault>
        requires { device_failures self.old < 2 ^ 64 - 1 }
        ensures bound { ReadsAtMost result buf.new }
        ensures bytes { ReadConsumes (R.remaining (device_inner self.old)) (R.remaining (device_inner self.new)) result buf.new }
        ensures failures { device_failures self.new ≡ device_failures self.old + (if is_ok result then 0 else 1) }
        ensures taken { MatchResult result (λ n. device_taken self.new ≡ device_taken self.old + n) (λ _. device_taken self.new ≡ device_taken self.old) }
        ensures flushed { device_flushed self.new ≡ device_flushed self.old }
        // Past the limit the call fails, and the reader is not called.
        ensures limit { 2 ^ 62 ≤ device_taken self.old → IsErr result × (device_inner self.new ≡ device_inner self.old) × (buf.new ≡ buf.old) }
    {
        if self.is_at_limit() {
            return Err(self.failure());
        }
        match self.inner.read(buf) {
            Ok(n) => {
                self.taken += n as u64;
                Ok(n)
            }
            Err(_) => Err(self.failure()),
        }
    }
}

impl<W: Write> Device<W> {
    /// Writes the front of a slice, and returns the number of bytes written: at least one, unless the slice is empty.
    /// Allocates nothing.
    ///
    /// A call that writes nothing of a slice that is not empty counts as failed, as does every error of the writer.
    /// Requires a device that has counted fewer than 2^64 - 1 failed calls. Costs one call of the writer.
    pub fn write(&mut self, buf: &[u8]) -> Result<usize, DeviceFault>
        requires { device_failures self.old < 2 ^ 64 - 1 }
        ensures bound { WritesAtMost result buf.now }
        ensures some { IfOk result (λ n. 0 < length buf.now → 0 < n) }
        ensures bytes { WriteAppends (W.contents (device_inner self.old)) (W.contents (device_inner self.new)) result buf.now }
        ensures taken { device_taken self.new ≡ device_taken self.old }
        ensures failures { device_failures self.new ≡ device_failures self.old + (if is_ok result then 0 else 1) }
        ensures flushed { device_flushed self.new ≡ false }
    {
        self.flushed = false;
        match self.inner.write(buf) {
            Ok(n) if n > 0 || buf.is_empty() => Ok(n),
            _ => Err(self.failure()),
        }
    }

    /// Flushes the writer. Allocates nothing.
    ///
    /// Every error of the writer counts as a failed call. Requires a device that has counted fewer than 2^64 - 1 failed
    /// calls. Costs one call of the writer.
    pub fn flush(&mut self) -> Result<(), DeviceFault>
        requires { device_failures self.old < 2 ^ 64 - 1 }
        ensures bytes { Keeps (W.contents (device_inner self.old)) (W.contents (device_inner self.new)) }
        ensures taken { device_taken self.new ≡ device_taken self.old }
        ensures failures { device_failures self.new ≡ device_failures self.old + (if is_ok result then 0 else 1) }
        ensures flushed { device_flushed self.new ≡ is_ok result }
    {
        self.flushed = false;
        match self.inner.flush() {
            Ok(()) => {
                self.flushed = true;
                Ok(())
            }
            Err(_) => Err(self.failure()),
        }
    }
}
