// Devices over readers and writers that work, and over some that fail.
use rng_model::{Device, DeviceFault};
use std::io;
use std::io::{Read, Write};

/// A reader that fails at each call, as if it were interrupted.
#[derive(Drop)]
struct Interrupted;

impl Read for Interrupted {
    fn read(&mut self, _buf: &mut [u8]) -> io::Result<usize> {
        Err(io::Error::from(io::ErrorKind::Interrupted))
    }
}

/// A writer that takes at most this many bytes in a call.
#[derive(Drop)]
struct Narrow(usize);

impl Write for Narrow {
    fn write(&mut self, buf: &[u8]) -> io::Result<usize> {
        Ok(self.0.min(buf.len()))
    }

    fn flush(&mut self) -> io::Result<()> {
        Ok(())
    }
}

/// Prints what three reads of four bytes return: reads of the text or, if that is empty, of a reader that fails.
pub fn print_reads(rt: &impl Print, text: &str) -> io::Result<()> {
    if text.is_empty() {
        return read_three(rt, Device::new(Interrupted));
    }
    read_three(rt, Device::new(text.as_bytes()))
}

fn read_three<R: Read + Drop>(rt: &impl Print, mut device: Device<R>) -> io::Result<()> {
    let mut chunk = [0u8; 4];
    for _read in 0..3 {
        if device.failures() < 3 {
            print_answer(rt, device.read(&mut chunk))?;
        }
    }
    println!(rt; "{} failed", device.failures())
}

/// Prints what writes of the text and of nothing return, if two bytes are taken in a call, and if none are.
pub fn print_writes(rt: &impl Print, text: &str) -> io::Result<()> {
    for most in [2, 0] {
        let mut device = Device::new(Narrow(most));
        for bytes in [text.as_bytes(), b"".as_slice()] {
            if device.failures() < 3 {
                print_answer(rt, device.write(bytes))?;
            }
        }
        print!(rt; "{} failed ", device.failures())?;
    }
    println!(rt;)
}

/// Prints how many bytes a call took, or that it failed.
fn print_answer(rt: &impl Print, answer: Result<usize, DeviceFault>) -> io::Result<()> {
    match answer {
        Ok(count) => print!(rt; "{count} "),
        Err(DeviceFault) => print!(rt; "failed "),
    }
}
