// Writers that a grammar is printed to.
use rnc_print::{PrintFault, print};
use rng_model::{Device, SimpleGrammar};
use std::io;
use std::io::Write;

/// A writer that takes one byte in each call, and fails when it has this many.
#[derive(Drop)]
struct Narrow {
    bytes: Vec<u8>,
    room: usize,
}

impl Write for Narrow {
    fn write(&mut self, buf: &[u8]) -> io::Result<usize> {
        if self.bytes.len() >= self.room {
            return Err(io::Error::from(io::ErrorKind::Other));
        }
        let Some(byte) = buf.first() else {
            return Ok(0);
        };
        self.bytes.push(*byte)?;
        Ok(1)
    }

    fn flush(&mut self) -> io::Result<()> {
        Ok(())
    }
}

/// Prints the results of printing a grammar one byte per call, without a failure and with a failure at the seventh
/// byte.
pub fn print_to_writers(
    rt: &(impl Print + AllocGlobal),
    grammar: &SimpleGrammar,
) -> io::Result<()> {
    print_to_narrow(rt, grammar, "a byte a call", usize::MAX)?;
    print_to_narrow(rt, grammar, "the seventh byte fails", 6)
}

/// Prints the result, how many calls failed, and what was written.
fn print_to_narrow(
    rt: &(impl Print + AllocGlobal),
    grammar: &SimpleGrammar,
    title: &str,
    room: usize,
) -> io::Result<()> {
    let bytes = Vec::new(rt.alloc());
    let mut device = Device::new(Narrow { bytes, room });
    let answer = match print(rt.alloc(), grammar, &mut device) {
        Ok(()) => "printed",
        Err(PrintFault::Write) => "a write failed",
        Err(PrintFault::Memory) => "out of memory",
    };
    print!(rt; "{title}: {answer}, {} failed, \"", device.failures())?;
    rt.write_all(device.into_inner().bytes.as_slice())?;
    println!(rt; "\"")
}
