// Reading the files that the command line names.
ghost use Rattle.std.specs.Prelude.{◌≡◌, ◌≢◌, ◌≤◌, ◌⊎◌, Err, take, length, IfOk, IfErr, IfSome};
ghost use Rattle.std.specs.IoError.{error_kind};
ghost use Rattle.rncv_cli.specs.plain.Answering.{AreRead, IsReadBy, IsReadOf, IsUnreadBy, read_limit};
ghost use Rattle.rncv_cli.specs.views.Faults.{IsUnreadable};

use crate::fault::{Fault, is_want_of_memory};
use std::alloc::Global;
use std::io;
use std::io::{ErrorKind, Read};

/// The greatest number of bytes that is read of a file: one more than a file of a schema may have.
const READ_LIMIT: usize = 1_048_577;

/// Reads the files of these names, in order, and returns each name with the beginning of its file: at most 1,048,577
/// bytes. `open_file` opens the file with a name, and is called once for each.
///
/// Fails with `File` and the name of the first file that cannot be opened or read, and opens no file after it: all files
/// before it are read, and `open_file` may return an error other than out of memory, or a reader, for that name. Fails
/// with `Memory` when this call, `open_file` or a reader is out of memory. Costs time and memory in the order of the
/// bytes that are read.
pub fn read_files<O: Fn(&str) -> io::Result<T>, T: Read + Drop>(
    alloc: Global,
    names: Vec<String>,
    open_file: O,
) -> Result<Vec<(String, Vec<u8>)>, Fault>
    requires { O.IsAlwaysCallable open_file }
    ensures read { IfOk result (λ files. AreRead (IsReadBy O.Fn open_file T.remaining) names.items files.items) }
    ensures fault { IfErr result (IsUnreadable (IsReadBy O.Fn open_file T.remaining) (IsUnreadBy O.Fn open_file) names.items) }
{
    let mut files = Vec::new(alloc);
    for name in names {
        match bytes_of(alloc, open_file(name.as_str())) {
            Ok(bytes) => files.push((name, bytes)).map_err(|_| Fault::Memory)?,
            Err(error) => return Err(fault_of(&error, name)),
        }
    }
    Ok(files)
}

/// Returns why there are no bytes of the file of this name: `Memory` if the error is out of memory, otherwise `File`.
fn fault_of(error: &io::Error, name: String) -> Fault
    ensures memory { error_kind error.now ≡ ErrorKind.OutOfMemory → result ≡ Fault.Memory }
    ensures file { error_kind error.now ≢ ErrorKind.OutOfMemory → result ≡ Fault.File name }
    ensures either { (result ≡ Fault.Memory) ⊎ ((result ≡ Fault.File name) × (error_kind error.now ≢ ErrorKind.OutOfMemory)) }
{
    if is_want_of_memory(error) {
        return Fault::Memory;
    }
    Fault::File(name)
}

/// Returns the beginning of the file that was opened.
fn bytes_of<T: Read + Drop>(alloc: Global, opened: io::Result<T>) -> io::Result<Vec<u8>>
    ensures bytes { IfOk result (λ bytes. IsReadOf T.remaining opened bytes.items) }
    ensures error { IfErr opened (λ error. result ≡ Err error) }
{
    beginning_of(alloc, opened?)
}

/// Returns the beginning of a reader, with at most as many bytes as are read of a file.
fn beginning_of<T: Read + Drop>(alloc: Global, reader: T) -> io::Result<Vec<u8>>
    ensures bytes { IfOk result (λ bytes. IfSome (T.remaining reader) (λ all. bytes.items ≡ take read_limit all)) }
    ensures within { IfOk result (λ bytes. length bytes.items ≤ read_limit) }
{
    let mut bytes = Vec::new(alloc);
    reader.take(READ_LIMIT as u64).read_to_end(&mut bytes)?;
    // A reader without a contract might return more bytes than the limit.
    bytes.truncate(READ_LIMIT);
    Ok(bytes)
}
