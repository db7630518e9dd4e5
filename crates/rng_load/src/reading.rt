// From the given files to the tree of one of them.
ghost use Rattle.std.specs.Prelude.{◌↔◌, ◌⊎◌, IfSome, IsTrue, MatchOption};
ghost use Rattle.rng_load.specs.views.FileFaults.{verdict_of};
ghost use Rattle.rnc_model.specs.loading.SchemaFile.{named_files, IsHandedIn, IsHandedInTwice, IsMissing, BreaksLimit};
ghost use Rattle.rnc_model.specs.loading.FileVerdicts.{ContentHasOnlyVerdict};
ghost use Rattle.rng_load.specs.views.FileVerdicts.{FileHasOnlyVerdict};

use crate::fault::FileFault;
use rnc_grammar::{FileTree, resolve};
use rnc_syntax::read_syntax;
use rnc_text::{read_text, tokens};
use std::alloc::Global;

/// The largest number of bytes of a file.
const SIZE_LIMIT: usize = 1_048_576;

/// The largest number of files.
const FILE_LIMIT: usize = 64;

/// Reads the tree of the file `name` among the given files, whose main file is `main`.
///
/// Fails with `Clause` for the first clause that the file breaks:
///
/// - 1 if it is not given, or given more than once;
/// - 2 if it is the main file and more than 64 files are given, or it has more than 1,048,576 bytes. Then no byte is
///   read;
/// - 3 if the bytes are not UTF-8;
/// - 4 if XML does not allow a character, or an escape is bad;
/// - 5 if neither a blank, a comment nor a token begins at some offset;
/// - 7 if up to some token the opening brackets exceed the closing ones by more than 128;
/// - 6 if 7 is not broken and the tokens are no sentence of the grammar;
/// - 8 if a declaration or a prefix breaks a rule.
pub fn tree_of_file(
    alloc: Global,
    files: &[(String, Vec<u8>)],
    main: &str,
    name: &str,
) -> Result<FileTree, FileFault>
    ensures { IfSome (verdict_of result) (FileHasOnlyVerdict (named_files files.now) main.now name.now) }
{
    let Some(bytes) = bytes_of(files, name) else {
        return Err(FileFault::Clause(1));
    };
    if is_too_large(files, main, name, bytes) {
        return Err(FileFault::Clause(2));
    }
    tree_of_content(alloc, bytes)
}

/// Whether this file is the main one and too many files are given, or has too many bytes.
fn is_too_large(files: &[(String, Vec<u8>)], main: &str, name: &str, bytes: &[u8]) -> bool
    ensures { IsTrue result ↔ BreaksLimit (named_files files.now) main.now name.now bytes.now }
{
    let has_too_many_files = name == main && files.len() > FILE_LIMIT;
    has_too_many_files || bytes.len() > SIZE_LIMIT
}

/// The bytes of the only file of this name. `None` if no file or more than one has this name.
fn bytes_of<'a>(files: &'a [(String, Vec<u8>)], name: &str) -> Option<&'a [u8]>
    ensures { MatchOption result
        (IsMissing (named_files files.now) name.now ⊎ IsHandedInTwice (named_files files.now) name.now)
        (λ bytes. IsHandedIn (named_files files.now) name.now bytes.now) }
{
    let mut found = None;
    for (other, bytes) in files {
        if other.as_str() == name {
            if found.is_some() {
                return None;
            }
            found = Some(bytes.as_slice());
        }
    }
    found
}

/// The tree of a file with these bytes, without checking their number.
///
/// To limit memory, the tokens free their spare capacity before the syntax tree is made, and are freed before the file
/// tree is made.
fn tree_of_content(alloc: Global, bytes: &[u8]) -> Result<FileTree, FileFault>
    ensures { IfSome (verdict_of result) (ContentHasOnlyVerdict bytes.now) }
{
    let text = read_text(alloc, bytes)?;
    let mut tokens = tokens(alloc, &text)?;
    tokens.shrink_to_fit();
    let file = read_syntax(alloc, tokens.as_slice())?;
    drop(tokens);
    Ok(resolve(alloc, &file)?)
}
