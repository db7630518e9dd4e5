// The files of a schema as C passes them.
ghost use Rattle.std.specs.Prelude.{◌≡◌, ◌<◌, ◌^◌, ◌↔◌, IfOk, IfSome, IsTrue, bytes_eq, option_map, position};
ghost use Rattle.rnc_model.specs.loading.SchemaFile.{named_files};
ghost use Rattle.rncv_model.specs.answers.Run.{main_name};
ghost use Rattle.rncv_c_values.specs.views.Files.{AreNamed, file_at, files_of, index_for_c, main_of};

use std::alloc::{AllocError, Global};

/// A file of a schema as C passes it: two pointers, each with a length. No pointer is null.
#[repr(C)]
#[derive(Clone, Copy)]
pub struct SchemaFile<'a> {
    pub name: &'a [u8],
    pub bytes: &'a [u8],
}

/// Returns whether there is a file, and each name is UTF-8. One pass over the names.
pub fn are_named(files: &[SchemaFile<'_>]) -> bool
    ensures { IsTrue result ↔ AreNamed files.now }
{
    for file in files {
        let Ok(_) = str::from_utf8(file.name) else {
            return false;
        };
    }
    !files.is_empty()
}

/// Copies the files. Fails only when out of memory.
pub fn copied_files(
    alloc: Global,
    files: &[SchemaFile<'_>],
) -> Result<Vec<(String, Vec<u8>)>, AllocError>
    requires { AreNamed files.now }
    ensures files { IfOk result (λ copy. named_files copy.items ≡ files_of files.now) }
    ensures main { IfOk result (λ copy. main_name copy.items ≡ main_of files.now) }
{
    let mut copy = Vec::new(alloc);
    for file in files {
        let Ok(name) = str::from_utf8(file.name) else {
            unreachable!();
        };
        copy.push((
            String::from_str(alloc, name)?,
            Vec::from_slice(alloc, file.bytes)?,
        ))?;
    }
    Ok(copy)
}

/// Returns the index of the first file of this name. One pass over the names.
pub fn position_of(files: &[SchemaFile<'_>], name: &[u8]) -> Option<usize>
    ensures position { result ≡ position (λ f. bytes_eq f.name.now name.now) files.now }
    ensures small { IfSome result (λ index. index < 2 ^ 63) }
{
    files.iter().position(|file| file.name == name)
}

/// Returns an index as C reads it; `None` is -1.
pub fn index_to_tell(index: Option<usize>) -> i64
    requires { IfSome index (λ i. i < 2 ^ 63) }
    ensures { result ≡ index_for_c index }
{
    match index {
        Some(index) => index as i64,
        None => -1,
    }
}

/// Returns the file at an index.
pub fn file_at<'t, 'a>(
    files: &'t [SchemaFile<'a>],
    index: Option<usize>,
) -> Option<&'t SchemaFile<'a>>
    ensures { option_map (λ f. f.now) result ≡ file_at index files.now }
{
    files.get(index?)
}
