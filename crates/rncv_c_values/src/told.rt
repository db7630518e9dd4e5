// What is reported to C of refused files, of datatypes, and of a document.
ghost use Rattle.std.specs.Prelude.{◌≡◌, ◌<◌, ◌^◌, IfOk, IfSome, Some, option_map};
ghost use Rattle.rncv_validator.specs.views.Places.{file_clause};
ghost use Rattle.rncv_c_values.specs.views.Files.{index_for_c};
ghost use Rattle.rncv_c_values.specs.views.Told as told;
ghost use Rattle.rncv_c_values.specs.views.Told.{IsPlaceToTell, IsToldOf, judgement_of, number_for_c};

use crate::files::{SchemaFile, file_at, index_to_tell, position_of};
use rncv_model::Verdict;
use rncv_validator::{FilePlace, place_of};
use rng_model::{OutOfMemory, SchemaFault};
use std::alloc::Global;

/// Why files are refused, as C reads it: a clause, the index of the file that breaks it, and the place in the file. A
/// value that is not known is -1.
#[repr(C)]
#[derive(Clone, Copy)]
pub struct Refusal {
    pub clause: i32,
    pub file: i64,
    pub offset: i64,
    pub line: i64,
    pub column: i64,
}

/// The verdict on a document, as C reads it: 0 for valid, 1 for invalid, 2 for malformed. The clause and the line are 0
/// if the kind has none.
#[repr(C)]
#[derive(Clone, Copy)]
pub struct Judgement {
    pub kind: i32,
    pub clause: i32,
    pub line: u64,
}

/// Returns why the files are refused. Fails only when out of memory, also if that is the cause itself. Costs one pass
/// over the names, and what `place_of` costs.
pub fn refusal_to_tell(
    alloc: Global,
    files: &[SchemaFile<'_>],
    cause: &SchemaFault,
) -> Result<Refusal, OutOfMemory>
    ensures { IfOk result (IsToldOf files.now cause.now) }
{
    match cause {
        SchemaFault::File { clause, name } => {
            let index = position_of(files, name.as_bytes());
            let place = place_in(alloc, file_at(files, index), *clause, cause)?;
            Ok(refusal_at(index, *clause, place))
        }
        SchemaFault::Clause(clause) => Ok(refusal_at(None, *clause, None)),
        SchemaFault::Memory => Err(OutOfMemory),
    }
}

/// Returns the place where a file breaks the clause of its fault, if there is a file and its content breaks the clause.
fn place_in(
    alloc: Global,
    file: Option<&SchemaFile<'_>>,
    clause: u8,
    cause: &SchemaFault,
) -> Result<Option<FilePlace>, OutOfMemory>
    requires { file_clause cause.now ≡ Some clause }
    ensures { IfOk result (IsPlaceToTell (option_map (λ f. f.now) file.entry) clause) }
{
    match file {
        Some(file) => place_of(alloc, file.bytes, cause),
        None => Ok(None),
    }
}

/// Returns a number as C reads it, or -1 if it is too large.
fn number_to_tell(number: u64) -> i64
    ensures { result ≡ number_for_c number }
{
    if number < 1 << 63 { number as i64 } else { -1 }
}

/// Returns the refusal by this clause, in the file of this index, at this place. Allocates nothing.
pub fn refusal_at(index: Option<usize>, clause: u8, place: Option<FilePlace>) -> Refusal
    requires { IfSome index (λ i. i < 2 ^ 63) }
    ensures { result ≡ told.refusal_at (index_for_c index) clause place }
{
    let (offset, line, column) = match place {
        Some(place) => (
            number_to_tell(place.offset),
            number_to_tell(place.line),
            number_to_tell(place.column),
        ),
        None => (-1, -1, -1),
    };
    Refusal {
        clause: clause as i32,
        file: index_to_tell(index),
        offset,
        line,
        column,
    }
}

/// Returns the numbers of a verdict. Allocates nothing.
pub fn judgement_to_tell(verdict: Verdict) -> Judgement
    ensures { result ≡ judgement_of verdict }
{
    match verdict {
        Verdict::Valid => Judgement {
            kind: 0,
            clause: 0,
            line: 0,
        },
        Verdict::Invalid(line) => Judgement {
            kind: 1,
            clause: 0,
            line,
        },
        Verdict::Malformed { clause, line } => Judgement {
            kind: 2,
            clause: clause as i32,
            line,
        },
    }
}
