// Where a file of a schema breaks a clause.
ghost use Rattle.std.specs.Prelude.{◌≡◌, ℕ, IfOk, IfSome, IsSome, Some};
ghost use Rattle.rnc_model.specs.loading.SchemaFile.{BreaksFileClause};
ghost use Rattle.rncv_validator.specs.views.Places.{IsPlaceOfFault, file_clause};

use rnc_model::FilePlace;
use rng_model::{OutOfMemory, SchemaFault};
use std::alloc::Global;

/// Returns the place where a file of a schema breaks the clause that this fault reports, if it is a clause from 3 to 8;
/// otherwise `None`.
///
/// `file` is the bytes of the file that the fault names. Fails only when out of memory. Costs the time and the memory
/// of reading the file.
///
/// RELAX NG Compact Syntax, "Lexical structure", "Syntax" and "Declarations".
pub fn place_of(
    alloc: Global,
    file: &[u8],
    fault: &SchemaFault,
) -> Result<Option<FilePlace>, OutOfMemory>
    ensures place { IfOk result (λ found. IfSome found (IsPlaceOfFault file.now fault.now)) }
    ensures found { (clause : ℕ) → file_clause fault.now ≡ Some clause → BreaksFileClause file.now clause → IfOk result IsSome }
{
    match fault {
        SchemaFault::File { clause, .. } => rnc_places::place_of(alloc, file, *clause),
        SchemaFault::Clause(_) | SchemaFault::Memory => Ok(None),
    }
}
