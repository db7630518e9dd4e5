// What is reported to C of why a start or an end leaves nothing.
ghost use Rattle.std.specs.Prelude.{◌≡◌};
ghost use Rattle.rncv_c_values.specs.views.Reasons as told;

use rng_reasons::{Reason, TagFault};

/// Why a start or an end leaves nothing, as C reads it: 0 if it leaves something; 1 for a name, 2 for an attribute, 3 for the
/// value of one, 4 for missing attributes; 5 for a text that may not be there, 6 for one that is wrong, 7 for an early end; 8
/// if none of these is found.
/// The attribute is the index of one, or 0.
#[repr(C)]
#[derive(Clone, Copy)]
pub struct ReasonNumbers {
    pub kind: i32,
    pub attribute: u64,
}

/// Returns the numbers of a kind without an attribute.
fn of_kind(kind: i32) -> ReasonNumbers
    ensures { result ≡ told.of_kind kind }
{
    ReasonNumbers { kind, attribute: 0 }
}

/// Returns the numbers of what is at fault in a tag.
fn tag_fault_to_tell(fault: TagFault) -> ReasonNumbers
    ensures { result ≡ told.tag_numbers fault }
{
    match fault {
        TagFault::NoElement => of_kind(1),
        TagFault::Attribute {
            index,
            is_name_taken,
        } => ReasonNumbers {
            kind: if is_name_taken { 3 } else { 2 },
            attribute: index as u64,
        },
        TagFault::Missing => of_kind(4),
    }
}

/// Returns the numbers of a reason, or of none. Allocates nothing.
pub fn reason_to_tell(reason: Option<Reason>) -> ReasonNumbers
    ensures { result ≡ told.reason_numbers reason }
{
    match reason {
        None => of_kind(0),
        Some(Reason::Tag(fault)) => tag_fault_to_tell(fault),
        Some(Reason::Text) => of_kind(5),
        Some(Reason::TextValue) => of_kind(6),
        Some(Reason::Incomplete) => of_kind(7),
        Some(Reason::NothingMatches) => of_kind(8),
    }
}
