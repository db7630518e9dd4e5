// Names as they are written in PYX, and the declarations of namespaces that hold at a place of a document.
//
// `Declarations` has the declarations of the elements that are open in one list, and for each prefix the place of its
// innermost one. A look-up costs a search in an ordered map, so no choice of prefixes makes it slow.
mod cuts;
mod declarations;
mod found;
mod places;
mod slots;
mod written;

pub use self::cuts::{behind, cut_at};
pub use self::declarations::Declarations;
pub use self::found::FoundNamespace;
pub use self::places::{Declaration, declarations_len};
pub use self::slots::{SLOT_COUNT, hash_of, mark};
pub use self::written::{
    WrittenAttribute, any_forbidden, declared_by, is_same, is_written_twice, name_len,
};
