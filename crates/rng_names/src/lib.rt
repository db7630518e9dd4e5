//! Name classes and keys of names (RELAX NG Specification, sections 6.1 and 7.3): which names a class holds, whether
//! two classes have a name in common, and which names no class of a grammar distinguishes.
//!
//! `contains` returns exactly whether a class holds a name, and allocates nothing. `overlap` returns exactly whether
//! some name is in both of two classes, among all pairs of texts and not only those that are written in them. It fails
//! only when out of memory, and never if one class is a plain name. With `longest` and `fresh_text` callers get a text
//! that is written in no class. `copy_of` returns a copy of a name.
//!
//! `NameKeys` has keys of names for a grammar. A region is a name class without its excepts, and the class of each except
//! is a region of its own. Names of one namespace that are written once, and in the same region, share a key: a class of
//! many names has one key for each namespace in it. A name that is written more than once has a key of its own, and so has
//! the name of a class that is one name. The other names of a namespace that is written share one key, and all other names
//! share one. A class holds a name exactly if it holds the representative of its key, so what is kept by key holds for each
//! name with the key.
#![tactic(auto)]

mod alternatives;
mod class_table;
mod common_name;
mod grammar_classes;
mod key_tables;
mod membership;
mod name_keys;
mod name_set;
mod names_by_region;
mod namespaces;
mod places;
mod prepared_class;
mod shared_keys;
mod texts;
mod written;
mod written_names;

pub use common_name::overlap;
pub use membership::{contains, is_same_name};
pub use name_keys::{NameKey, NameKeys};
pub use prepared_class::PreparedClass;
pub use texts::copy_of;
pub use written::{fresh_text, longest};
