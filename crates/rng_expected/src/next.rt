// What may come next.
ghost use Rattle.std.specs.Prelude.{◌≡◌};
ghost use Rattle.rng_expected.specs.Expectations.{nothing};
ghost use Rattle.rng_expected.specs.views.Next.{next_of};

use rng_model::{Datatype, DatatypeValue, NameClass};
use std::alloc::Global;

/// What may come next behind a tag.
///
/// RELAX NG Specification, section 6.2. A name class, a value or a datatype is listed once for each pattern of the schema's
/// simple form that has it and may come, so it may be listed several times.
#[derive(Drop)]
pub struct Expected<'a> {
    /// The name classes of the elements that may start. A start with a name of none of them leaves nothing, whatever its
    /// attributes and its content.
    pub elements: Vec<&'a NameClass>,
    /// Whether a text that is not blank may come: any text, a list, a value or a text of a datatype.
    pub text: bool,
    /// The values, with their datatypes, of which the text may be.
    pub values: Vec<&'a DatatypeValue>,
    /// The datatypes of which the text may be. A text that the schema excepts from one of them is not told.
    pub datatypes: Vec<&'a Datatype>,
}

impl<'a> Expected<'a> {
    /// Returns that nothing may come. Allocates nothing.
    pub fn nothing(alloc: Global) -> Self
        ensures { next_of result ≡ nothing }
    {
        Expected {
            elements: Vec::new(alloc),
            text: false,
            values: Vec::new(alloc),
            datatypes: Vec::new(alloc),
        }
    }
}
