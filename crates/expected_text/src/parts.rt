// Parts of the text of a name class that are still to be written.
ghost use Rattle.std.specs.Prelude.{◌≡◌};
ghost use Rattle.expected_text.specs.plain.Parts.{back, front};

use rng_model::NameClass;

/// Where a class is written.
#[derive(Clone, Copy)]
pub(crate) enum Place {
    /// On a line of its own, as names of elements.
    Element,
    /// On a line of its own, as names of attributes.
    Attribute,
    /// In an except, before a space.
    Except,
}

impl Place {
    /// Returns what is before a class.
    pub(crate) fn front(self) -> &'static str
        ensures { result.now ≡ front self }
    {
        match self {
            Place::Element => "element ",
            Place::Attribute => "attribute ",
            Place::Except => "",
        }
    }

    /// Returns what is behind a class.
    pub(crate) fn back(self) -> &'static str
        ensures { result.now ≡ back self }
    {
        match self {
            Place::Element | Place::Attribute => "\n",
            Place::Except => " ",
        }
    }
}

/// What is still to be written.
#[derive(Clone, Copy)]
pub(crate) enum Part<'a> {
    /// The class, or each member if it is a choice.
    Class(Place, &'a NameClass),
    /// Each of the classes.
    Members(Place, &'a [NameClass]),
    /// These words.
    Words(&'a str),
}
