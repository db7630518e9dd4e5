// A decoded text.
ghost use Rattle.std.specs.Prelude.{◌≡◌, ◌++◌, ◌∷◌, [], List, IfOk, map};
ghost use Rattle.std.specs.Str.{chars};
ghost use Rattle.std.specs.String.{string_bytes};
ghost use Rattle.rnc_model.specs.characters.Decoding.{bytes_of};
ghost use Rattle.rnc_text.specs.views.Held.{unmarked, with_marks, AreMarks};
ghost use Rattle.rnc_model.specs.declared.character.Character.{Character};

use rnc_model::Character;
use std::alloc::{AllocError, Global};
use std::marker::Model;

/// The decoded text of a schema in compact syntax: escapes are replaced, and each line end is one LF.
///
/// It also keeps which LFs are written as escapes, since these end no line.
#[derive(Debug, Drop)]
pub struct Text {
    text: String,
    /// Offsets in bytes of the LFs that are written as escapes, in order.
    escaped: Vec<usize>,
}

impl Model for Text {
    ghost Value = { List Character };

    ghost view = { λ t. with_marks (string_bytes t.text) t.escaped.items };

    ghost invariant = { λ t. AreMarks (string_bytes t.text) t.escaped.items };
}

impl Text {
    /// Creates an empty text. Allocates nothing.
    pub(crate) fn new(alloc: Global) -> Text
        ensures { result ≡ [] }
    {
        Text {
            text: String::new(alloc),
            escaped: Vec::new(alloc),
        }
    }

    /// Appends a character. Fails only when out of memory.
    pub(crate) fn push(&mut self, character: Character) -> Result<(), AllocError>
        ensures { IfOk result (λ _. self.new ≡ self.old ++ character ∷ []) }
    {
        match character {
            Character::LineEnd => self.text.push('\n'),
            Character::Ordinary('\n') => {
                let offset = self.text.len();
                self.text.push('\n')?;
                self.escaped.push(offset)?;
                Ok(())
            }
            Character::Ordinary(character) => self.text.push(character),
        }
    }

    /// Appends the characters of a text. Each LF is a line end. Fails only when out of memory.
    pub(crate) fn append(&mut self, characters: &str) -> Result<(), AllocError>
        ensures { IfOk result (λ _. self.new ≡ self.old ++ map unmarked (chars characters.now)) }
    {
        self.text.push_str(characters)
    }

    /// Returns the decoded text, in UTF-8. Allocates nothing, and costs no pass over the text.
    pub fn as_str(&self) -> &str
        ensures { result.now ≡ bytes_of self.now }
    {
        self.text.as_str()
    }

    /// Returns the offsets in bytes of the LFs that are written as escapes, in order.
    pub(crate) fn escaped(&self) -> &[usize]
        ensures { with_marks (bytes_of self.now) result.now ≡ self.now }
    {
        self.escaped.as_slice()
    }
}
