// Cursors in a decoded text.
ghost use Rattle.std.specs.Prelude.{◌≡◌, ◌-◌, ◌==◌, ◌∷◌, [], List, MatchOption, option_map, length};
ghost use Rattle.rnc_model.specs.characters.Decoding.{bytes_of};
ghost use Rattle.rnc_text.specs.views.Held.{unmarked, next_marks};
ghost use Rattle.rnc_text.specs.plain.Cursors.{remaining, IsPast, IsBefore, Walks};
ghost use Rattle.rnc_model.specs.declared.character.Character.{Character};

use crate::character::split_first;
use crate::scanning::{Class, ascii_len};
use crate::text::Text;
use rnc_model::Character;

/// The character of the decoded text that is not written as an escape.
fn unmarked(first: char) -> Character
    ensures { result ≡ unmarked first }
{
    if first == '\n' {
        Character::LineEnd
    } else {
        Character::Ordinary(first)
    }
}

/// An offset in a decoded text, with the text from there on.
#[derive(Clone, Copy)]
pub struct Cursor<'a> {
    /// Length of the whole text in bytes.
    length: usize,
    /// The text from the cursor on.
    rest: &'a str,
    /// Offsets in bytes of the LFs from the cursor on that are written as escapes.
    escaped: &'a [usize],
}

impl<'a> Cursor<'a> {
    /// Creates a cursor at the start of the text.
    pub fn new(text: &'a Text) -> Cursor<'a>
        ensures characters { remaining result ≡ text.now }
        ensures bytes { result.rest.now ≡ bytes_of text.now }
        ensures whole { result.length ≡ length result.rest.now }
    {
        let rest = text.as_str();
        let length = rest.len();
        Cursor {
            length,
            rest,
            escaped: text.escaped(),
        }
    }

    /// Whether the cursor is at the end of the text.
    pub fn is_at_end(self) -> bool
        ensures { result ≡ (length self.entry.rest.now == 0) }
    {
        self.rest.is_empty()
    }

    /// Offset of the cursor in the text, in bytes.
    pub fn offset(self) -> usize
        ensures { result ≡ self.entry.length - length self.entry.rest.now }
    {
        // The rest is a part of the text, so the subtraction never saturates.
        self.length.saturating_sub(self.rest.len())
    }

    /// Returns the remaining offsets after the cursor, if the LF at the cursor is written as an escape.
    fn marks_behind(self) -> Option<&'a [usize]>
        ensures { option_map (λ x. x.now) result ≡ next_marks (self.entry.length - length self.entry.rest.now) self.entry.escaped.now }
    {
        match self.escaped {
            [mark, marks @ ..] if *mark == self.offset() => Some(marks),
            _ => None,
        }
    }

    /// Returns the character at the cursor and the cursor after it, or `None` at the end.
    pub fn step(self) -> Option<(Character, Cursor<'a>)>
        ensures { MatchOption result (remaining self.entry ≡ []) (λ x. IsPast self.entry (x.0 ∷ []) x.1) }
    {
        let (first, rest) = split_first(self.rest)?;
        let length = self.length;
        match self.marks_behind() {
            Some(escaped) => {
                let after = Cursor {
                    length,
                    rest,
                    escaped,
                };
                Some((Character::Ordinary(first), after))
            }
            None => {
                let after = Cursor { rest, ..self };
                Some((unmarked(first), after))
            }
        }
    }

    /// Moves past the ASCII characters of the class at the cursor, unless an escape writes an LF from there on.
    pub fn past_ascii(self, class: Class) -> Cursor<'a>
        ensures { Walks class self.entry result }
    {
        if !self.escaped.is_empty() {
            return self;
        }
        let (_, rest) = self.rest.split_at(ascii_len(class, self.rest));
        Cursor { rest, ..self }
    }

    /// Returns the text between this cursor and a later one.
    pub fn text_to(self, end: Cursor<'a>) -> &'a str
        requires { IsBefore self end }
        ensures { (taken : List Character) → IsPast self.entry taken end.entry → result.now ≡ bytes_of taken }
    {
        let (text, _) = self.rest.split_at(self.rest.len() - end.rest.len());
        text
    }
}
