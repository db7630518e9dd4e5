// Places in a file: from offsets to lines and columns.
ghost use Rattle.std.specs.Prelude.{◌≡◌, ◌++◌, ◌∷◌, ◌⊎◌, ℕ, List, [], length, take};
ghost use Rattle.std.specs.Str.{IsUtf8, IsValidUpTo, chars, encode_utf8_all};
ghost use Rattle.rnc_model.specs.characters.Decoding.{byte_length, BreaksCharactersAt, BreaksUtf8At, Decodes, IsSpelling};
ghost use Rattle.rnc_model.specs.characters.FilePlaces as places;
ghost use Rattle.rnc_model.specs.characters.FilePlaces.{IsPlaceBehind, IsPlaceBetween};
ghost use Rattle.rnc_model.specs.declared.character.Character.{Character};

use crate::character::split_first;
use crate::decoding::front;
use rnc_model::{Character, FilePlace};

/// Whether the text begins with an LF.
fn starts_with_line_feed(text: &str) -> bool
    ensures { result ≡ places.starts_with_line_feed (chars text.now) }
{
    match split_first(text) {
        Some((first, _)) => first == '\n',
        None => false,
    }
}

/// Whether a line ends after the character, which this text follows.
fn ends_line(character: char, rest: &str) -> bool
    ensures { result ≡ places.ends_line character (chars rest.now) }
{
    match character {
        '\n' => true,
        '\r' => !starts_with_line_feed(rest),
        _ => false,
    }
}

/// The place in a text before its last `left` bytes.
fn place_before(text: &str, left: usize) -> FilePlace
    ensures { (before after : List ℕ) → chars text.now ≡ before ++ after → length (encode_utf8_all after) ≡ left → IsPlaceBetween before after result }
{
    let mut line = 1u64;
    let mut column = 1u64;
    let mut rest = text;
    'characters: while rest.len() > left {
        let Some((character, after)) = split_first(rest) else {
            break 'characters;
        };
        if ends_line(character, after) {
            line += 1;
            column = 1;
        } else {
            column += 1;
        }
        rest = after;
    }
    FilePlace {
        offset: (text.len() - rest.len()) as u64,
        line,
        column,
    }
}

/// Length of the character in the decoded text, in bytes.
fn decoded_length(character: Character) -> usize
    ensures { result ≡ byte_length (character ∷ []) }
{
    match character {
        Character::LineEnd => 1,
        Character::Ordinary(character) => character.len_utf8(),
    }
}

/// Length in bytes of the text after its first characters, whose decoded text has `count` bytes.
fn left_behind(text: &str, count: usize) -> usize
    ensures { (front : List Character) (after : List ℕ) → Decodes (chars text.now) front after → byte_length front ≡ count
        → result ≡ length (encode_utf8_all after) }
{
    let mut rest = text;
    let mut more = count;
    'rest: while more > 0 {
        let Some((character, after)) = front(rest) else {
            break 'rest;
        };
        more = more.saturating_sub(decoded_length(character));
        rest = after;
    }
    rest.len()
}

/// The longest front of the bytes that is UTF-8.
fn valid_front(bytes: &[u8]) -> &str
    ensures whole { IsUtf8 bytes.now → result.now ≡ bytes.now }
    ensures front { (offset : ℕ) → ¬ (IsUtf8 bytes.now) → IsValidUpTo bytes.now offset → result.now ≡ take offset bytes.now }
{
    match simdutf8::compat::from_utf8(bytes) {
        Ok(text) => text,
        Err(fault) => {
            let (front, _) = bytes.split_at(fault.valid_up_to());
            match str::from_utf8(front) {
                Ok(text) => text,
                Err(_) => unreachable!(),
            }
        }
    }
}

/// Returns the place in a file of an offset that a fault of `read_text` reports.
///
/// For any other offset it returns some place in the file, and the contract does not say which. Takes linear time.
pub fn place_at(file: &[u8], offset: u64) -> FilePlace
    // If the bytes from the offset on are not UTF-8, the place is after the characters before the offset.
    ensures utf8 { BreaksUtf8At file.now offset → (front : List ℕ) × IsSpelling (take offset file.now) front × IsPlaceBetween front [] result }
    // If no character begins at the offset, the place is after the characters before the offset.
    ensures characters { BreaksCharactersAt file.now offset → (front : List Character) × IsPlaceBehind file.now front result }
    // In both cases the place has this offset.
    ensures offset { BreaksUtf8At file.now offset ⊎ BreaksCharactersAt file.now offset → result.offset ≡ offset }
{
    let text = valid_front(file);
    place_before(text, text.len().saturating_sub(offset as usize))
}

/// Returns the place in a file of an offset in bytes of its decoded text.
///
/// If the file has no decoded text, or no character begins at the offset, it returns some place in the file, and the
/// contract does not say which. Takes linear time.
pub fn place_of_decoded(file: &[u8], offset: usize) -> FilePlace
    // The place is after the characters that have `offset` bytes in the decoded text.
    ensures { (front : List Character) (numbers after : List ℕ) → IsSpelling file.now numbers → Decodes numbers front after → byte_length front ≡ offset
        → IsPlaceBehind file.now front result }
{
    let text = valid_front(file);
    place_before(text, left_behind(text, offset))
}
