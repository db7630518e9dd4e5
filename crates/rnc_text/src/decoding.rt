// From the bytes of a file to characters.
ghost use Rattle.std.specs.Prelude.{◌≡◌, ◌++◌, ◌≤◌, List, length, option_map, IfOk, IfErr, ℕ, true, false};
ghost use Rattle.std.specs.List.{list_all, prefix_len};
ghost use Rattle.std.specs.Str.{chars};
ghost use Rattle.rng_model.specs.names.Names.{is_xml_char};
ghost use Rattle.rnc_model.specs.characters.Decoding.{Decodes, IsDecoded, BreaksCharactersAt};
ghost use Rattle.rnc_model.specs.characters.BrokenTexts.{BreaksTextAt};
ghost use Rattle.rnc_text.specs.views.Answers.{IfBroken, GivesOk, GivesFault};
ghost use Rattle.rnc_text.specs.plain.DecodingSteps.{without_line_feed, opens_from, escape_front, front_of, is_plain_byte};
ghost use Rattle.rnc_model.specs.declared.character.Character.{Character};

use crate::character::split_first;
use crate::fault::TextFault;
use crate::hexadecimal::hexadecimal;
use crate::text::Text;
use rnc_model::Character;
use rng_model::is_xml_char;
use std::alloc::{AllocError, Global};

/// The text after a CR, without the LF that belongs to the same line end.
#[tactic(auto, unfolding(crate::specs::plain::DecodingSteps::without_line_feed))]
fn skip_line_feed(text: &str) -> &str
    ensures { chars result.now ≡ without_line_feed (chars text.now) }
{
    match split_first(text) {
        Some(('\n', after)) => after,
        _ => text,
    }
}

/// Whether the text begins with one `x` or more and an opening brace.
fn opens_escape(text: &str) -> bool
    ensures { result ≡ opens_from false (chars text.now) }
{
    let mut rest = text;
    let mut any = false;
    'letters: while let Some((character, after)) = split_first(rest) {
        match character {
            'x' => any = true,
            '{' => return any,
            _ => return false,
        }
        rest = after;
    }
    false
}

/// Reads an escape after its backslash. Returns its character and the text after it.
#[tactic(auto, unfolding(crate::specs::plain::DecodingSteps::escape_front))]
fn escape(text: &str) -> Option<(Character, &str)>
    ensures { option_map (λ x. (x.0, chars x.1.now)) result ≡ escape_front (chars text.now) }
{
    let ('x', braced) = split_first(text)? else {
        return None;
    };
    let ('{', digits) = split_first(braced)? else {
        return None;
    };
    let (number, after) = hexadecimal(digits)?;
    let character = char::from_u32(number)?;
    if is_xml_char(character) {
        Some((Character::Ordinary(character), after))
    } else {
        None
    }
}

/// Returns the first character of the text, its escape replaced, and the text after it.
#[tactic(auto, unfolding(crate::specs::plain::DecodingSteps::front_of))]
pub fn front(text: &str) -> Option<(Character, &str)>
    ensures { option_map (λ x. (x.0, chars x.1.now)) result ≡ front_of (chars text.now) }
{
    let (first, after) = split_first(text)?;
    match first {
        '\r' => Some((Character::LineEnd, skip_line_feed(after))),
        '\n' => Some((Character::LineEnd, after)),
        '\\' if opens_escape(after) => escape(after),
        _ if is_xml_char(first) => Some((Character::Ordinary(first), after)),
        _ => None,
    }
}

/// Whether a decoded text has this byte of a file as it is. Such a byte is a whole ASCII character, and no escape begins
/// with it.
fn is_plain(byte: u8) -> bool
    ensures { result ≡ is_plain_byte byte }
{
    matches!(byte, b'\t'..=b'\n' | b' '..=b'[' | b']'..=b'~')
}

/// Returns how many bytes at the beginning a decoded text has as they are.
fn plain_len(text: &str) -> usize
    ensures { result ≡ prefix_len is_plain_byte text.now }
{
    text.bytes().take_while(|b| is_plain(*b)).count()
}

/// Splits off the longest beginning that a decoded text has as it is.
fn split_plain(text: &str) -> (&str, &str)
    ensures whole { text.now ≡ result.0.now ++ result.1.now }
    ensures plain { list_all is_plain_byte result.0.now ≡ true }
{
    text.split_at(plain_len(text))
}

/// Appends the longest beginning that a decoded text has as it is, in one copy. Returns the text after it.
fn past_plain<'a>(decoded: &mut Text, text: &'a str) -> Result<&'a str, AllocError>
    ensures decoded { IfOk result (λ rest. (all : List ℕ) → Decodes all decoded.old (chars text.now) → Decodes all decoded.new (chars rest.now)) }
    ensures within { IfOk result (λ rest. length rest.now ≤ length text.now) }
{
    let (plain, rest) = split_plain(text);
    decoded.append(plain)?;
    Ok(rest)
}

/// Decodes a text whose escapes are not replaced yet.
fn decode(alloc: Global, text: &str) -> Result<Text, TextFault>
    ensures found { IfOk result (λ t. IsDecoded text.now t) }
    ensures fault { IfErr result (IfBroken (λ clause offset. (clause ≡ 4) × BreaksCharactersAt text.now offset)) }
{
    let mut decoded = Text::new(alloc);
    let mut rest = past_plain(&mut decoded, text)?;
    'rest: while !rest.is_empty() {
        let Some((character, after)) = front(rest) else {
            return Err(TextFault::At {
                clause: 4,
                offset: (text.len() - rest.len()) as u64,
            });
        };
        decoded.push(character)?;
        rest = past_plain(&mut decoded, after)?;
    }
    Ok(decoded)
}

/// Decodes the bytes of a file.
///
/// Replaces escapes, and makes each line end one LF.
///
/// Fails with clause 3 if the bytes are not UTF-8. Otherwise fails with clause 4 at a character that XML does not allow
/// or at a bad escape. The offset of a fault is the first such offset in the file, in bytes. Fails with `Memory` only
/// when out of memory. Takes linear time. RELAX NG Compact Syntax, "Lexical structure".
pub fn read_text(alloc: Global, bytes: &[u8]) -> Result<Text, TextFault>
    // The result is the decoded text of the bytes.
    ensures found { IfOk result (λ t. IsDecoded bytes.now t) }
    // If the bytes have a decoded text, the call returns it, unless it is out of memory.
    ensures only { (cs : List Character) → IsDecoded bytes.now cs → GivesOk (λ t. t) result cs }
    // The decoding is unique.
    ensures one { (cs ds : List Character) → IsDecoded bytes.now cs → IsDecoded bytes.now ds → cs ≡ ds }
    // A fault reports a clause that is broken at its offset.
    ensures fault { IfErr result (IfBroken (BreaksTextAt bytes.now)) }
    // If a clause is broken, the call reports it with its offset, unless it is out of memory.
    ensures broken { (clause offset : ℕ) → BreaksTextAt bytes.now clause offset → GivesFault result clause offset }
{
    match simdutf8::compat::from_utf8(bytes) {
        Ok(text) => decode(alloc, text),
        Err(fault) => Err(TextFault::At {
            clause: 3,
            offset: fault.valid_up_to() as u64,
        }),
    }
}
