// What begins at an offset of a text: a blank, a comment or a token, each the longest.
ghost use Rattle.std.specs.Prelude.{◌≡◌, ◌∷◌, [], List, Some};
ghost use Rattle.rng_model.specs.names.Names.{is_name_start, is_name_char};
ghost use Rattle.rnc_model.specs.characters.Decoding.{number_of, bytes_of};
ghost use Rattle.rnc_model.specs.tokens.Tokens.{three, word_kind};
ghost use Rattle.std.specs.List.{prefix_len};
ghost use Rattle.rnc_text.specs.plain.CutSteps.{starts_ncname, is_in, is_ascii_in, begins_ncname, front, after, behind, behind_three, until_three, star_at, first_of, long_sign, name_at, quoted_at, segment_at, triple_at, sign_at, piece_of};
ghost use Rattle.rnc_text.specs.plain.Cursors.{remaining, IsPast, IsBefore, told, FindsPart, Finds, FindsBehind, FindsContent};
ghost use Rattle.rnc_text.specs.declared.cursor.Cursor.{Cursor};
ghost use Rattle.rnc_model.specs.declared.character.Character.{Character};
ghost use Rattle.rnc_model.specs.declared.character.Character.TheVariants.{Ordinary};

use crate::cursor::Cursor;
use crate::table::{double_sign, single_sign, word_kind};
use rnc_model::{Character, TokenKind};
use rng_model::{is_name_char, is_name_start};

/// A set of characters. A piece contains a longest run of them.
#[derive(Clone, Copy)]
pub enum Class {
    /// The characters of an NCName after its first one.
    Ncname,
    /// All characters except a line end.
    Line,
    /// All characters except a line end and this quote.
    Segment(char),
}

/// The piece that begins at an offset.
#[derive(Clone, Copy)]
pub enum Part<'a> {
    /// A blank or a comment.
    Gap,
    /// A token with its kind and its text, without quotes and backslash.
    Token(TokenKind, &'a str),
}

/// The Unicode character of a decoded character.
fn plain(character: Character) -> char
    ensures { result ≡ number_of character }
{
    match character {
        Character::LineEnd => '\n',
        Character::Ordinary(c) => c,
    }
}

/// Whether an NCName may begin with the character.
fn starts_ncname(c: char) -> bool
    ensures { result ≡ starts_ncname c }
{
    is_name_start(c) && c != ':'
}

/// Whether the character is one of the class.
fn is_in(class: Class, character: Character) -> bool
    ensures { result ≡ is_in class character }
{
    match (class, character) {
        (_, Character::LineEnd) => false,
        (Class::Ncname, Character::Ordinary(c)) => is_name_char(c) && c != ':',
        (Class::Line, Character::Ordinary(_)) => true,
        (Class::Segment(quote), Character::Ordinary(c)) => c != quote,
    }
}

/// Whether the byte is an ASCII character of the class, other than a control character.
fn is_ascii_in(class: Class, byte: u8) -> bool
    ensures { result ≡ is_ascii_in class byte }
{
    match class {
        Class::Ncname => {
            matches!(byte, b'A'..=b'Z' | b'_' | b'a'..=b'z')
                || matches!(byte, b'-'..=b'.' | b'0'..=b'9')
        }
        Class::Line => matches!(byte, b' '..=b'~'),
        Class::Segment(quote) => matches!(byte, b' '..=b'~') && char::from(byte) != quote,
    }
}

/// Returns how many bytes at the beginning of the text are ASCII characters of the class.
pub fn ascii_len(class: Class, text: &str) -> usize
    ensures { result ≡ prefix_len (is_ascii_in class) text.now }
{
    text.bytes().take_while(|b| is_ascii_in(class, *b)).count()
}

/// Whether an NCName begins at the cursor.
fn begins_ncname(from: Cursor<'_>) -> bool
    ensures { result ≡ begins_ncname (remaining from.entry) }
{
    match from.step() {
        Some((Character::Ordinary(c), _)) => starts_ncname(c),
        _ => false,
    }
}

/// Moves past all characters of the class at the cursor.
fn past(from: Cursor<'_>, class: Class) -> Cursor<'_>
    ensures past { IsPast from.entry (front class (remaining from.entry)) result }
    ensures rest { remaining result ≡ after class (remaining from.entry) }
{
    let mut to = from.past_ascii(class);
    'characters: while let Some((character, next)) = to.step() {
        if !is_in(class, character) {
            return to;
        }
        to = next;
    }
    to
}

/// Moves past this character, if it is at the cursor.
fn behind(from: Cursor<'_>, wanted: char) -> Option<Cursor<'_>>
    ensures { FindsBehind from.entry result (Ordinary wanted ∷ []) (behind wanted (remaining from.entry)) }
{
    match from.step()? {
        (Character::Ordinary(c), after) if c == wanted => Some(after),
        _ => None,
    }
}

/// Moves past three quotes, if they are at the cursor.
fn behind_three(from: Cursor<'_>, quote: char) -> Option<Cursor<'_>>
    ensures { FindsBehind from.entry result (three quote []) (behind_three quote (remaining from.entry)) }
{
    let second = behind(from, quote)?;
    let third = behind(second, quote)?;
    behind(third, quote)
}

/// Returns the cursors before and after the first three quotes from the cursor on.
fn until_three(from: Cursor<'_>, quote: char) -> Option<(Cursor<'_>, Cursor<'_>)>
    ensures { FindsContent from.entry result quote (until_three quote (remaining from.entry)) }
{
    let mut end = from;
    'characters: while let Some((_, next)) = end.step() {
        if let Some(after) = behind_three(end, quote) {
            return Some((end, after));
        }
        end = next;
    }
    None
}

/// Returns the word between two cursors, and the second cursor.
fn word<'a>(from: Cursor<'a>, end: Cursor<'a>) -> (Part<'a>, Cursor<'a>)
    requires { IsBefore from end }
    ensures part { (taken : List Character) → IsPast from.entry taken end.entry → told result.0 ≡ Some (word_kind taken, bytes_of taken) }
    ensures end { result.1 ≡ end.entry }
{
    let word = from.text_to(end);
    (Part::Token(word_kind(word), word), end)
}

/// Returns the CName or nsName whose first NCName ends at `end`, or that NCName alone as a word. A colon is at `end`,
/// and `local` is after it.
fn qualified<'a>(from: Cursor<'a>, end: Cursor<'a>, local: Cursor<'a>) -> (Part<'a>, Cursor<'a>)
    requires name { IsBefore from end }
    requires colon { IsPast end (Ordinary 0x3A ∷ []) local }
    ensures { (name : List Character) → IsPast from.entry name end.entry → FindsPart from.entry result.0 result.1 (star_at name (remaining end.entry) (remaining local.entry) (behind 0x2A (remaining local.entry))) }
{
    if let Some(after) = behind(local, '*') {
        return (Part::Token(TokenKind::NsName, from.text_to(after)), after);
    }
    if begins_ncname(local) {
        let after = past(local, Class::Ncname);
        return (Part::Token(TokenKind::CName, from.text_to(after)), after);
    }
    word(from, end)
}

/// Returns the word, CName or nsName whose first NCName begins at the cursor, and the cursor after it.
fn name(from: Cursor<'_>) -> (Part<'_>, Cursor<'_>)
    ensures { FindsPart from.entry result.0 result.1 (name_at (remaining from.entry)) }
{
    let end = past(from, Class::Ncname);
    match behind(end, ':') {
        Some(local) => qualified(from, end, local),
        None => word(from, end),
    }
}

/// Returns the quoted identifier whose name begins at the cursor, after its backslash.
fn quoted_identifier(name: Cursor<'_>) -> Option<(Part<'_>, Cursor<'_>)>
    ensures { (from : Cursor) → IsPast from (Ordinary 0x5C ∷ []) name.entry → Finds from result (quoted_at (remaining name.entry)) }
{
    if !begins_ncname(name) {
        return None;
    }
    let end = past(name, Class::Ncname);
    Some((
        Part::Token(TokenKind::QuotedIdentifier, name.text_to(end)),
        end,
    ))
}

/// Returns the segment whose content begins at the cursor, after its first quote.
fn segment(content: Cursor<'_>, quote: char) -> Option<(Part<'_>, Cursor<'_>)>
    ensures { (from : Cursor) → IsPast from (Ordinary quote ∷ []) content.entry → Finds from result (segment_at quote (remaining content.entry)) }
{
    let end = past(content, Class::Segment(quote));
    let after = behind(end, quote)?;
    Some((Part::Token(TokenKind::Segment, content.text_to(end)), after))
}

/// Returns the triple segment whose second quote is at the cursor.
fn triple_segment(second: Cursor<'_>, quote: char) -> Option<(Part<'_>, Cursor<'_>)>
    ensures { (from : Cursor) → IsPast from (Ordinary quote ∷ []) second.entry → Finds from result (triple_at quote (remaining second.entry)) }
{
    let third = behind(second, quote)?;
    let content = behind(third, quote)?;
    let (end, after) = until_three(content, quote)?;
    Some((
        Part::Token(TokenKind::TripleSegment, content.text_to(end)),
        after,
    ))
}

/// Returns the sign of two characters that begins with this one. `after` is the cursor after the first character.
fn long_sign<'a>(from: Cursor<'a>, first: char, after: Cursor<'a>) -> Option<(Part<'a>, Cursor<'a>)>
    requires { IsPast from (Ordinary first ∷ []) after }
    ensures { Finds from.entry result (long_sign (Ordinary first) (first_of (remaining after.entry))) }
{
    let (second, end) = after.step()?;
    let sign = double_sign(first, plain(second))?;
    Some((Part::Token(TokenKind::Sign(sign), from.text_to(end)), end))
}

/// Returns the sign that begins with this character. `after` is the cursor after it.
fn sign<'a>(from: Cursor<'a>, first: char, after: Cursor<'a>) -> Option<(Part<'a>, Cursor<'a>)>
    requires { IsPast from (Ordinary first ∷ []) after }
    ensures { Finds from.entry result (sign_at (Ordinary first) (remaining after.entry)) }
{
    match long_sign(from, first, after) {
        Some(found) => Some(found),
        None => {
            let sign = single_sign(first)?;
            Some((
                Part::Token(TokenKind::Sign(sign), from.text_to(after)),
                after,
            ))
        }
    }
}

/// Returns the blank, comment or token that begins at the cursor, and the cursor after it.
pub fn piece(from: Cursor<'_>) -> Option<(Part<'_>, Cursor<'_>)>
    ensures { Finds from.entry result (piece_of (remaining from.entry)) }
{
    let (first, after) = from.step()?;
    match first {
        Character::LineEnd => Some((Part::Gap, after)),
        Character::Ordinary(c) if starts_ncname(c) => Some(name(from)),
        Character::Ordinary(' ' | '\t') => Some((Part::Gap, after)),
        Character::Ordinary('#') => Some((Part::Gap, past(after, Class::Line))),
        Character::Ordinary('\\') => quoted_identifier(after),
        Character::Ordinary(c @ ('"' | '\'')) => match triple_segment(after, c) {
            Some(found) => Some(found),
            None => segment(after, c),
        },
        Character::Ordinary(c) => sign(from, c, after),
    }
}
