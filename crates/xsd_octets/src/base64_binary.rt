// base64Binary: four characters for each three octets.
ghost use Rattle.std.specs.Prelude.{◌≡◌, ◌∷◌, [], ◌<◌, ◌*◌, ◌/◌, MatchOption, length};
ghost use Rattle.std.specs.Option.{option_map};
ghost use Rattle.std.specs.Str.{bytes_eq};
ghost use Rattle.rng_model.specs.datatypes.Texts.{collapse, text as as_text, are_equal};
ghost use Rattle.rng_model.specs.xsd.primitives.Octets.{is_b64, is_b16, is_b04, without_blanks, base64_binary_of, base64_length};
ghost use Rattle.xsd_octets.specs.plain.Base64Characters.{character_count};
ghost use Rattle.xsd_octets.specs.views.Places.{after, is_end};

use rng_types::past_blanks;

/// What a last group ends with where it has fewer than four characters.
const PADDING: u8 = b'=';

// where a reader of groups of four characters is
#[derive(Clone, Copy)]
enum Place {
    // before a group
    First,
    // behind one character of it
    Second,
    // behind two of them; the group may end here if the second one writes two bits and four zeros
    Third { may_end: bool },
    // behind three of them; the group may end here if the third one writes four bits and two zeros
    Fourth { may_end: bool },
    // before the second `=` of a last group
    Padding,
    // behind a last group with `=`
    End,
}

impl Place {
    // the place behind the character, if it may stand here
    fn after(self, byte: u8) -> Option<Place>
        ensures { result ≡ after self byte }
    {
        match self {
            Place::First if is_b64(byte) => Some(Place::Second),
            Place::Second if is_b64(byte) => Some(Place::Third {
                may_end: is_b04(byte),
            }),
            Place::Third { .. } if is_b64(byte) => Some(Place::Fourth {
                may_end: is_b16(byte),
            }),
            Place::Third { may_end: true } if byte == PADDING => Some(Place::Padding),
            Place::Fourth { .. } if is_b64(byte) => Some(Place::First),
            Place::Fourth { may_end: true } | Place::Padding if byte == PADDING => Some(Place::End),
            _ => None,
        }
    }

    // whether a text may end here
    fn is_end(self) -> bool
        ensures { result ≡ is_end self }
    {
        matches!(self, Place::First | Place::End)
    }
}

// whether the character writes six bits
fn is_b64(byte: u8) -> bool
    ensures { result ≡ is_b64 byte }
{
    matches!(byte, b'A'..=b'Z' | b'a'..=b'z' | b'0'..=b'9' | b'+' | b'/')
}

// whether the character writes four bits and two zeros
fn is_b16(byte: u8) -> bool
    ensures { result ≡ is_b16 byte }
{
    b"AEIMQUYcgkosw048".contains(&byte)
}

// whether the character writes two bits and four zeros
fn is_b04(byte: u8) -> bool
    ensures { result ≡ is_b04 byte }
{
    matches!(byte, b'A' | b'Q' | b'g' | b'w')
}

// the next byte that is no blank, and the bytes behind it
fn next_character(bytes: &[u8]) -> Option<(u8, &[u8])>
    ensures { MatchOption result (without_blanks bytes.now ≡ [])
        (λ p. (without_blanks bytes.now ≡ p.0 ∷ without_blanks p.1.now) × (length p.1.now < length bytes.now)) }
{
    match past_blanks(bytes) {
        [] => None,
        [byte, behind @ ..] => Some((*byte, behind)),
    }
}

// how many characters without the padding the text has, if it writes octets
fn character_count(text: &str) -> Option<usize>
    ensures { result ≡ option_map character_count (base64_binary_of (collapse text.now)) }
{
    let mut place = Place::First;
    let mut count = 0;
    let mut rest = text.as_bytes();
    'characters: while let Some((byte, behind)) = next_character(rest) {
        place = place.after(byte)?;
        count += usize::from(byte != PADDING);
        rest = behind;
    }
    if place.is_end() { Some(count) } else { None }
}

// three octets for each four characters
fn octet_count(characters: usize) -> usize
    ensures { result ≡ characters * 3 / 4 }
{
    characters - characters.div_ceil(4)
}

/// Returns how many octets the text writes as a `base64Binary`. Returns `None` if it writes none as such: if it is not groups of
/// four characters, the last one perhaps with padding, or if a last group with padding has bits left over that are not zeros.
/// Blanks may stand anywhere. A text of blanks alone writes no octets, which is `Some(0)`. One pass over the text. Allocates
/// nothing.
///
/// XML Schema Part 2, Second Edition, sections 3.2.16 and 4.3.1.
pub fn base64_binary_len(text: &str) -> Option<usize>
    ensures { result ≡ option_map base64_length (base64_binary_of (collapse text.now)) }
{
    match character_count(text) {
        Some(count) => Some(octet_count(count)),
        None => None,
    }
}

// whether the texts are the same but for blanks
fn is_same_without_blanks(a: &[u8], b: &[u8]) -> bool
    ensures { result ≡ bytes_eq (without_blanks a.now) (without_blanks b.now) }
{
    let (mut left, mut right) = (a, b);
    'characters: while let Some((byte, after)) = next_character(left) {
        match next_character(right) {
            Some((other, behind)) if byte == other => {
                left = after;
                right = behind;
            }
            _ => return false,
        }
    }
    next_character(right).is_none()
}

/// Returns whether both texts write octets as a `base64Binary`, and the same ones. At most two passes over each text. Allocates
/// nothing.
///
/// XML Schema Part 2, Second Edition, section 3.2.16.
pub fn is_same_base64_binary(a: &str, b: &str) -> bool
    ensures { result ≡ are_equal (option_map as_text (base64_binary_of (collapse a.now))) (option_map as_text (base64_binary_of (collapse b.now))) }
{
    character_count(a).is_some() && is_same_without_blanks(a.as_bytes(), b.as_bytes())
}
