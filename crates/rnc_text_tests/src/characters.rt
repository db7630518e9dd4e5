// The characters of ASCII bytes, by a plain program that follows the definitions.
use rnc_text::Character;
use rng_model::is_xml_char;
use std::alloc::{AllocError, Global};

/// Returns whether the bytes begin with one `x` or more and an opening brace.
fn opens(bytes: &[u8]) -> bool {
    for (at, byte) in bytes.iter().enumerate() {
        if *byte != b'x' {
            return *byte == b'{' && at > 0;
        }
    }
    false
}

/// Returns the number that some hexadecimal digits write.
fn number(digits: &[u8]) -> Option<u32> {
    let mut number = 0u32;
    for digit in digits {
        number = number
            .wrapping_mul(16)
            .wrapping_add((*digit as char).to_digit(16)?);
    }
    Some(number)
}

/// Returns the escape at the front, and the number of its bytes.
fn plain_escape(bytes: &[u8]) -> Option<(Character, usize)> {
    for n in 1..7usize {
        let Some(end) = bytes.get(n + 3) else {
            return None;
        };
        if bytes.starts_with(b"\\x{") && *end == b'}' {
            let c = char::from_u32(number(&bytes[3..n + 3])?)?;
            return if is_xml_char(c) {
                Some((Character::Ordinary(c), n + 4))
            } else {
                None
            };
        }
    }
    None
}

/// Returns the character at the front, and the number of its bytes.
fn plain_front(bytes: &[u8]) -> Option<(Character, usize)> {
    match bytes {
        [b'\r', b'\n', ..] => Some((Character::LineEnd, 2)),
        [b'\r' | b'\n', ..] => Some((Character::LineEnd, 1)),
        [b'\\', rest @ ..] if opens(rest) => plain_escape(bytes),
        [byte, ..] if is_xml_char(*byte as char) => Some((Character::Ordinary(*byte as char), 1)),
        _ => None,
    }
}

/// Returns the characters of ASCII bytes, and the offset where they end too early, if they do.
pub fn plain_characters(
    alloc: Global,
    bytes: &[u8],
) -> Result<(Vec<Character>, Option<usize>), AllocError> {
    let mut all = Vec::new(alloc);
    let mut left = 0usize;
    for at in 0..bytes.len() {
        if left > 0 {
            left -= 1;
            continue;
        }
        let Some((character, n)) = plain_front(&bytes[at..]) else {
            return Ok((all, Some(at)));
        };
        all.push(character)?;
        left = n.saturating_sub(1);
    }
    Ok((all, None))
}

/// Returns whether a text consists of these characters, all of them ASCII. Its tokens show which of its LFs end a line.
pub fn is_text_of(text: &str, cs: &[Character]) -> bool {
    for (byte, character) in text.as_bytes().iter().zip(cs.iter()) {
        let wanted = match character {
            Character::LineEnd => '\n',
            Character::Ordinary(c) => *c,
        };
        if *byte as char != wanted {
            return false;
        }
    }
    text.len() == cs.len()
}
