// Words of ASCII letters, digits, `_`, `-` and `.`.
ghost use Rattle.std.specs.Prelude.{◌≡◌, ℕ, List, MatchOption};
ghost use Rattle.std.specs.List.{list_all, prefix_len};
ghost use Rattle.rng_types.specs.plain.Words.{IsWordOf, is_start_byte, is_word_byte, starts_name};

use crate::runs::{is_blank, past_blanks};

// whether the byte is an ASCII letter or `_`
fn is_start_byte(byte: u8) -> bool
    ensures { result ≡ is_start_byte byte }
{
    matches!(byte, b'A'..=b'Z' | b'_' | b'a'..=b'z')
}

// whether the byte is one of a word
fn is_word_byte(byte: u8) -> bool
    ensures { result ≡ is_word_byte byte }
{
    is_start_byte(byte) || matches!(byte, b'-'..=b'.' | b'0'..=b'9')
}

// how many bytes of a word the bytes begin with
fn word_len(bytes: &[u8]) -> usize
    ensures { result ≡ prefix_len is_word_byte bytes.now }
{
    bytes.iter().take_while(|byte| is_word_byte(**byte)).count()
}

/// Returns whether each byte is one of a word: an ASCII letter or digit, `_`, `-` or `.`. One pass over them. Allocates nothing.
pub fn are_word_bytes(bytes: &[u8]) -> bool
    ensures { result ≡ list_all is_word_byte bytes.now }
{
    bytes.iter().all(|byte| is_word_byte(*byte))
}

/// Returns the word that the text collapses to. Returns `None` if it does not collapse to one or more ASCII letters, digits, `_`,
/// `-` and `.`, and in no other case. One pass over the text. Allocates nothing.
///
/// XML Schema Part 2, section 4.3.6, `collapse`.
pub fn ascii_word(text: &str) -> Option<&[u8]>
    ensures { MatchOption result ((w : List ℕ) → IsWordOf text.now w → ⊥) (λ w. IsWordOf text.now w.now) }
{
    let bytes = past_blanks(text.as_bytes());
    let (word, after) = bytes.split_at(word_len(bytes));
    if word.is_empty() || !is_blank(after) {
        return None;
    }
    Some(word)
}

/// Returns whether the word begins with an ASCII letter or `_`. Allocates nothing.
pub fn starts_name(word: &[u8]) -> bool
    ensures { result ≡ starts_name word.now }
{
    match word {
        [first, ..] => is_start_byte(*first),
        [] => false,
    }
}
