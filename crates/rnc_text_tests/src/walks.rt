// Short texts against the plain program.
use crate::characters::{is_text_of, plain_characters};
use crate::pieces::plain_tokens;
use rnc_text::{Character, Text, TextFault, Token, TokenKind, read_text, tokens};
use std::alloc::{AllocError, Global};

/// The parts of the texts.
const LETTERS: [&str; 19] = [
    "\\", "x", "{", "}", "\\x{A}", "\\x{5c}", "\\x{22}", "\"", "'", "#", " ", "\n", "\r", ":", "*",
    "|", "=", "-", "[",
];

/// Returns whether the tokens are these.
fn are_tokens(got: &[Token<'_>], wanted: &[(TokenKind, usize, usize)]) -> bool {
    for (token, (kind, start, end)) in got.iter().zip(wanted.iter()) {
        if token.kind != *kind || token.start != *start || token.end != *end {
            return false;
        }
    }
    got.len() == wanted.len()
}

/// Returns whether the tokens of a text are those of the plain program.
fn tokens_agree(alloc: Global, text: &Text, cs: &[Character]) -> Result<bool, AllocError> {
    let (wanted, stop) = plain_tokens(alloc, cs)?;
    Ok(match (tokens(alloc, text), stop) {
        (Ok(got), None) => are_tokens(got.as_slice(), wanted.as_slice()),
        (Err(TextFault::At { clause: 5, offset }), Some(at)) => offset == at as u64,
        _ => false,
    })
}

/// Returns whether both calls return what the plain program does, for ASCII bytes.
fn agrees(alloc: Global, bytes: &[u8]) -> Result<bool, AllocError> {
    let (cs, stop) = plain_characters(alloc, bytes)?;
    match (read_text(alloc, bytes), stop) {
        (Ok(text), None) => {
            let cs = cs.as_slice();
            Ok(is_text_of(text.as_str(), cs) && tokens_agree(alloc, &text, cs)?)
        }
        (Err(TextFault::At { clause: 4, offset }), Some(at)) => Ok(offset == at as u64),
        _ => Ok(false),
    }
}

#[test]
fn single_bytes(rt: HostRuntime) {
    for byte in 0..=127u8 {
        assert!(rt; matches!(agrees(rt.alloc(), &[byte]), Ok(true)), "{byte}");
    }
}

/// Returns whether they agree on these letters, one after the other.
fn letters_agree(alloc: Global, letters: &[&str]) -> Result<bool, AllocError> {
    let mut text = String::new(alloc);
    for letter in letters {
        text.push_str(letter)?;
    }
    agrees(alloc, text.as_str().as_bytes())
}

#[test]
fn texts_of_three_letters(rt: HostRuntime) {
    for first in &LETTERS {
        for second in &LETTERS {
            for third in &LETTERS {
                let agreed = letters_agree(rt.alloc(), &[*first, *second, *third]);
                assert!(rt; matches!(agreed, Ok(true)), "{first}{second}{third}");
            }
        }
    }
}

/// Returns whether they agree on nine letters, each a quotation mark or an `a`.
fn quotes_agree(alloc: Global, bits: u32) -> Result<bool, AllocError> {
    let mut text = String::new(alloc);
    for at in 0..9u32 {
        text.push(if bits >> at & 1 == 1 { '"' } else { 'a' })?;
    }
    agrees(alloc, text.as_str().as_bytes())
}

#[test]
fn quotes_in_a_row(rt: HostRuntime) {
    for bits in 0..512u32 {
        assert!(rt;
            matches!(quotes_agree(rt.alloc(), bits), Ok(true)),
            "{bits}"
        );
    }
}

/// Returns the number of tokens in a text of a mebibyte, whose lines have six tokens each.
fn many_tokens(alloc: Global) -> Result<usize, TextFault> {
    let line = b"element a:b { \"c\\x{64}\" } | # e\n";
    let mut schema = Vec::new(alloc);
    for _ in 0..32768 {
        schema.extend_from_slice(line)?;
    }
    let text = read_text(alloc, schema.as_slice())?;
    Ok(tokens(alloc, &text)?.len())
}

#[test]
fn a_mebibyte(rt: HostRuntime) {
    assert!(rt; matches!(many_tokens(rt.alloc()), Ok(196608)));
}
