// The tokens of characters, by a plain program that follows the definitions: it tries each front, the longest first.
use crate::characters::is_text_of;
use rnc_text::{Character, Sign, TokenKind};
use rng_model::{is_name_char, is_name_start};
use std::alloc::{AllocError, Global};

/// The signs, each as it is written.
const SIGNS: [(&str, Sign); 17] = [
    ("=", Sign::Equal),
    ("|=", Sign::BarEqual),
    ("&=", Sign::AndEqual),
    (",", Sign::Comma),
    ("|", Sign::Bar),
    ("&", Sign::And),
    ("?", Sign::Question),
    ("*", Sign::Star),
    ("+", Sign::Plus),
    ("-", Sign::Minus),
    ("{", Sign::OpenBrace),
    ("}", Sign::CloseBrace),
    ("(", Sign::OpenParenthesis),
    (")", Sign::CloseParenthesis),
    ("[", Sign::OpenBracket),
    ("]", Sign::CloseBracket),
    ("~", Sign::Tilde),
];

/// Returns whether the character is none of these.
fn lacks(cs: &[Character], character: Character) -> bool {
    for c in cs {
        if *c == character {
            return false;
        }
    }
    true
}

fn is_name(cs: &[Character]) -> bool {
    for (at, c) in cs.iter().enumerate() {
        match c {
            Character::LineEnd | Character::Ordinary(':') => return false,
            Character::Ordinary(c) => {
                if !is_name_char(*c) || at == 0 && !is_name_start(*c) {
                    return false;
                }
            }
        }
    }
    !cs.is_empty()
}

/// Returns the kind of a word, a name with a colon, a segment or a sign.
fn plain_kind(cs: &[Character]) -> Option<TokenKind> {
    if is_name(cs) {
        return Some(TokenKind::Identifier);
    }
    for at in 0..cs.len() {
        if cs[at] == Character::Ordinary(':') && is_name(&cs[..at]) {
            let local = &cs[at + 1..];
            return match local {
                [Character::Ordinary('*')] => Some(TokenKind::NsName),
                _ if is_name(local) => Some(TokenKind::CName),
                _ => None,
            };
        }
    }
    match cs {
        [Character::Ordinary('\\'), rest @ ..] if is_name(rest) => Some(
            TokenKind::QuotedIdentifier,
        ),
        [Character::Ordinary(quote @ ('"' | '\'')), ..] => plain_segment(
            cs,
            Character::Ordinary(*quote),
        ),
        _ => Some(TokenKind::Sign(plain_sign(cs)?)),
    }
}

/// Returns the sign that is written like this.
fn plain_sign(cs: &[Character]) -> Option<Sign> {
    for (written, sign) in &SIGNS {
        if is_text_of(written, cs) {
            return Some(*sign);
        }
    }
    None
}

/// Returns the kind of a segment or a triple segment.
fn plain_segment(cs: &[Character], quote: Character) -> Option<TokenKind> {
    let n = cs.len();
    if n >= 2
        && cs[n - 1] == quote
        && lacks(&cs[1..n - 1], quote)
        && lacks(&cs[1..n - 1], Character::LineEnd)
    {
        return Some(TokenKind::Segment);
    }
    let three = [quote, quote, quote];
    if n < 6 || !cs.starts_with(&three) || !cs.ends_with(&three) {
        return None;
    }
    for at in 3..n - 3 {
        if cs[at..].starts_with(&three) {
            return None;
        }
    }
    Some(TokenKind::TripleSegment)
}

fn is_gap(cs: &[Character]) -> bool {
    match cs {
        [Character::LineEnd | Character::Ordinary(' ' | '\t')] => true,
        [Character::Ordinary('#'), rest @ ..] => lacks(rest, Character::LineEnd),
        _ => false,
    }
}

/// Returns the length and the kind of the longest blank, comment or token at the front.
fn plain_piece(cs: &[Character]) -> Option<(usize, Option<TokenKind>)> {
    for less in 0..cs.len() {
        let n = cs.len() - less;
        if is_gap(&cs[..n]) {
            return Some((n, None));
        }
        if let Some(kind) = plain_kind(&cs[..n]) {
            return Some((n, Some(kind)));
        }
    }
    None
}

/// Returns the kinds, starts and ends of the tokens, and the offset where they end too early, if they do.
pub fn plain_tokens(
    alloc: Global,
    cs: &[Character],
) -> Result<(Vec<(TokenKind, usize, usize)>, Option<usize>), AllocError> {
    let mut all = Vec::new(alloc);
    let mut left = 0usize;
    for at in 0..cs.len() {
        if left > 0 {
            left -= 1;
            continue;
        }
        let Some((n, kind)) = plain_piece(&cs[at..]) else {
            return Ok((all, Some(at)));
        };
        if let Some(kind) = kind {
            all.push((kind, at, at.saturating_add(n)))?;
        }
        left = n.saturating_sub(1);
    }
    Ok((all, None))
}
