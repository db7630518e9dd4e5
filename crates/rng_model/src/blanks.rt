// How a text is split at its blanks.
ghost use Rattle.std.specs.Prelude.{◌≡◌, drop, map, IfOk, string_bytes};
ghost use Rattle.std.specs.List.{prefix_len};
ghost use Rattle.std.specs.Str.{IsCharBoundary};
ghost use Rattle.rng_model.specs.datatypes.Texts.{is_blank_byte, pieces, collapse};
ghost use Rattle.rng_model.specs.plain.BlankRuns.{is_run_byte, HasRuns};
ghost use Rattle.rng_model.specs.views.PiecesView.{pieces_left};

use crate::fault::OutOfMemory;
use std::alloc::Global;

/// Iterates over the pieces of a text, in order: the longest runs without a space, a tab, a line feed or a carriage
/// return.
///
/// Allocates nothing, and reads the text once.
#[derive(Drop)]
pub struct Pieces<'a> {
    rest: &'a str,
}

impl<'a> Pieces<'a> {
    /// Creates an iterator over the pieces of this text. Allocates nothing.
    pub fn new(text: &'a str) -> Pieces<'a>
        ensures { pieces_left result ≡ pieces text.now }
    {
        Pieces { rest: text }
    }
}

impl<'a> Iterator for Pieces<'a> {
    ghost use Rattle.std.specs.Iterator.{YieldsFirstRef, item_count};

    type Item = &'a str;

    ghost next_gives = { YieldsFirstRef pieces_left };

    ghost remaining = { item_count pieces_left };

    fn next(&mut self) -> Option<&'a str> {
        let start = past_blanks(self.rest);
        let (piece, after) = start.split_at(run_len(start));
        self.rest = after;
        if piece.is_empty() { None } else { Some(piece) }
    }
}

// the text without its leading blanks
fn past_blanks(text: &str) -> &str
    ensures { result.now ≡ drop (prefix_len is_blank_byte text.now) text.now }
{
    let (_, rest) = text.split_at(blanks_len(text));
    rest
}

// the number of bytes of the leading blanks
fn blanks_len(text: &str) -> usize
    ensures { result ≡ prefix_len is_blank_byte text.now }
{
    text.bytes().take_while(|b| is_blank(*b)).count()
}

// the number of bytes before the first blank
fn run_len(text: &str) -> usize
    ensures len { result ≡ prefix_len is_run_byte text.now }
    ensures boundary { IsCharBoundary text.now result }
{
    text.bytes().take_while(|b| !is_blank(*b)).count()
}

fn is_blank(byte: u8) -> bool
    ensures { result ≡ is_blank_byte byte }
{
    matches!(byte, b' ' | b'\t' | b'\n' | b'\r')
}

/// Returns the text without the blanks at both ends, and with each run of blanks inside replaced by one space.
///
/// A blank is a space, a tab, a line feed or a carriage return. XML Schema Part 2, section 4.3.6, `collapse`. Fails
/// only when out of memory. One pass over the text.
pub fn collapse(alloc: Global, text: &str) -> Result<String, OutOfMemory>
    ensures { IfOk result (λ t. string_bytes t ≡ collapse text.now) }
{
    let mut pieces = Pieces::new(text);
    let Some(first) = pieces.next() else {
        return Ok(String::new(alloc));
    };
    let mut collapsed = String::from_str(alloc, first)?;
    for piece in pieces {
        collapsed.push(' ')?;
        collapsed.push_str(piece)?;
    }
    Ok(collapsed)
}

/// Returns the longest runs without blanks, in order, as slices of the text.
///
/// RELAX NG Specification, section 6.2.10. Fails only when out of memory. One pass over the text.
pub fn split_blanks<'a>(alloc: Global, text: &'a str) -> Result<Vec<&'a str>, OutOfMemory>
    ensures pieces { IfOk result (λ v. map (λ t. t.now) v.items ≡ pieces text.now) }
    ensures runs { IfOk result (λ v. HasRuns text.now (map (λ t. t.now) v.items)) }
{
    Ok(Pieces::new(text).collect(alloc)?)
}
