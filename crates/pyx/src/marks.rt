// Lines cut from a text, by looking at 16 bytes together.
ghost use Rattle.std.specs.Prelude.{◌≡◌, ◌<◌, ◌≤◌, ◌+◌, ℕ, IfSome, None, length, true};
ghost use Rattle.std.specs.Int.{bit_at};
ghost use Rattle.std.specs.Option.{option_map};
ghost use Rattle.memchr.specs.Find.{NoneBefore, Nowhere, Passes, is_byte};
ghost use Rattle.pyx.specs.plain.Cuts.{at_byte};
ghost use Rattle.pyx.specs.plain.Marks.{IsMask};

use crate::namespaces::cut_at;
use std::simd::prelude::*;

/// How many bytes are looked at together.
const BLOCK: usize = 16;

/// How many bytes of a line are looked at in this way. The end of a longer line is searched for.
const NEAR: usize = 64;

/// Returns a mask of the next 16 bytes: a bit is set if its byte is this one.
#[inline(always)]
fn mask_of(byte: u8, bytes: &[u8], from: usize) -> u64
    requires { from + 16 ≤ length bytes.now }
    ensures { IsMask byte bytes.now from result }
{
    u8x16::from_slice(&bytes[from..])
        .simd_eq(u8x16::splat(byte))
        .to_bitmask()
}

/// Returns the place of the lowest bit that is set, or 64 if none is.
#[inline(always)]
fn lowest(mask: u64) -> usize
    ensures below { (k : ℕ) → k < result → bit_at mask k ≡ 0 }
    ensures set { result < 64 → bit_at mask result ≡ 1 }
{
    mask.trailing_zeros() as usize
}

/// Returns the place of the first line feed if it is near, and whether no backslash is in front of it.
#[inline(always)]
fn near_end(bytes: &[u8]) -> Option<(usize, bool)>
    ensures end { IfSome result (λ x. NoneBefore (Passes (is_byte 10) bytes.now) 0 (length bytes.now) x.0 × Passes (is_byte 10) bytes.now x.0) }
    ensures literal { IfSome result (λ x. x.1 ≡ true → Nowhere (Passes (is_byte 92) bytes.now) 0 x.0) }
{
    let near = bytes.len().min(NEAR);
    let mut from = 0;
    'ends: while from + BLOCK <= near {
        let end = lowest(mask_of(b'\n', bytes, from));
        let escape = lowest(mask_of(b'\\', bytes, from));
        if end < BLOCK {
            return Some((from + end, end <= escape));
        }
        if escape < BLOCK {
            return None;
        }
        from += BLOCK;
    }
    None
}

/// Returns the text before the first line feed, whether it is known to have no backslash, and the text after the line
/// feed.
#[inline(always)]
pub fn first_text_line(text: &str) -> Option<(&str, bool, &str)>
    ensures parts { option_map (λ x. (x.0.now, x.2.now)) result ≡ at_byte 10 text.now }
    ensures literal { IfSome result (λ x. x.1 ≡ true → at_byte 92 x.0.now ≡ None) }
{
    if let Some((at, literal)) = near_end(text.as_bytes()) {
        return Some((&text[..at], literal, &text[at + 1..]));
    }
    match cut_at(b'\n', text) {
        Some((front, after)) => Some((front, false, after)),
        None => None,
    }
}
