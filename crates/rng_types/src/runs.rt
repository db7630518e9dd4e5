// Collapsed texts, read byte by byte.
ghost use Rattle.std.specs.Prelude.{◌≡◌, ◌∷◌, [], ◌<◌, ◌≤◌, MatchOption, length, true, false};
ghost use Rattle.std.specs.Str.{bytes_eq};
ghost use Rattle.rng_model.specs.datatypes.Texts.{is_blank_byte, is_blank, collapse};
ghost use Rattle.rng_types.specs.plain.Runs.{past_blanks, from_run};

// whether the byte is a space, a tab, a line feed or a carriage return
#[inline(always)]
fn is_blank_byte(byte: u8) -> bool
    ensures { result ≡ is_blank_byte byte }
{
    byte <= b' ' && matches!(byte, b' ' | b'\t' | b'\n' | b'\r')
}

/// Returns whether all bytes are blanks: spaces, tabs, line feeds or carriage returns. One pass over them. Allocates nothing.
pub fn is_blank(bytes: &[u8]) -> bool
    ensures { result ≡ is_blank bytes.now }
{
    bytes.iter().all(|byte| is_blank_byte(*byte))
}

/// Returns the bytes without the blanks that they begin with. One pass over these. Allocates nothing.
#[inline(always)]
pub fn past_blanks(bytes: &[u8]) -> &[u8]
    ensures past { result.now ≡ past_blanks bytes.now }
    ensures within { length result.now ≤ length bytes.now }
{
    let mut rest = bytes;
    'blanks: while let [byte, after @ ..] = rest {
        if !is_blank_byte(*byte) {
            return rest;
        }
        rest = after;
    }
    rest
}

// the next byte of the collapsed text inside a run, and the bytes behind it
#[inline(always)]
fn next_byte(bytes: &[u8]) -> Option<(u8, &[u8])>
    ensures { MatchOption result (from_run bytes.now ≡ [])
        (λ p. (from_run bytes.now ≡ p.0 ∷ from_run p.1.now) × (length p.1.now < length bytes.now)) }
{
    match bytes {
        [] => None,
        [byte, after @ ..] if !is_blank_byte(*byte) => Some((*byte, after)),
        [_, after @ ..] => next_run(after),
    }
}

// a space, and the next run behind the blanks
fn next_run(bytes: &[u8]) -> Option<(u8, &[u8])>
    ensures { MatchOption result (is_blank bytes.now ≡ true)
        (λ p. (is_blank bytes.now ≡ false) × (p.0 ≡ 32) × (from_run p.1.now ≡ collapse bytes.now) × (length p.1.now ≤ length bytes.now)) }
{
    let rest = past_blanks(bytes);
    if rest.is_empty() {
        None
    } else {
        Some((b' ', rest))
    }
}

// whether both texts collapse to one, without the blanks that they begin with
fn is_same_run(a: &[u8], b: &[u8]) -> bool
    ensures { result ≡ bytes_eq (from_run a.now) (from_run b.now) }
{
    let (mut left, mut right) = (a, b);
    'bytes: while let Some((byte, after)) = next_byte(left) {
        match next_byte(right) {
            Some((other, behind)) if byte == other => {
                left = after;
                right = behind;
            }
            _ => return false,
        }
    }
    next_byte(right).is_none()
}

/// Returns whether the two texts collapse to the same text. One pass over both. Allocates nothing.
///
/// XML Schema Part 2, section 4.3.6, `collapse`.
pub fn is_same_collapsed(a: &str, b: &str) -> bool
    ensures { result ≡ bytes_eq (collapse a.now) (collapse b.now) }
{
    is_same_run(past_blanks(a.as_bytes()), past_blanks(b.as_bytes()))
}
