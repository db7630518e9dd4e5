// Bytes that show without decoding that a text or a name is good.
ghost use Rattle.std.specs.Prelude.{◌≡◌, IfSome, true};
ghost use Rattle.std.specs.List.{list_all};
ghost use Rattle.pyx.specs.plain.PlainBytes.{flaw, is_plain, is_plain_name, may_begin, may_follow};

/// Returns 1 for a byte that is not plain. A plain byte is only in characters that XML has: U+FFFE and U+FFFF begin
/// with the byte 0xEF.
fn flaw(byte: u8) -> u8
    ensures { result ≡ flaw (is_plain byte) }
{
    if (byte >= 0x20 || byte == b'\t' || byte == b'\n' || byte == b'\r') && byte != 0xEF {
        0
    } else {
        1
    }
}

/// Returns whether all bytes are plain. It looks at all of them without an early exit, so many can be looked at
/// together.
pub fn all_plain(bytes: &[u8]) -> bool
    ensures { result ≡ list_all is_plain bytes.now }
{
    let mut flaws = 0;
    'bytes: for byte in bytes.iter() {
        flaws |= flaw(*byte);
    }
    flaws == 0
}

/// Returns the bytes as a text if all are plain.
pub fn plain_text(bytes: &[u8]) -> Option<&str>
    ensures { IfSome result (λ t. (t.now ≡ bytes.now) × (list_all is_plain t.now ≡ true)) }
{
    if !all_plain(bytes) {
        return None;
    }
    match simdutf8::compat::from_utf8(bytes) {
        Ok(text) => Some(text),
        Err(_) => None,
    }
}

/// Returns whether the byte is an ASCII letter or `_`.
fn may_begin(byte: u8) -> bool
    ensures { result ≡ may_begin byte }
{
    if byte >= b'a' {
        return byte <= b'z';
    }
    matches!(byte, b'A'..=b'Z' | b'_')
}

fn may_follow(byte: u8) -> bool
    ensures { result ≡ may_follow byte }
{
    if byte >= b'a' {
        return byte <= b'z';
    }
    matches!(byte, b'-'..=b'.' | b'0'..=b'9' | b'A'..=b'Z' | b'_')
}

/// Returns whether all bytes may be in a name after its first one.
fn all_follow(bytes: &[u8]) -> bool
    ensures { result ≡ list_all may_follow bytes.now }
{
    bytes.iter().all(|byte| may_follow(*byte))
}

/// Returns whether the bytes are a name without a colon, of ASCII characters.
#[inline(always)]
pub fn is_plain_name(bytes: &[u8]) -> bool
    ensures { result ≡ is_plain_name bytes.now }
{
    match bytes {
        [first, rest @ ..] => may_begin(*first) && all_follow(rest),
        [] => false,
    }
}
