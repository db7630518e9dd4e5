// Cuts of texts.
ghost use Rattle.std.specs.Prelude.{◌≡◌, ◌<◌};
ghost use Rattle.std.specs.Option.{option_map};
ghost use Rattle.pyx.specs.plain.Cuts.{behind, at_byte};

use memchr::memchr;

/// Returns the text after its first character, if that is `kind`.
#[inline(always)]
pub fn behind(kind: u8, text: &str) -> Option<&str>
    requires { kind < 128 }
    ensures { option_map (λ x. x.now) result ≡ behind kind text.now }
{
    match text.as_bytes() {
        [first, ..] if *first == kind => Some(&text[1..]),
        _ => None,
    }
}

/// Returns the texts before and after the first `mark`.
#[inline(always)]
pub fn cut_at(mark: u8, text: &str) -> Option<(&str, &str)>
    requires { mark < 128 }
    ensures { option_map (λ x. (x.0.now, x.1.now)) result ≡ at_byte mark text.now }
{
    match memchr(mark, text.as_bytes()) {
        Some(at) => Some((&text[..at], &text[at + 1..])),
        None => None,
    }
}
