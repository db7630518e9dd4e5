// Network paths with an address in brackets: RFC 2396, section 3.2.2, and RFC 2732, section 3.
ghost use Rattle.std.specs.Prelude.{◌≡◌, ◌∷◌, ◌||◌, not, ℕ};
ghost use Rattle.std.specs.List.{prefix_len};
ghost use Rattle.xsd_uris.specs.plain.UriShapes.{is, none, is_one, is_digit, from, is_path_or_nothing, is_port_and_path, is_behind_address, is_host_and_path, is_user, is_bracketed};

use crate::address::is_address;
use crate::characters::{is_digit, is_without_brackets};
use crate::splits::cut_at;

// how many digits the bytes begin with
fn digits_len(bytes: &[u8]) -> usize
    ensures { result ≡ prefix_len is_digit bytes.now }
{
    bytes.iter().take_while(|byte| is_digit(**byte)).count()
}

// the bytes without the digits that they begin with
fn past_digits(bytes: &[u8]) -> &[u8]
    ensures { result.now ≡ from (λ d. not (is_digit d)) bytes.now }
{
    let (_, after) = bytes.split_at(digits_len(bytes));
    after
}

// whether the bytes are nothing, or `/` and no bracket behind it
fn is_path_or_nothing(bytes: &[u8]) -> bool
    ensures { result ≡ is_path_or_nothing bytes.now }
{
    match bytes {
        [] => true,
        [b'/', path @ ..] => is_without_brackets(path),
        _ => false,
    }
}

// whether the bytes are a port with `:` before it, if any, and a path, if any
fn is_port_and_path(bytes: &[u8]) -> bool
    ensures { result ≡ is_port_and_path bytes.now }
{
    match bytes {
        [b':', port @ ..] => is_path_or_nothing(past_digits(port)),
        _ => is_path_or_nothing(bytes),
    }
}

// whether the bytes are a `]` and what may follow it
fn is_behind_address(bytes: &[u8]) -> bool
    ensures { result ≡ is_behind_address bytes.now }
{
    match bytes {
        [_, rest @ ..] => is_port_and_path(rest),
        [] => false,
    }
}

// whether the bytes are an address and what may follow it, from the `]` on
fn is_address_and_path(bytes: &[u8]) -> bool
    ensures { (c : ℕ) → result ≡ is_host_and_path (c ∷ bytes.now) }
{
    let (address, behind) = cut_at(bytes, b']');
    is_address(address) && is_behind_address(behind)
}

// whether the bytes are a `[`, an address and what may follow it
fn is_host_and_path(bytes: &[u8]) -> bool
    ensures { result ≡ is_host_and_path bytes.now }
{
    match bytes.split_first() {
        Some((_, rest)) => is_address_and_path(rest),
        None => false,
    }
}

// whether there is neither `/` nor `]`
fn is_without_ends(bytes: &[u8]) -> bool
    ensures { result ≡ none (λ c. is 0x2F c || is 0x5D c) bytes.now }
{
    bytes.iter().all(|byte| !matches!(*byte, b'/' | b']'))
}

// whether the first `@` is the last byte
fn ends_in_at(bytes: &[u8]) -> bool
    ensures { result ≡ is_one (from (is 0x40) bytes.now) }
{
    let (_, at) = cut_at(bytes, b'@');
    matches!(at, [_])
}

// whether the bytes are nothing, or a user and `@`
fn is_user(bytes: &[u8]) -> bool
    ensures { result ≡ is_user bytes.now }
{
    bytes.is_empty() || (is_without_ends(bytes) && ends_in_at(bytes))
}

// whether the bytes are a network path with an address in brackets
pub(crate) fn is_bracketed(bytes: &[u8]) -> bool
    ensures { result ≡ is_bracketed bytes.now }
{
    match bytes {
        [b'/', b'/', rest @ ..] => {
            let (user, host) = cut_at(rest, b'[');
            is_user(user) && is_host_and_path(host)
        }
        _ => false,
    }
}
