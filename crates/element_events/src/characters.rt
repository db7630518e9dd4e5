// Characters of names and texts.
ghost use Rattle.std.specs.Prelude.{◌≡◌, ◌+◌, ◌≤◌, length, map, true};
ghost use Rattle.std.specs.List.{list_all};
ghost use Rattle.std.specs.Str.{chars};
ghost use Rattle.rng_model.specs.names.Names.{is_ncname};
ghost use Rattle.rng_model.specs.datatypes.Texts.{is_blank};
ghost use Rattle.rng_model.specs.documents.Telling.{are_xml_chars, is_good_attribute, is_good_name};
ghost use Rattle.element_events.specs.plain.AsciiChars.{is_ascii_char, is_ascii_name, is_ascii_part, is_ascii_start, is_plain};
ghost use Rattle.element_events.specs.views.Told.{attribute_told, name_told};

use crate::names::{Attribute, ExpandedName};
use rng_model::{is_ncname, is_xml_char};

/// How many bytes are looked at together.
const RUN: usize = 16;

const SHORT_RUN: usize = 8;

/// Returns whether a byte is an ASCII character of XML. It has no branch, so many bytes can be looked at together.
fn is_ascii_char(byte: u8) -> bool
    ensures { result ≡ is_ascii_char byte }
{
    ((byte >= 0x20) | (byte == b'\t') | (byte == b'\n') | (byte == b'\r')) & (byte < 0x80)
}

/// Returns whether all bytes are ASCII characters of XML. It looks at all of them without an early exit. If their number is
/// known, it has no loop.
#[inline(always)]
fn are_ascii_chars(bytes: &[u8]) -> bool
    ensures { result ≡ list_all is_ascii_char bytes.now }
{
    let mut all = true;
    'bytes: for byte in bytes.iter() {
        all &= is_ascii_char(*byte);
    }
    all
}

/// Returns whether all bytes are ASCII characters that are no control characters.
fn are_plain(bytes: &[u8]) -> bool
    ensures { result ≡ list_all is_plain bytes.now }
{
    bytes.iter().all(|byte| matches!(*byte, 0x20..=0x7F))
}

/// Returns whether all bytes are spaces, tabs and line ends.
fn are_blank(bytes: &[u8]) -> bool
    ensures { result ≡ is_blank bytes.now }
{
    bytes
        .iter()
        .all(|byte| matches!(*byte, b' ' | b'\t' | b'\n' | b'\r'))
}

/// Returns whether all bytes are ASCII characters of XML. It is quick for a few bytes that are plain.
#[tactic(auto, using(crate::proofs::AsciiChars::plain_chars))]
fn are_few_ascii_chars(bytes: &[u8]) -> bool
    ensures { result ≡ list_all is_ascii_char bytes.now }
{
    are_plain(bytes) || are_ascii_chars(bytes)
}

/// Returns whether the first bytes and the last ones are ASCII characters of XML, so many each. These are all bytes, and some
/// may be looked at twice.
#[inline(always)]
fn are_ends_ascii_chars(bytes: &[u8], count: usize) -> bool
    requires { (count ≤ length bytes.now) × (length bytes.now ≤ count + count) }
    ensures { result ≡ true → list_all is_ascii_char bytes.now ≡ true }
{
    let last = bytes.len() - count;
    are_ascii_chars(&bytes[..count]) & are_ascii_chars(&bytes[last..])
}

/// Returns whether all bytes are ASCII characters of XML, where there are so many that runs of them are looked at.
fn are_runs_ascii_chars(bytes: &[u8]) -> bool
    requires { 16 ≤ length bytes.now }
    ensures { result ≡ true → list_all is_ascii_char bytes.now ≡ true }
{
    let mut rest = bytes;
    'runs: while rest.len() > 2 * RUN {
        let (run, behind) = rest.split_at(RUN);
        if !are_ascii_chars(run) {
            return false;
        }
        rest = behind;
    }
    are_ends_ascii_chars(rest, RUN)
}

/// Returns whether all bytes are ASCII characters of XML. A few are looked at one by one, and more in runs.
fn is_ascii_text(bytes: &[u8]) -> bool
    ensures { result ≡ true → list_all is_ascii_char bytes.now ≡ true }
{
    let size = bytes.len();
    if size < SHORT_RUN {
        return are_few_ascii_chars(bytes);
    }
    if size < RUN {
        return are_ends_ascii_chars(bytes, SHORT_RUN);
    }
    are_runs_ascii_chars(bytes)
}

/// Returns whether each character may occur in an XML document.
#[tactic(auto, using(crate::proofs::AsciiChars::ascii_chars))]
pub fn are_xml_chars(text: &str) -> bool
    ensures { result ≡ are_xml_chars text.now }
{
    is_ascii_text(text.as_bytes()) || text.chars().all(|c| is_xml_char(c))
}

/// Returns whether each character may occur in an XML document, where it is known whether the text is blank. A blank one is
/// not looked at again.
#[tactic(auto, using(crate::proofs::AsciiChars::blank_xml_chars))]
pub fn is_good_text(text: &str, blank: bool) -> bool
    ensures { blank ≡ is_blank text.now → result ≡ are_xml_chars text.now }
{
    blank || are_xml_chars(text)
}

fn is_ascii_start(byte: u8) -> bool
    ensures { result ≡ is_ascii_start byte }
{
    matches!(byte, b'A'..=b'Z' | b'_' | b'a'..=b'z')
}

fn is_ascii_part(byte: u8) -> bool
    ensures { result ≡ is_ascii_part byte }
{
    is_ascii_start(byte) || matches!(byte, b'-' | b'.' | b'0'..=b'9')
}

fn are_ascii_parts(bytes: &[u8]) -> bool
    ensures { result ≡ list_all is_ascii_part bytes.now }
{
    bytes.iter().all(|byte| is_ascii_part(*byte))
}

/// Returns whether the bytes are a name of ASCII letters, digits, `_`, `-` and `.`.
fn is_ascii_name(bytes: &[u8]) -> bool
    ensures { result ≡ is_ascii_name bytes.now }
{
    match bytes {
        [first, rest @ ..] => is_ascii_start(*first) && are_ascii_parts(rest),
        [] => false,
    }
}

/// Returns whether the text is an NCName.
fn is_local_name(text: &str) -> bool
    ensures { result ≡ is_ncname (chars text.now) }
{
    is_ascii_name(text.as_bytes()) || is_ncname(text)
}

/// Returns whether a namespace has characters of XML alone. Costs little for the usual one, which is empty.
fn is_good_namespace(namespace: &str) -> bool
    ensures { result ≡ are_xml_chars namespace.now }
{
    if namespace.is_empty() {
        return true;
    }
    are_xml_chars(namespace)
}

/// Returns whether the local name is an NCName, and the namespace has characters of XML alone.
pub fn is_good_name(name: ExpandedName<'_>) -> bool
    ensures { result ≡ is_good_name (name_told name.entry) }
{
    is_good_namespace(name.namespace) && is_local_name(name.local)
}

fn is_good_attribute(attribute: Attribute<'_>) -> bool
    ensures { result ≡ is_good_attribute (attribute_told attribute.entry) }
{
    is_good_name(attribute.name) && are_xml_chars(attribute.value)
}

/// Returns whether each attribute has a good name, and a value of characters of XML alone.
pub fn are_good_attributes(attributes: &[Attribute<'_>]) -> bool
    ensures { result ≡ list_all is_good_attribute (map attribute_told attributes.now) }
{
    'attributes: for attribute in attributes {
        if !is_good_attribute(*attribute) {
            return false;
        }
    }
    true
}

/// Returns whether a text has only spaces, tabs and line ends.
pub fn is_blank(text: &str) -> bool
    ensures { result ≡ is_blank text.now }
{
    are_blank(text.as_bytes())
}
