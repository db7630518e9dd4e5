// The spelling of names.
ghost use Rattle.std.specs.Prelude.{◌≡◌, ◌==◌, ◌&&◌, not, length};
ghost use Rattle.std.specs.List.{list_all};
ghost use Rattle.std.specs.Str.{chars};
ghost use Rattle.rng_model.specs.names.Names.{is_ncname};
ghost use Rattle.rng_model.specs.datatypes.Datatypes.{is_nmtoken};
ghost use Rattle.rng_model.specs.xsd.Names.{is_name, is_qname};
ghost use Rattle.rng_types.specs.plain.Words.{is_word_byte, starts_name};

use rng_model::{is_name_char, is_name_start};
use rng_types::{are_word_bytes, starts_name};

// whether the text is a Name: a character that may begin one, and then name characters
pub(crate) fn is_name(text: &str) -> bool
    ensures { result ≡ is_name (chars text.now) }
{
    let mut rest = text.chars();
    match rest.next() {
        Some(first) => is_name_start(first) && rest.all(|c| is_name_char(c)),
        None => false,
    }
}

// whether the text is an NCName: first by its bytes, since most names are of ASCII
pub(crate) fn is_ncname(text: &str) -> bool
    ensures { result ≡ is_ncname (chars text.now) }
{
    is_ascii_ncname(text.as_bytes()) || rng_model::is_ncname(text)
}

fn is_ascii_ncname(bytes: &[u8]) -> bool
    ensures { result ≡ (starts_name bytes.now && list_all is_word_byte bytes.now) }
{
    starts_name(bytes) && are_word_bytes(bytes)
}

// whether the text is an NMTOKEN, by its bytes first likewise
pub(crate) fn is_nmtoken(text: &str) -> bool
    ensures { result ≡ is_nmtoken (chars text.now) }
{
    is_ascii_nmtoken(text.as_bytes()) || rng_types::is_nmtoken(text)
}

fn is_ascii_nmtoken(bytes: &[u8]) -> bool
    ensures { result ≡ (not (length bytes.now == 0) && list_all is_word_byte bytes.now) }
{
    !bytes.is_empty() && are_word_bytes(bytes)
}

// whether the text is an NCName, or two joined by a colon
pub(crate) fn is_qname(text: &str) -> bool
    ensures { result ≡ is_qname text.now }
{
    match text.split_once(':') {
        Some((prefix, local)) => is_ncname(prefix) && is_ncname(local),
        None => is_ncname(text),
    }
}
