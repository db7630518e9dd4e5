// Lines as texts, and names in them.
ghost use Rattle.std.specs.Prelude.{◌≡◌, MatchResult, Err};
ghost use Rattle.std.specs.List.{list_all};
ghost use Rattle.std.specs.Str.{chars};
ghost use Rattle.rng_model.specs.names.Names.{is_ncname, is_xml_char};
ghost use Rattle.pyx.specs.plain.LineReader.{is_name, kind_of, said_of};
ghost use Rattle.pyx.specs.plain.Pieces.{ended_line};
ghost use Rattle.pyx.specs.views.View.{line_of};

use crate::namespaces::cut_at;
use crate::plain::{all_plain, is_plain_name};
use rng_model::{is_ncname, is_xml_char};

/// The most bytes that a line may have without its line feed.
pub const LINE_LIMIT: usize = 65_536;

/// The bytes of a line without its line feed.
#[derive(Clone, Copy)]
pub struct Line<'a> {
    pub bytes: &'a [u8],
    /// Whether a line feed ends it.
    pub ended: bool,
}

/// Returns whether the text is an NCName.
#[tactic(auto, using(crate::proofs::Lines::PlainTexts::plain_part))]
fn is_part(text: &str) -> bool
    ensures { result ≡ is_ncname (chars text.now) }
{
    is_plain_name(text.as_bytes()) || is_ncname(text)
}

/// Returns whether the text is an NCName, or two NCNames with a colon between.
#[tactic(auto, unfolding(crate::specs::plain::LineReader::is_name))]
fn is_any_name(text: &str) -> bool
    ensures { result ≡ is_name text.now }
{
    match cut_at(b':', text) {
        Some((prefix, local)) => is_part(prefix) && is_part(local),
        None => is_ncname(text),
    }
}

/// The same as `is_any_name`, fast for names of ASCII letters.
#[tactic(auto, using(crate::proofs::Lines::PlainTexts::plain_name))]
#[inline(always)]
pub fn is_name(text: &str) -> bool
    ensures { result ≡ is_name text.now }
{
    is_plain_name(text.as_bytes()) || is_any_name(text)
}

fn all_xml_chars(text: &str) -> bool
    ensures { result ≡ list_all is_xml_char (chars text.now) }
{
    all_plain(text.as_bytes()) || text.chars().all(|c| is_xml_char(c))
}

/// Returns the line as a text, or the first clause that it breaks whatever its content: P10, P1, P2 and P3, in this
/// order.
#[tactic(auto, unfolding(crate::specs::plain::LineReader::said_of, crate::specs::plain::LineReader::characters_of))]
pub fn line_text(line: Line<'_>) -> Result<&str, u8>
    ensures { MatchResult result (λ text. (line_of line.entry ≡ ended_line text.now) × (said_of (ended_line text.now) ≡ kind_of text.now))
        (λ clause. said_of (line_of line.entry) ≡ Err clause) }
{
    if line.bytes.len() > LINE_LIMIT {
        return Err(10);
    }
    if !line.ended {
        return Err(1);
    }
    let Ok(text) = simdutf8::compat::from_utf8(line.bytes) else {
        return Err(2);
    };
    if !all_xml_chars(text) {
        return Err(3);
    }
    Ok(text)
}
