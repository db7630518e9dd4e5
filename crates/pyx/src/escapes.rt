// Texts with escapes.
ghost use Rattle.std.specs.Prelude.{◌≡◌, IfOk, Some, None, if◌then◌else◌, string_bytes, true};
ghost use Rattle.std.specs.Option.{option_map};
ghost use Rattle.pyx.specs.plain.Cuts.{at_byte};
ghost use Rattle.pyx.specs.plain.Escapes.{escape_of, in_front, unescaped};

use crate::namespaces::{behind, cut_at};
use rng_model::OutOfMemory;

/// Returns the character that the escape after a backslash represents, and the rest.
#[tactic(auto, using(crate::proofs::Lines::LineTexts::escape_by_front))]
fn escape(text: &str) -> Option<(char, &str)>
    ensures { option_map (λ x. (x.0, x.1.now)) result ≡ escape_of text.now }
{
    if let Some(rest) = behind(b'n', text) {
        return Some(('\n', rest));
    }
    if let Some(rest) = behind(b't', text) {
        return Some(('\t', rest));
    }
    if let Some(rest) = behind(b'\\', text) {
        return Some(('\\', rest));
    }
    None
}

/// Appends a text of a line with its escapes replaced: `\n`, `\t` and `\\` represent a line feed, a tab and a
/// backslash. Returns false on another escape or a backslash at the end, which break P5. A literal text has no backslash:
/// it is copied as it is.
#[inline(always)]
pub fn append(value: &mut String, text: &str, literal: bool) -> Result<bool, OutOfMemory>
    requires { literal ≡ true → at_byte 92 text.now ≡ None }
    ensures { IfOk result (λ good. in_front (string_bytes value.old) (unescaped text.now) ≡ (if good then Some (string_bytes value.new) else None)) }
{
    if literal {
        value.push_str(text)?;
        return Ok(true);
    }
    let mut rest = text;
    'escapes: while let Some((front, after)) = cut_at(b'\\', rest) {
        let Some((character, after)) = escape(after) else {
            return Ok(false);
        };
        value.push_str(front)?;
        value.push(character)?;
        rest = after;
    }
    value.push_str(rest)?;
    Ok(true)
}
