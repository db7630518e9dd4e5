// The number of an escape.
ghost use Rattle.std.specs.Prelude.{◌≡◌, option_map};
ghost use Rattle.std.specs.Str.{chars};
ghost use Rattle.rnc_text.specs.plain.DecodingSteps.{hexadecimal_end};

use crate::character::split_first;

/// The largest number of digits in an escape.
const DIGITS: u32 = 6;

/// Reads one to six hexadecimal digits and a closing brace. Returns their number and the text after the brace.
#[tactic(auto, using(crate::proofs::HexadecimalSteps::step, crate::proofs::HexadecimalSteps::is_out, crate::proofs::HexadecimalSteps::most_next, crate::proofs::HexadecimalSteps::most_fits))]
pub fn hexadecimal(text: &str) -> Option<(u32, &str)>
    ensures { option_map (λ x. (x.0, chars x.1.now)) result ≡ hexadecimal_end 7 0 (chars text.now) }
{
    let mut number = 0;
    let mut rest = text;
    for count in 0..=DIGITS {
        let (character, after) = split_first(rest)?;
        if character == '}' && count > 0 {
            return Some((number, after));
        }
        number = number * 16 + character.to_digit(16)?;
        rest = after;
    }
    None
}
