// Splitting off the first character of a text.
ghost use Rattle.std.specs.Prelude.{◌≡◌, ◌++◌, [], MatchOption, option_map};
ghost use Rattle.rnc_text.specs.plain.DecodingSteps.{first_and_rest};
ghost use Rattle.std.specs.Str.{chars};
ghost use Rattle.std.specs.Char.{encode_utf8};

/// Splits the first character off the text, or returns `None` if the text is empty.
pub fn split_first(text: &str) -> Option<(char, &str)>
    ensures bytes { MatchOption result (text.now ≡ []) (λ x. text.now ≡ encode_utf8 x.0 ++ x.1.now) }
    ensures chars { option_map (λ x. (x.0, chars x.1.now)) result ≡ first_and_rest (chars text.now) }
{
    let mut all = text.chars();
    let first = all.next()?;
    Some((first, all.as_str()))
}
