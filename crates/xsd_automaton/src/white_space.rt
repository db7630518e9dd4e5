// The white space of a text, treated part by part.
ghost use Rattle.std.specs.Prelude.{◌≡◌, ◌++◌, ◌<◌, [], MatchOption, length, true};
ghost use Rattle.std.specs.List.{prefix_len, list_all};
ghost use Rattle.std.specs.Str.{IsCharBoundary, IsUtf8};
ghost use Rattle.rng_model.specs.datatypes.Texts.{is_blank_byte};
ghost use Rattle.rng_model.specs.plain.BlankRuns.{is_run_byte, ends_run};
ghost use Rattle.rng_model.specs.xsd.Names.{replaced};
ghost use Rattle.rng_types.specs.plain.Runs.{past_blanks, from_run};
ghost use Rattle.xsd_automaton.specs.views.WhiteSpace.{left_by, treated};

/// What becomes of the white space of a text before an expression is to match it.
///
/// XML Schema Part 2, Second Edition, section 4.3.6. White space is spaces, tabs, line feeds and carriage returns.
#[derive(Clone, Copy, Debug, PartialEq, Eq)]
pub enum WhiteSpace {
    /// All of it stays.
    Preserve,
    /// Each tab, line feed and carriage return counts as a space.
    Replace,
    /// Each run of white space counts as one space, and there is none at the ends.
    Collapse,
}

// the text from which the parts are taken
pub(crate) fn begun(white_space: WhiteSpace, text: &str) -> &str
    ensures { left_by white_space result.now ≡ treated white_space text.now }
{
    match white_space {
        WhiteSpace::Preserve | WhiteSpace::Replace => text,
        WhiteSpace::Collapse => behind_blanks(text),
    }
}

// the next part of the treated text, and the text from which further parts are taken
pub(crate) fn next_part(white_space: WhiteSpace, rest: &str) -> Option<(&str, &str)>
    ensures { MatchOption result (left_by white_space rest.now ≡ [])
        (λ p. (left_by white_space rest.now ≡ p.0.now ++ left_by white_space p.1.now) × (length p.1.now < length rest.now) × IsUtf8 p.0.now × IsUtf8 p.1.now) }
{
    match white_space {
        WhiteSpace::Preserve => next_whole(rest),
        WhiteSpace::Replace => next_replaced(rest),
        WhiteSpace::Collapse => next_collapsed(rest),
    }
}

// all of the text
fn next_whole(rest: &str) -> Option<(&str, &str)>
    ensures { MatchOption result (rest.now ≡ [])
        (λ p. (rest.now ≡ p.0.now ++ p.1.now) × (length p.1.now < length rest.now) × IsUtf8 p.0.now × IsUtf8 p.1.now) }
{
    if rest.is_empty() {
        return None;
    }
    Some((rest, ""))
}

// the run without blanks that the text begins with, or a space for its blank
fn next_replaced(rest: &str) -> Option<(&str, &str)>
    ensures { MatchOption result (replaced rest.now ≡ [])
        (λ p. (replaced rest.now ≡ p.0.now ++ replaced p.1.now) × (length p.1.now < length rest.now) × IsUtf8 p.0.now × IsUtf8 p.1.now) }
{
    let (run, after) = split_run(rest);
    if !run.is_empty() {
        return Some((run, after));
    }
    if after.is_empty() {
        return None;
    }
    let (_, behind) = after.split_at(1);
    Some((" ", behind))
}

// the run without blanks that the text begins with, or a space for its blanks, if a further run is behind them
fn next_collapsed(rest: &str) -> Option<(&str, &str)>
    ensures { MatchOption result (from_run rest.now ≡ [])
        (λ p. (from_run rest.now ≡ p.0.now ++ from_run p.1.now) × (length p.1.now < length rest.now) × IsUtf8 p.0.now × IsUtf8 p.1.now) }
{
    let (run, after) = split_run(rest);
    if !run.is_empty() {
        return Some((run, after));
    }
    let behind = behind_blanks(after);
    if behind.is_empty() {
        return None;
    }
    Some((" ", behind))
}

// the run without blanks that the text begins with, and the text behind it
fn split_run(text: &str) -> (&str, &str)
    ensures parts { text.now ≡ result.0.now ++ result.1.now }
    ensures run { list_all is_run_byte result.0.now ≡ true }
    ensures ends { ends_run result.1.now ≡ true }
    ensures texts { IsUtf8 result.0.now × IsUtf8 result.1.now }
{
    text.split_at(run_len(text))
}

// the number of bytes before the first blank
fn run_len(text: &str) -> usize
    ensures len { result ≡ prefix_len is_run_byte text.now }
    ensures boundary { IsCharBoundary text.now result }
{
    text.bytes().take_while(|b| !is_blank(*b)).count()
}

// the text without the blanks that it begins with
fn behind_blanks(text: &str) -> &str
    ensures { result.now ≡ past_blanks text.now }
{
    let (_, rest) = text.split_at(blanks_len(text));
    rest
}

// the number of bytes of the blanks that the text begins with
fn blanks_len(text: &str) -> usize
    ensures { result ≡ prefix_len is_blank_byte text.now }
{
    text.bytes().take_while(|b| is_blank(*b)).count()
}

fn is_blank(byte: u8) -> bool
    ensures { result ≡ is_blank_byte byte }
{
    matches!(byte, b' ' | b'\t' | b'\n' | b'\r')
}
