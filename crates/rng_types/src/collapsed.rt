// Texts compared and counted in their collapsed forms, which are never built.
ghost use Rattle.std.specs.Prelude.{◌≡◌, length, option_copied};
ghost use Rattle.std.specs.Str.{chars};
ghost use Rattle.rng_model.specs.datatypes.Texts.{pieces, collapse};
ghost use Rattle.rng_types.specs.plain.Pieces.{only};

use rng_model::Pieces;

/// Returns the piece between the blanks of the text, if there is only one. One pass over the text. Allocates nothing.
pub fn only_piece(text: &str) -> Option<&str>
    ensures { option_copied result ≡ only (pieces text.now) }
{
    let mut pieces = Pieces::new(text);
    let piece = pieces.next()?;
    match pieces.next() {
        None => Some(piece),
        Some(_) => None,
    }
}

/// Returns the number of characters in the text. One pass over it. Allocates nothing.
pub fn char_count(text: &str) -> usize
    ensures { result ≡ length (chars text.now) }
{
    text.chars().count()
}

// the number of characters in the collapsed text
pub(crate) fn collapsed_char_count(text: &str) -> usize
    ensures { result ≡ length (chars (collapse text.now)) }
{
    let mut pieces = Pieces::new(text);
    let Some(first) = pieces.next() else {
        return 0;
    };
    let mut count = char_count(first);
    for piece in pieces {
        count += 1 + char_count(piece);
    }
    count
}
