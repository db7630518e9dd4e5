// Bytes cut in two.
ghost use Rattle.std.specs.Prelude.{◌≡◌, ◌<◌, ◌∷◌, [], Some, None, MatchOption, length, not, option_copied};
ghost use Rattle.std.specs.List.{prefix_len, slice_split};
ghost use Rattle.xsd_uris.specs.plain.UriShapes.{is, before, from, before_double, behind_double, none};
ghost use Rattle.xsd_uris.specs.plain.DoubleColons.{after_double};

// how many bytes come before the first that is the mark
fn len_before(bytes: &[u8], mark: u8) -> usize
    ensures { result ≡ prefix_len (λ c. not (is mark c)) bytes.now }
{
    bytes.iter().take_while(|byte| **byte != mark).count()
}

// the bytes before the first that is the mark, and the bytes from it on
pub(crate) fn cut_at(bytes: &[u8], mark: u8) -> (&[u8], &[u8])
    ensures before { result.0.now ≡ before (is mark) bytes.now }
    ensures from { result.1.now ≡ from (is mark) bytes.now }
{
    bytes.split_at(len_before(bytes, mark))
}

// whether no byte is the mark
pub(crate) fn is_without(bytes: &[u8], mark: u8) -> bool
    ensures { result ≡ none (is mark) bytes.now }
{
    bytes.iter().all(|byte| *byte != mark)
}

// the bytes before and behind the first that is the mark
pub(crate) fn split_once(bytes: &[u8], mark: u8) -> Option<(&[u8], &[u8])>
    ensures { MatchOption result (slice_split (is mark) bytes.now ≡ bytes.now ∷ [])
        (λ x. (slice_split (is mark) bytes.now ≡ x.0.now ∷ slice_split (is mark) x.1.now) × (length x.1.now < length bytes.now)) }
{
    let (front, rest) = cut_at(bytes, mark);
    match rest.split_first() {
        Some((_, back)) => Some((front, back)),
        None => None,
    }
}

// the bytes behind the `::` that they begin with
fn after_double(bytes: &[u8]) -> Option<&[u8]>
    ensures { option_copied result ≡ after_double bytes.now }
{
    match bytes {
        [b':', b':', after @ ..] => Some(after),
        _ => None,
    }
}

// the bytes before and behind the first `::`
pub(crate) fn split_double(bytes: &[u8]) -> Option<(&[u8], &[u8])>
    ensures { MatchOption result ((before_double bytes.now ≡ bytes.now) × (behind_double bytes.now ≡ None))
        (λ x. (before_double bytes.now ≡ x.0.now) × (behind_double bytes.now ≡ Some x.1.now)) }
{
    let mut rest = bytes;
    'bytes: while let Some((_, after)) = rest.split_first() {
        if let Some(back) = after_double(rest) {
            let (front, _) = bytes.split_at(bytes.len() - rest.len());
            return Some((front, back));
        }
        rest = after;
    }
    None
}
