// The spelling of languages.
ghost use Rattle.std.specs.Prelude.{◌≡◌};
ghost use Rattle.rng_model.specs.xsd.Names.{is_letter, is_language};
ghost use Rattle.xsd_types.specs.plain.Tags.{is_in_tag};

/// The most letters and digits between two hyphens.
const MOST_IN_TAG: usize = 8;

// whether the bytes are `[a-zA-Z]{1,8}(-[a-zA-Z0-9]{1,8})*`
pub(crate) fn is_language(bytes: &[u8]) -> bool
    ensures { result ≡ is_language bytes.now }
{
    let mut rest = bytes;
    let mut count = 0;
    let mut first = true;
    'bytes: while let [byte, after @ ..] = rest {
        if *byte == b'-' {
            if count == 0 {
                return false;
            }
            count = 0;
            first = false;
        } else if count < MOST_IN_TAG && is_in_tag(*byte, first) {
            count += 1;
        } else {
            return false;
        }
        rest = after;
    }
    count > 0
}

// whether a tag may have the byte: the first one a letter, and a further one also a digit
fn is_in_tag(byte: u8, first: bool) -> bool
    ensures { result ≡ is_in_tag first byte }
{
    is_letter(byte) || (!first && byte.is_ascii_digit())
}

fn is_letter(byte: u8) -> bool
    ensures { result ≡ is_letter byte }
{
    matches!(byte, b'A'..=b'Z' | b'a'..=b'z')
}
