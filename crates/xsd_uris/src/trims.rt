// Bytes without the blanks that they end with.
ghost use Rattle.std.specs.Prelude.{◌≡◌};
ghost use Rattle.rng_model.specs.datatypes.Texts.{is_blank_byte};
ghost use Rattle.xsd_uris.specs.plain.TrimmedTexts.{past_end};

// whether the byte is a space, a tab, a line feed or a carriage return
fn is_blank_byte(byte: u8) -> bool
    ensures { result ≡ is_blank_byte byte }
{
    byte <= b' ' && matches!(byte, b' ' | b'\t' | b'\n' | b'\r')
}

// the bytes without the blanks that they end with
pub(crate) fn past_end(bytes: &[u8]) -> &[u8]
    ensures { result.now ≡ past_end bytes.now }
{
    let mut rest = bytes;
    'blanks: while let Some((last, front)) = rest.split_last() {
        if !is_blank_byte(*last) {
            return rest;
        }
        rest = front;
    }
    rest
}
