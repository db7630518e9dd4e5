// Literals: texts between quotes.
ghost use Rattle.std.specs.Prelude.{◌≡◌, ◌++◌, OnOk, IfOk};
ghost use Rattle.rncv_model.specs.printed.Words.{delimiter, escaped, literal};
ghost use Rattle.rnc_print.specs.plain.Literals.{byte_text};

use rng_model::OutOfMemory;

/// Writes a text as a literal.
///
/// Compact Syntax, "Syntax": runs of `"` are between apostrophes, other runs between quotation marks, joined by `~`. A
/// character that would not mean itself is written as an escape.
#[tactic(auto, using(crate::proofs::Literals::byte_written))]
pub(crate) fn write_literal(bytes: &[u8], text: &mut Vec<u8>) -> Result<(), OutOfMemory>
    ensures { OnOk result (text.new.items ≡ text.old.items ++ literal bytes.now) }
{
    let [first, ..] = bytes else {
        return Ok(text.extend_from_slice(b"\"\"")?);
    };
    let mut quote = delimiter(*first);
    text.push(quote)?;
    'bytes: for byte in bytes {
        quote = write_byte(quote, *byte, text)?;
    }
    Ok(text.push(quote)?)
}

/// Writes a byte of a literal in which a run is open. Returns the delimiter of the run that is open after it.
fn write_byte(quote: u8, byte: u8, text: &mut Vec<u8>) -> Result<u8, OutOfMemory>
    ensures next { IfOk result (λ next. next ≡ delimiter byte) }
    ensures text { OnOk result (text.new.items ≡ text.old.items ++ byte_text quote byte) }
{
    let next = delimiter(byte);
    if quote != next {
        text.push(quote)?;
        text.extend_from_slice(b" ~ ")?;
        text.push(next)?;
    }
    write_escaped(byte, text)?;
    Ok(next)
}

/// Returns the delimiter of a byte of a literal.
fn delimiter(byte: u8) -> u8
    ensures { result ≡ delimiter byte }
{
    if byte == b'"' { b'\'' } else { b'"' }
}

/// Writes a byte, or its escape.
fn write_escaped(byte: u8, text: &mut Vec<u8>) -> Result<(), OutOfMemory>
    ensures { OnOk result (text.new.items ≡ text.old.items ++ escaped byte) }
{
    match byte {
        b'\\' => Ok(text.extend_from_slice(b"\\x{5C}")?),
        b'\t' => Ok(text.extend_from_slice(b"\\x{9}")?),
        b'\n' => Ok(text.extend_from_slice(b"\\x{A}")?),
        b'\r' => Ok(text.extend_from_slice(b"\\x{D}")?),
        _ => Ok(text.push(byte)?),
    }
}
