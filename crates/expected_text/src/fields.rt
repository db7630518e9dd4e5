// Fields of lines.
ghost use Rattle.std.specs.Prelude.{◌≡◌, ◌++◌, OnOk, string_bytes};
ghost use Rattle.expected_text.specs.ExpectationText.{field, in_braces};
ghost use Rattle.expected_text.specs.plain.Fields.{escaped_char};

use rng_model::OutOfMemory;

/// Writes a text as a field.
pub(crate) fn write_field(words: &str, text: &mut String) -> Result<(), OutOfMemory>
    ensures { OnOk result (string_bytes text.new ≡ string_bytes text.old ++ field words.now) }
{
    for c in words.chars() {
        write_char(c, text)?;
    }
    Ok(())
}

/// Writes a character of a field, or its escape.
fn write_char(c: char, text: &mut String) -> Result<(), OutOfMemory>
    ensures { OnOk result (string_bytes text.new ≡ string_bytes text.old ++ escaped_char c) }
{
    match c {
        '\\' => Ok(text.push_str("\\\\")?),
        '\n' => Ok(text.push_str("\\n")?),
        '\r' => Ok(text.push_str("\\r")?),
        '\t' => Ok(text.push_str("\\t")?),
        ' ' => Ok(text.push_str("\\s")?),
        _ => Ok(text.push(c)?),
    }
}

/// Writes a namespace in braces.
pub(crate) fn write_uri(uri: &str, text: &mut String) -> Result<(), OutOfMemory>
    ensures { OnOk result (string_bytes text.new ≡ string_bytes text.old ++ in_braces uri.now) }
{
    text.push_str("{")?;
    write_field(uri, text)?;
    Ok(text.push_str("}")?)
}
