// Datatypes with their parameters.
ghost use Rattle.std.specs.Prelude.{◌≡◌, ◌++◌, OnOk, codes, map, string_bytes};
ghost use Rattle.rng_model.specs.datatypes.DatatypeViews.{datatype_of, parameter_of};
ghost use Rattle.rncv_model.specs.printed.Words.{datatype_text, literal, parameter_text, parameters_text};
ghost use Rattle.rnc_print.specs.plain.Parts.{named_type_text};

use crate::literal::write_literal;
use rng_model::{Datatype, DatatypeValue, OutOfMemory};

/// Writes a datatype with its parameters, in the order of the datatype.
pub(crate) fn write_datatype(datatype: &Datatype, text: &mut Vec<u8>) -> Result<(), OutOfMemory>
    ensures { OnOk result (text.new.items ≡ text.old.items ++ datatype_text (datatype_of datatype.now)) }
{
    write_type(datatype.library.as_str(), datatype.name.as_str(), text)?;
    write_parameters(datatype.parameters.as_slice(), text)
}

/// Writes a value: the name of its datatype, and the text.
pub(crate) fn write_value(value: &DatatypeValue, text: &mut Vec<u8>) -> Result<(), OutOfMemory>
    ensures { OnOk result (text.new.items ≡ text.old.items
        ++ (named_type_text (string_bytes value.now.library) (string_bytes value.now.name) ++ (codes " " ++ literal (string_bytes value.now.text)))) }
{
    write_type(value.library.as_str(), value.name.as_str(), text)?;
    text.extend_from_slice(b" ")?;
    write_literal(value.text.as_bytes(), text)
}

/// Writes the name of a datatype: that of a built-in one as it is, any other after `xsd:`.
fn write_type(library: &str, name: &str, text: &mut Vec<u8>) -> Result<(), OutOfMemory>
    ensures { OnOk result (text.new.items ≡ text.old.items ++ named_type_text library.now name.now) }
{
    if !library.is_empty() {
        text.extend_from_slice(b"xsd:")?;
    }
    Ok(text.extend_from_slice(name.as_bytes())?)
}

/// Writes parameters in braces, if there are any.
fn write_parameters(parameters: &[(String, String)], text: &mut Vec<u8>) -> Result<(), OutOfMemory>
    ensures { OnOk result (text.new.items ≡ text.old.items ++ parameters_text (map parameter_of parameters.now)) }
{
    if parameters.is_empty() {
        return Ok(());
    }
    text.extend_from_slice(b" { ")?;
    'parameters: for (name, value) in parameters {
        write_parameter(name.as_str(), value.as_str(), text)?;
    }
    Ok(text.extend_from_slice(b"}")?)
}

/// Writes a parameter and a space.
fn write_parameter(name: &str, value: &str, text: &mut Vec<u8>) -> Result<(), OutOfMemory>
    ensures { OnOk result (text.new.items ≡ text.old.items ++ parameter_text (name.now, value.now)) }
{
    text.extend_from_slice(name.as_bytes())?;
    text.extend_from_slice(b" = ")?;
    write_literal(value.as_bytes(), text)?;
    Ok(text.extend_from_slice(b" ")?)
}
