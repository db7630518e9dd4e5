// The lines of what may come next.
ghost use Rattle.std.specs.Prelude.{◌≡◌, ◌++◌, IfOk, OnOk, flat_map, map, string_bytes};
ghost use Rattle.rng_model.specs.datatypes.DatatypeViews.{datatype_of, parameter_of};
ghost use Rattle.rng_model.specs.names.NameViews.{class_of};
ghost use Rattle.rng_model.specs.schema.Patterns.{without_parameters};
ghost use Rattle.rng_expected.specs.views.Next.{next_of, value_of};
ghost use Rattle.expected_text.specs.ExpectationText.{datatype_line, element_lines, expectation_text, field, parameter_fields, text_line, type_fields, value_line};

use crate::class_parts::write_at;
use crate::fields::write_field;
use crate::parts::Place;
use rng_expected::Expected;
use rng_model::{Datatype, DatatypeValue, NameClass, OutOfMemory};
use std::alloc::Global;

/// Returns the text of what may come next: lines, each ended by a line feed, of fields with a space between.
///
/// First there is `element CLASS` for each class, or for each member if it is a choice. `*` is every name, `{URI}*` every
/// name of a namespace, `{URI}local` a name, and `CLASS except ( CLASS CLASS )` leaves out the names of other classes.
/// Then there is `text` if any text may come, `value LIBRARY NAME TEXT` for each value, and `datatype LIBRARY NAME` for
/// each datatype, with ` PARAMETER VALUE` behind it for each parameter, in the order of the schema. In a library, which may
/// be empty, a name, a text, a value and a URI, `\\`, `\n`, `\r`, `\t` and `\s` are a backslash, a line feed, a carriage
/// return, a tab and a space. A local name has no `}`, so lines are read in one way.
///
/// RELAX NG Specification, section 6.2. Fails only when out of memory. Time and memory are linear in the text.
pub fn expected_text(alloc: Global, expected: &Expected<'_>) -> Result<String, OutOfMemory>
    ensures { IfOk result (λ text. string_bytes text ≡ expectation_text (next_of expected.now)) }
{
    let mut text = String::new(alloc);
    write_elements(alloc, expected.elements.as_slice(), &mut text)?;
    write_text(expected.text, &mut text)?;
    write_values(expected.values.as_slice(), &mut text)?;
    write_datatypes(expected.datatypes.as_slice(), &mut text)?;
    Ok(text)
}

/// Writes the lines of the elements.
fn write_elements(
    alloc: Global,
    elements: &[&NameClass],
    text: &mut String,
) -> Result<(), OutOfMemory>
    ensures { OnOk result (string_bytes text.new ≡ string_bytes text.old ++ flat_map element_lines (map (λ c. class_of c.now) elements.now)) }
{
    'elements: for class in elements {
        write_at(alloc, Place::Element, class, text)?;
    }
    Ok(())
}

/// Writes the line of texts, if any text may come.
fn write_text(is_text: bool, text: &mut String) -> Result<(), OutOfMemory>
    ensures { OnOk result (string_bytes text.new ≡ string_bytes text.old ++ text_line is_text) }
{
    if !is_text {
        return Ok(());
    }
    Ok(text.push_str("text\n")?)
}

/// Writes the lines of the values.
fn write_values(values: &[&DatatypeValue], text: &mut String) -> Result<(), OutOfMemory>
    ensures { OnOk result (string_bytes text.new ≡ string_bytes text.old ++ flat_map value_line (map value_of values.now)) }
{
    'values: for value in values {
        write_value(value, text)?;
    }
    Ok(())
}

/// Writes the line of a value.
fn write_value(value: &DatatypeValue, text: &mut String) -> Result<(), OutOfMemory>
    ensures { OnOk result (string_bytes text.new ≡ string_bytes text.old
        ++ value_line (without_parameters (string_bytes value.now.library) (string_bytes value.now.name), string_bytes value.now.text)) }
{
    text.push_str("value ")?;
    write_type(value.library.as_str(), value.name.as_str(), text)?;
    text.push_str(" ")?;
    write_field(value.text.as_str(), text)?;
    Ok(text.push_str("\n")?)
}

/// Writes the lines of the datatypes.
fn write_datatypes(datatypes: &[&Datatype], text: &mut String) -> Result<(), OutOfMemory>
    ensures { OnOk result (string_bytes text.new ≡ string_bytes text.old ++ flat_map datatype_line (map (λ d. datatype_of d.now) datatypes.now)) }
{
    'datatypes: for datatype in datatypes {
        write_datatype(datatype, text)?;
    }
    Ok(())
}

/// Writes the line of a datatype.
fn write_datatype(datatype: &Datatype, text: &mut String) -> Result<(), OutOfMemory>
    ensures { OnOk result (string_bytes text.new ≡ string_bytes text.old ++ datatype_line (datatype_of datatype.now)) }
{
    text.push_str("datatype ")?;
    write_type(datatype.library.as_str(), datatype.name.as_str(), text)?;
    write_parameters(datatype.parameters.as_slice(), text)?;
    Ok(text.push_str("\n")?)
}

/// Writes the parameters of a datatype.
fn write_parameters(parameters: &[(String, String)], text: &mut String) -> Result<(), OutOfMemory>
    ensures { OnOk result (string_bytes text.new ≡ string_bytes text.old ++ flat_map parameter_fields (map parameter_of parameters.now)) }
{
    'parameters: for parameter in parameters {
        write_parameter(parameter, text)?;
    }
    Ok(())
}

/// Writes the name of a parameter and its value.
fn write_parameter(parameter: &(String, String), text: &mut String) -> Result<(), OutOfMemory>
    ensures { OnOk result (string_bytes text.new ≡ string_bytes text.old ++ parameter_fields (parameter_of parameter.now)) }
{
    let (name, value) = parameter;
    text.push_str(" ")?;
    write_field(name.as_str(), text)?;
    text.push_str(" ")?;
    write_field(value.as_str(), text)
}

/// Writes the library of a value or of a datatype, and its name there.
fn write_type(library: &str, name: &str, text: &mut String) -> Result<(), OutOfMemory>
    ensures { OnOk result (string_bytes text.new ≡ string_bytes text.old ++ type_fields (without_parameters library.now name.now)) }
{
    write_field(library, text)?;
    text.push_str(" ")?;
    write_field(name, text)
}
