// Names and attributes as C passes them.
ghost use Rattle.std.specs.Prelude.{◌≡◌, All, IfErr, IfOk, IsUtf8, IsErrOf, OnOk, false, map, true};
ghost use Rattle.element_events.specs.views.Told.{attribute_told, name_told};
ghost use Rattle.rncv_c_values.specs.views.Attributes.{IsTextAttribute, IsTextName, attribute_of, name_of};

use rncv_events::{Attribute, EventFault, ExpandedName};
use std::alloc::Global;

/// A name as C passes it: the URI of its namespace and the local name, two pointers, each with a length. No pointer is
/// null.
#[repr(C)]
#[derive(Clone, Copy)]
pub struct NameBytes<'a> {
    pub uri: &'a [u8],
    pub local: &'a [u8],
}

/// An attribute as C passes it: a name and a value.
#[repr(C)]
#[derive(Clone, Copy)]
pub struct AttributeBytes<'a> {
    pub name: NameBytes<'a>,
    pub value: &'a [u8],
}

/// Returns whether the bytes are UTF-8. Bytes that are all ASCII cost less than others. It is a call, so that those who ask are
/// small enough to be inlined.
#[inline(never)]
fn is_text(bytes: &[u8]) -> bool
    ensures text { result ≡ true → IsUtf8 bytes.now }
    ensures none { result ≡ false → ¬ (IsUtf8 bytes.now) }
{
    if bytes.is_ascii() {
        return true;
    }
    match str::from_utf8(bytes) {
        Ok(_) => true,
        Err(_) => false,
    }
}

/// Returns the text of these bytes. Fails with `NotWellFormed` exactly if they are not UTF-8. Bytes that are all ASCII cost
/// less than others.
#[inline(always)]
pub fn text_of(bytes: &[u8]) -> Result<&str, EventFault>
    ensures text { IfOk result (λ text. text.now ≡ bytes.now) }
    ensures utf8 { OnOk result (IsUtf8 bytes.now) }
    ensures fault { IfErr result (λ fault. (fault ≡ EventFault.NotWellFormed) × ¬ (IsUtf8 bytes.now)) }
{
    if !is_text(bytes) {
        return Err(EventFault::NotWellFormed);
    }
    let text = unsafe { str::from_utf8_unchecked(bytes) };
    Ok(text)
}

/// Returns whether both parts of the name are UTF-8. The namespace is mostly empty, and then it costs nothing.
fn is_text_name(name: NameBytes<'_>) -> bool
    ensures text { result ≡ true → IsTextName (name_of name.entry) }
    ensures none { result ≡ false → ¬ (IsTextName (name_of name.entry)) }
{
    if !name.uri.is_empty() && !is_text(name.uri) {
        return false;
    }
    is_text(name.local)
}

/// Returns the name of parts that are UTF-8. Costs nothing.
#[inline(always)]
fn told_name(name: NameBytes<'_>) -> ExpandedName<'_>
    requires { IsTextName (name_of name) }
    ensures { name_told result ≡ name_of name.entry }
{
    ExpandedName {
        namespace: unsafe { str::from_utf8_unchecked(name.uri) },
        local: unsafe { str::from_utf8_unchecked(name.local) },
    }
}

/// Returns the name of these bytes. Fails with `NotWellFormed` exactly if a part is not UTF-8.
#[inline(always)]
pub fn text_name(name: NameBytes<'_>) -> Result<ExpandedName<'_>, EventFault>
    ensures name { IfOk result (λ told. name_told told ≡ name_of name.entry) }
    ensures texts { OnOk result (IsTextName (name_of name.entry)) }
    ensures fault { IfErr result (λ fault. (fault ≡ EventFault.NotWellFormed) × ¬ (IsTextName (name_of name.entry))) }
{
    if !is_text_name(name) {
        return Err(EventFault::NotWellFormed);
    }
    Ok(told_name(name))
}

/// Returns whether all parts of the attribute are UTF-8.
fn is_text_attribute(attribute: AttributeBytes<'_>) -> bool
    ensures text { result ≡ true → IsTextAttribute attribute.entry }
    ensures none { result ≡ false → ¬ (IsTextAttribute attribute.entry) }
{
    is_text_name(attribute.name) && is_text(attribute.value)
}

/// Returns the attribute of parts that are UTF-8. Costs nothing.
#[inline(always)]
fn told_attribute(attribute: AttributeBytes<'_>) -> Attribute<'_>
    requires { IsTextAttribute attribute }
    ensures { attribute_told result ≡ attribute_of attribute.entry }
{
    Attribute {
        name: told_name(attribute.name),
        value: unsafe { str::from_utf8_unchecked(attribute.value) },
    }
}

/// Returns the attributes of these bytes. Fails with `NotWellFormed` only if a part is not UTF-8, and with `Memory`.
#[inline(never)]
fn some_attributes<'a>(
    alloc: Global,
    attributes: &[AttributeBytes<'a>],
) -> Result<Vec<Attribute<'a>>, EventFault>
    ensures attributes { IfOk result (λ told. map attribute_told told.items ≡ map attribute_of attributes.now) }
    ensures texts { OnOk result (All IsTextAttribute attributes.now) }
    ensures fault { IsErrOf result EventFault.NotWellFormed → ¬ (All IsTextAttribute attributes.now) }
{
    let mut told = Vec::with_capacity(alloc, attributes.len())?;
    for attribute in attributes {
        if !is_text_attribute(*attribute) {
            return Err(EventFault::NotWellFormed);
        }
        told.push(told_attribute(*attribute))?;
    }
    Ok(told)
}

/// Returns the attributes of these bytes. Fails with `NotWellFormed` only if a part is not UTF-8, and with `Memory`. Costs
/// nothing if there are none.
#[inline(always)]
pub fn text_attributes<'a>(
    alloc: Global,
    attributes: &[AttributeBytes<'a>],
) -> Result<Vec<Attribute<'a>>, EventFault>
    ensures attributes { IfOk result (λ told. map attribute_told told.items ≡ map attribute_of attributes.now) }
    ensures texts { OnOk result (All IsTextAttribute attributes.now) }
    ensures fault { IsErrOf result EventFault.NotWellFormed → ¬ (All IsTextAttribute attributes.now) }
{
    if attributes.is_empty() {
        return Ok(Vec::new(alloc));
    }
    some_attributes(alloc, attributes)
}
