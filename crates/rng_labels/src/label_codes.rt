// What distinguishes labels: the parts by which each is written, one after another.
ghost use Rattle.std.specs.Prelude.{◌≡◌, ◌∷◌, ◌++◌, [], IfOk, OnOk, map, string_bytes};
ghost use Rattle.rng_model.specs.names.Names.{some_of};
ghost use Rattle.rng_model.specs.schema.Patterns.{without_parameters};
ghost use Rattle.rng_model.specs.datatypes.DatatypeViews.{datatype_of};
ghost use Rattle.rng_model.specs.names.NameViews.{class_of};
ghost use Rattle.rng_labels.specs.plain.LabelCodes.{any, any_but, either};
ghost use Rattle.rng_labels.specs.plain.LabelCodes.{AreCodesApart, IsPlaced, class_code, codes_of, datatype_code, part_of, value_code};

use indexmap::IndexSet;
use rng_model::{Datatype, DatatypeValue, NameClass, Namespace};
use std::alloc::AllocError;

/// A part by which a label is written.
#[derive(Clone, Copy, PartialEq, Eq, Hash)]
pub enum LabelPart<'a> {
    /// A number that the caller gives.
    Number(usize),
    /// A text of a datatype or of a value.
    Text(&'a str),
    /// Every name.
    Any,
    /// Every name except those of the class before it.
    AnyBut,
    /// Every name of a namespace.
    Ns(&'a Namespace),
    /// Every name of a namespace except those of the class before it.
    NsBut(&'a Namespace),
    /// A name: its namespace, and its local name.
    Name(&'a Namespace, &'a str),
    /// The names of both classes before it.
    Either,
}

/// Returns the place of a code among these, or `None` if it was not there and was added as the last one. Fails only
/// when out of memory.
pub fn place_of_code<'a>(
    codes: &mut IndexSet<Vec<LabelPart<'a>>>,
    code: Vec<LabelPart<'a>>,
) -> Result<Option<usize>, AllocError>
    ensures apart { OnOk result (AreCodesApart (codes_of codes.new)) }
    ensures placed { IfOk result (IsPlaced (codes_of codes.old) (codes_of codes.new) (map part_of code.entry.items)) }
{
    let (place, is_new) = codes.insert_full(code)?;
    if is_new {
        return Ok(None);
    }
    Ok(Some(place))
}

/// Appends a part. Fails only when out of memory.
#[inline(never)]
#[tactic(auto, using(crate::proofs::LabelCodes::put_part))]
pub fn put<'a>(code: &mut Vec<LabelPart<'a>>, part: LabelPart<'a>) -> Result<(), AllocError>
    ensures { OnOk result (map part_of code.new.items ≡ map part_of code.old.items ++ part_of part.entry ∷ []) }
{
    code.push(part)?;
    Ok(())
}

/// Appends the parts of a name class. Fails only when out of memory.
// Not inlined, as its frame is large: it has room for a part at each call of `put`.
#[cycle(codes)]
#[inline(never)]
#[tactic(auto, using(crate::proofs::LabelCodes::put_after), unfolding(crate::specs::plain::LabelCodes::class_code))]
pub fn put_class<'a>(code: &mut Vec<LabelPart<'a>>, class: &'a NameClass) -> Result<(), AllocError>
    ensures { OnOk result (map part_of code.new.items ≡ map part_of code.old.items ++ class_code (class_of class.now) []) }
{
    match class {
        NameClass::Any => put(code, LabelPart::Any),
        NameClass::AnyExcept(except) => {
            put_class(code, except)?;
            put(code, LabelPart::AnyBut)?;
            Ok(())
        }
        NameClass::Ns(ns) => put(code, LabelPart::Ns(ns)),
        NameClass::NsExcept(ns, except) => {
            put_class(code, except)?;
            put(code, LabelPart::NsBut(ns))?;
            Ok(())
        }
        NameClass::Name(name) => put(code, LabelPart::Name(&name.ns, name.local.as_str())),
        NameClass::Choice(members) => put_members(code, members),
    }
}

/// Appends the parts of a choice of these members. A choice of none is every name except every name.
#[cycle(codes)]
#[tactic(auto, using(crate::proofs::LabelCodes::of_none))]
fn put_members<'a>(
    code: &mut Vec<LabelPart<'a>>,
    members: &'a [NameClass],
) -> Result<(), AllocError>
    ensures { OnOk result (map part_of code.new.items ≡ map part_of code.old.items ++ class_code (some_of (map class_of members.now)) []) }
{
    let [first, rest @ ..] = members else {
        return put_none(code);
    };
    put_member(code, first)?;
    for member in rest {
        put_member(code, member)?;
        put_either(code)?;
    }
    Ok(())
}

/// Appends the parts of a member of a choice.
// A list of names nests as deep as it is long (RELAX NG Specification, section 4.12). So a choice in a choice does not
// go through `put_class`.
#[cycle(codes)]
#[tactic(auto, unfolding(crate::specs::plain::LabelCodes::class_code))]
fn put_member<'a>(code: &mut Vec<LabelPart<'a>>, member: &'a NameClass) -> Result<(), AllocError>
    ensures { OnOk result (map part_of code.new.items ≡ map part_of code.old.items ++ class_code (class_of member.now) []) }
{
    match member {
        NameClass::Choice(members) => put_members(code, members),
        _ => put_class(code, member),
    }
}

/// Appends the parts of every name except every name.
#[inline(never)]
#[tactic(auto, using(crate::proofs::LabelCodes::put_two))]
fn put_none<'a>(code: &mut Vec<LabelPart<'a>>) -> Result<(), AllocError>
    ensures { OnOk result (map part_of code.new.items ≡ map part_of code.old.items ++ any ∷ (any_but ∷ [])) }
{
    put(code, LabelPart::Any)?;
    put(code, LabelPart::AnyBut)
}

/// Appends the part of a choice of two classes.
#[inline(never)]
fn put_either<'a>(code: &mut Vec<LabelPart<'a>>) -> Result<(), AllocError>
    ensures { OnOk result (map part_of code.new.items ≡ map part_of code.old.items ++ either ∷ []) }
{
    put(code, LabelPart::Either)
}

/// Appends the parts of a datatype. Fails only when out of memory.
pub fn put_datatype<'a>(
    code: &mut Vec<LabelPart<'a>>,
    datatype: &'a Datatype,
) -> Result<(), AllocError>
    ensures { OnOk result (map part_of code.new.items ≡ map part_of code.old.items ++ datatype_code (datatype_of datatype.now)) }
{
    put(code, LabelPart::Text(datatype.library.as_str()))?;
    put(code, LabelPart::Text(datatype.name.as_str()))?;
    'parameters: for (name, value) in &datatype.parameters {
        put(code, LabelPart::Text(name.as_str()))?;
        put(code, LabelPart::Text(value.as_str()))?;
    }
    Ok(())
}

/// Appends the parts of a value of a datatype without parameters. Fails only when out of memory.
pub fn put_value<'a>(
    code: &mut Vec<LabelPart<'a>>,
    value: &'a DatatypeValue,
) -> Result<(), AllocError>
    ensures { OnOk result (map part_of code.new.items ≡ map part_of code.old.items
        ++ value_code (without_parameters (string_bytes value.now.library) (string_bytes value.now.name), string_bytes value.now.text)) }
{
    put(code, LabelPart::Text(value.library.as_str()))?;
    put(code, LabelPart::Text(value.name.as_str()))?;
    put(code, LabelPart::Text(value.text.as_str()))
}
