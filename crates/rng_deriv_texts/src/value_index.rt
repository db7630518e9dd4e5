// Ways by the texts of the values that are their leaves.
ghost use Rattle.std.specs.Prelude.{◌≡◌, ◌∷◌, ◌++◌, ◌<◌, [], IfOk, IfSome, List, OnOk, String, length, string_bytes, true};
ghost use Rattle.std.specs.Global.{Global};
ghost use Rattle.rng_model.specs.matching.Document.{a_text};
ghost use Rattle.rng_model.specs.simple.Table.{Table};
ghost use Rattle.rng_types.specs.views.View.{meaning_by};
ghost use Rattle.xsd_types.specs.views.View.{known_meaning, plain_meaning};
ghost use Rattle.xsd_types.specs.views.View as xsd;
ghost use Rattle.rng_deriv_table.specs.views.Node.{Node};
ghost use Rattle.rng_deriv_ways.specs.plain.Ways.{AreInside};
ghost use Rattle.rng_deriv_ways.specs.views.Datatypes.{AreDatatypesOf};
ghost use Rattle.rng_deriv_ways.specs.views.Plans.{IsIndex, IsKeptFor, IsPlan, TakesOnly};
ghost use Rattle.rng_deriv_ways.specs.declared.way.LeafWay.{LeafWay};
ghost use Rattle.rng_deriv_texts.specs.plain.ValueWays.{AreNarrowed, AreNarrowedFor, ComparesTexts, IsKeptOrIs};

use crate::first::First;
use rng_deriv_table::{Pattern, PatternNumber, PatternTable};
use rng_deriv_ways::{Context, Datatypes, LeafWay, Plan, ValueIndex, Ways};
use rng_model::{OutOfMemory, Simple, collapse};
use rng_types::Builtin;
use smallvec::SmallVec;
use std::alloc::Global;
use std::collections::HashMap;
use xsd_types::{KnownDatatype, PlainType, XsdType};

/// Returns true only if texts that are equal by a datatype are one text once their blanks are collapsed. The integers
/// `01` and `1` are equal, and so are the booleans `true` and `1`.
fn compares_texts(datatype: &KnownDatatype) -> bool
    ensures { result ≡ true → ComparesTexts (known_meaning datatype.now) }
{
    match datatype {
        KnownDatatype::Builtin(datatype) => builtin_compares_texts(datatype),
        KnownDatatype::Xsd(datatype) => xsd_compares_texts(datatype),
    }
}

/// The same of a datatype of the library of XML Schema. Items that are equal are one text with a space between each two.
fn xsd_compares_texts(datatype: &XsdType) -> bool
    ensures { result ≡ true → ComparesTexts (xsd.meaning_by datatype.now) }
{
    plain_compares_texts(&datatype.plain)
}

/// The same of a datatype without its patterns.
fn plain_compares_texts(datatype: &PlainType) -> bool
    ensures { result ≡ true → ComparesTexts (plain_meaning datatype.now) }
{
    match datatype {
        PlainType::String(_) => true,
        PlainType::NormalizedString(_) => true,
        PlainType::Token(_) => true,
        PlainType::NcName(_) => true,
        PlainType::NmToken(_) => true,
        PlainType::Uri(_) => true,
        PlainType::Word(_) => true,
        PlainType::List(_) => true,
        PlainType::Boolean(_) | PlainType::Octets(_) => false,
        PlainType::Integer(_) | PlainType::Decimal(_) => false,
        PlainType::Float(_) | PlainType::Duration(_) => false,
        PlainType::Time(_) | PlainType::Moment(_) => false,
    }
}

/// The same of a datatype of the profile, or one that is built in.
fn builtin_compares_texts(datatype: &Builtin) -> bool
    ensures { result ≡ true → ComparesTexts (meaning_by datatype.now) }
{
    match datatype {
        Builtin::PlainString(_) | Builtin::PlainToken(_) => true,
        Builtin::XsdString(_) | Builtin::XsdToken(_) => true,
        Builtin::NcName(_) | Builtin::NmToken(_) => true,
        Builtin::Boolean(_) | Builtin::Integer(_) => false,
    }
}

/// Returns the only text that a leaf takes, once blanks are collapsed, if the leaf is a value that tells it. Fails only
/// when out of memory. The cost is that of the text.
fn only_text(
    context: &Context,
    table: &PatternTable,
    datatypes: &Datatypes,
    leaf: PatternNumber,
) -> Result<Option<String>, OutOfMemory>
    requires inside { leaf.0 < length table.now }
    requires datatypes { AreDatatypesOf context.now.grammar.now datatypes.now }
    ensures { IfOk result (λ o. IfSome o (λ text. TakesOnly context.now.grammar.now table.now (string_bytes text) leaf)) }
{
    let Pattern::Data(position) = table.pattern(leaf) else {
        return Ok(None);
    };
    let Some(Simple::Value(value)) = context.grammar.pattern(*position) else {
        return Ok(None);
    };
    match datatypes.at(*position) {
        Some(datatype) if compares_texts(datatype) => {
            Ok(Some(collapse(context.alloc, value.text.as_str())?))
        }
        _ => Ok(None),
    }
}

/// Keeps a way for a text, behind those that are kept for it already. Fails only when out of memory.
fn keep_for(
    alloc: Global,
    by_text: &mut HashMap<String, Ways>,
    text: String,
    way: LeafWay,
) -> Result<(), OutOfMemory>
    ensures within { OnOk result ((other : String Global) (w : LeafWay) → IsKeptFor by_text.new other w → IsKeptOrIs by_text.old other way w) }
    ensures stay { OnOk result ((other : String Global) (w : LeafWay) → IsKeptFor by_text.old other w → IsKeptFor by_text.new other w) }
    ensures own { OnOk result (IsKeptFor by_text.new text way) }
{
    let mut ways = by_text
        .remove(text.as_str())
        .unwrap_or(SmallVec::new(alloc));
    ways.push(way)?;
    by_text.insert(text, ways)?;
    Ok(())
}

/// Adds a way to an index, by the only text that its leaf takes, if there is one. Fails only when out of memory.
fn add_to_index(
    alloc: Global,
    index: &mut ValueIndex,
    text: Option<String>,
    way: LeafWay,
) -> Result<(), OutOfMemory>
    ensures { OnOk result ((t : Table) (ns : List Node) (ws : List LeafWay) → IfSome text (λ text. TakesOnly t ns (string_bytes text) way.leaf)
        → IsIndex t ns ws index.old → IsIndex t ns (ws ++ way ∷ []) index.new) }
{
    let Some(text) = text else {
        index.others.push(way)?;
        return Ok(());
    };
    keep_for(alloc, &mut index.by_text, text, way)
}

/// Returns the index of some ways to take a string. Fails only when out of memory. The cost is that of the texts of the
/// values, and a look-up for each. The index holds these texts once more.
pub fn index_of(
    context: &Context,
    table: &PatternTable,
    datatypes: &Datatypes,
    ways: &[LeafWay],
) -> Result<ValueIndex, OutOfMemory>
    requires inside { AreInside table.now ways.now }
    requires datatypes { AreDatatypesOf context.now.grammar.now datatypes.now }
    ensures { IfOk result (IsIndex context.now.grammar.now table.now ways.now) }
{
    let mut index = ValueIndex {
        by_text: HashMap::new(context.alloc),
        others: SmallVec::new(context.alloc),
    };
    'ways: for way in ways {
        let text = only_text(context, table, datatypes, way.leaf)?;
        add_to_index(context.alloc, &mut index, text, *way)?;
    }
    Ok(index)
}

/// Returns the ways of an index whose leaves may take a text. Fails only when out of memory. The cost is that of the
/// text and of a look-up, and a copy of the ways.
fn ways_by_text(alloc: Global, index: &ValueIndex, text: &str) -> Result<Ways, OutOfMemory>
    ensures { IfOk result (λ few. (t : Table) (ns : List Node) (ws : List LeafWay) → IsIndex t ns ws index.now → AreNarrowedFor t ns [] (a_text text.now ∷ []) ws few.items) }
{
    let text = collapse(alloc, text)?;
    let mut ways: Ways = SmallVec::from_slice(alloc, index.others.as_slice())?;
    if let Some(own) = index.by_text.get(text.as_str()) {
        ways.extend_from_slice(own.as_slice())?;
        return Ok(ways);
    }
    Ok(ways)
}

/// Returns the ways of a plan whose leaves may take this: all, unless an index of the plan says more. Fails only when
/// out of memory. The cost is that of a string and of a look-up, and a copy of the ways.
pub fn ways_to_test(alloc: Global, plan: &Plan, first: First) -> Result<Ways, OutOfMemory>
    ensures { IfOk result (λ few. (t : Table) (ns : List Node) → IsPlan t ns plan.now → AreNarrowed t ns first.entry plan.now.ways.items few.items) }
{
    match (first, &plan.values) {
        (First::Text(_, text), Some(index)) => ways_by_text(alloc, index, text),
        _ => Ok(SmallVec::from_slice(alloc, plan.ways.as_slice())?),
    }
}
