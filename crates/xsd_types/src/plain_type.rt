// The datatypes of the set without their patterns.
ghost use Rattle.std.specs.Prelude.{◌≡◌, Some, None, map, IfOk, IfErr};
ghost use Rattle.rng_model.specs.datatypes.DatatypeViews.{parameter_of};
ghost use Rattle.rng_types.specs.views.View.{lengths_of};
ghost use Rattle.rng_model.specs.datatypes.Datatypes.{without, is_allowed_by, are_equal_by};
ghost use Rattle.rng_model.proofs.ValueLaws as laws;
ghost use Rattle.rng_model.specs.plain.NamedTypes.{meaning_named};
ghost use Rattle.xsd_types.specs.views.View.{plain_meaning};
ghost use Rattle.xsd_types.specs.views.Kinds.{ordered_maker, plain_maker, text_meaning};
ghost use Rattle.xsd_types.specs.views.Finding.{HasFault, IsMade};

use crate::decimals::BoundedDecimal;
use crate::durations::{DurationBound, Durations};
use crate::fault::TypeFault;
use crate::floats::{FloatBound, Floats};
use crate::integers::Integer;
use crate::kind::{Kind, OrderedKind, TextKind, least_length};
use crate::lengths::lengths;
use crate::limited::Limited;
use crate::lists::List;
use crate::moments::{MomentBound, Moments};
use crate::normalized::NormalizedString;
use crate::octets::Octets;
use crate::times::{TimeBound, Times};
use crate::uris::Uri;
use crate::words::{Word, WordKind};
use rng_types::{Boolean, Datatype, Lengths, NcName, NmToken, XsdString, XsdToken};
use std::alloc::Global;

/// A datatype of XML Schema, with its parameters but for the patterns.
#[derive(Drop)]
pub enum PlainType {
    String(XsdString),
    NormalizedString(NormalizedString),
    Token(XsdToken),
    NcName(NcName),
    NmToken(NmToken),
    Uri(Uri),
    Word(Word),
    List(List),
    Boolean(Boolean),
    Octets(Octets),
    Integer(Integer),
    Decimal(BoundedDecimal),
    Float(Limited<FloatBound, Floats>),
    Duration(Limited<DurationBound, Durations>),
    Time(Limited<TimeBound, Times>),
    Moment(Limited<MomentBound, Moments>),
}

// the datatype of this kind with the parameters, if it takes them
pub(crate) fn plain_type(
    alloc: Global,
    kind: Kind,
    params: &[(String, String)],
) -> Result<PlainType, TypeFault>
    ensures { IsMade plain_meaning (plain_maker kind (map parameter_of params.now)) result }
{
    match kind {
        Kind::Text(kind) => Ok(with_lengths(kind, lengths(params, least_length(kind))?)),
        Kind::Boolean if params.is_empty() => Ok(PlainType::Boolean(Boolean)),
        Kind::QName if params.is_empty() => Ok(PlainType::Word(qname())),
        Kind::Boolean | Kind::QName => Err(TypeFault::BadParameter),
        Kind::Integer(range) => Ok(PlainType::Integer(Integer::find(alloc, &range, params)?)),
        Kind::Ordered(kind) => ordered_type(alloc, kind, params),
    }
}

fn ordered_type(
    alloc: Global,
    kind: OrderedKind,
    params: &[(String, String)],
) -> Result<PlainType, TypeFault>
    ensures { IsMade plain_meaning (ordered_maker kind (map parameter_of params.now)) result }
{
    match kind {
        OrderedKind::Decimal => Ok(PlainType::Decimal(BoundedDecimal::find(alloc, params)?)),
        OrderedKind::Duration => Ok(PlainType::Duration(Limited::find(alloc, Durations, params)?)),
        OrderedKind::Time => Ok(PlainType::Time(Limited::find(alloc, Times, params)?)),
        OrderedKind::Float(kind) => Ok(PlainType::Float(Limited::find(
            alloc,
            Floats { kind },
            params,
        )?)),
        OrderedKind::Moment(kind) => Ok(PlainType::Moment(Limited::find(
            alloc,
            Moments { kind },
            params,
        )?)),
    }
}

fn with_lengths(kind: TextKind, lengths: Lengths) -> PlainType
    ensures { plain_meaning result ≡ text_meaning kind (lengths_of lengths) }
{
    match kind {
        TextKind::String => PlainType::String(XsdString { lengths }),
        TextKind::NormalizedString => PlainType::NormalizedString(NormalizedString { lengths }),
        TextKind::Token => PlainType::Token(XsdToken { lengths }),
        TextKind::NcName => PlainType::NcName(NcName { lengths }),
        TextKind::NmToken => PlainType::NmToken(NmToken { lengths }),
        TextKind::Uri => PlainType::Uri(Uri { lengths }),
        TextKind::Word(kind) => PlainType::Word(Word { kind, lengths }),
        TextKind::List(kind) => PlainType::List(List { kind, lengths }),
        TextKind::Octets(kind) => PlainType::Octets(Octets { kind, lengths }),
    }
}

// the spelling of a qualified name, of any length
fn qname() -> Word
    ensures { result ≡ record { kind = WordKind.QName; lengths = record { min = None; max = None } } }
{
    Word {
        kind: WordKind::QName,
        lengths: Lengths {
            min: None,
            max: None,
        },
    }
}

impl Datatype for PlainType {
    ghost allows = { λ d s. is_allowed_by (plain_meaning d) s };

    ghost equal = { λ d v w. are_equal_by (plain_meaning d) v w };

    ghost equal_allowed = { λ d v w e. laws.equal_allowed (plain_meaning d) v w e };

    ghost equal_reflexive = { λ d v e. laws.equal_reflexive (plain_meaning d) v e };

    ghost equal_symmetric = { λ d v w e. laws.equal_symmetric (plain_meaning d) v w e };

    ghost equal_transitive = { λ d u v w e f. laws.equal_transitive (plain_meaning d) u v w e f };

    fn allows(&self, text: &str) -> bool {
        match self {
            PlainType::String(datatype) => datatype.allows(text),
            PlainType::NormalizedString(datatype) => datatype.allows(text),
            PlainType::Token(datatype) => datatype.allows(text),
            PlainType::NcName(datatype) => datatype.allows(text),
            PlainType::NmToken(datatype) => datatype.allows(text),
            PlainType::Uri(datatype) => datatype.allows(text),
            PlainType::Word(datatype) => datatype.allows(text),
            PlainType::List(datatype) => datatype.allows(text),
            PlainType::Boolean(datatype) => datatype.allows(text),
            PlainType::Octets(datatype) => datatype.allows(text),
            PlainType::Integer(datatype) => datatype.allows(text),
            PlainType::Decimal(datatype) => datatype.allows(text),
            PlainType::Float(datatype) => datatype.allows(text),
            PlainType::Duration(datatype) => datatype.allows(text),
            PlainType::Time(datatype) => datatype.allows(text),
            PlainType::Moment(datatype) => datatype.allows(text),
        }
    }

    fn equal(&self, a: &str, b: &str) -> bool {
        match self {
            PlainType::String(datatype) => datatype.equal(a, b),
            PlainType::NormalizedString(datatype) => datatype.equal(a, b),
            PlainType::Token(datatype) => datatype.equal(a, b),
            PlainType::NcName(datatype) => datatype.equal(a, b),
            PlainType::NmToken(datatype) => datatype.equal(a, b),
            PlainType::Uri(datatype) => datatype.equal(a, b),
            PlainType::Word(datatype) => datatype.equal(a, b),
            PlainType::List(datatype) => datatype.equal(a, b),
            PlainType::Boolean(datatype) => datatype.equal(a, b),
            PlainType::Octets(datatype) => datatype.equal(a, b),
            PlainType::Integer(datatype) => datatype.equal(a, b),
            PlainType::Decimal(datatype) => datatype.equal(a, b),
            PlainType::Float(datatype) => datatype.equal(a, b),
            PlainType::Duration(datatype) => datatype.equal(a, b),
            PlainType::Time(datatype) => datatype.equal(a, b),
            PlainType::Moment(datatype) => datatype.equal(a, b),
        }
    }
}
