// The table of types, by their names.
ghost use Rattle.std.specs.Prelude.{◌≡◌, ◌++◌, not};
ghost use Rattle.std.specs.Option.{option_map};
ghost use Rattle.rng_model.specs.datatypes.Facets.{named};
ghost use Rattle.rng_model.specs.xsd.Datatypes.{depends_on_context, from_to, from, up_to, unbounded};
ghost use Rattle.rng_model.specs.xsd.Datatypes.{text_types, number_types, primitive_types, complete_types};
ghost use Rattle.xsd_types.specs.views.Kinds.{maker_of, white_space_of, least_length};

use crate::lists::ItemKind;
use crate::octets::OctetKind;
use crate::range::WrittenRange;
use crate::words::WordKind;
use xsd_floats::FloatKind;
use xsd_moments::MomentKind;
use xsd_patterns::WhiteSpace;

/// The kind of a type: what its values are, and which parameters it takes.
#[derive(Clone, Copy)]
pub(crate) enum Kind {
    Text(TextKind),
    Boolean,
    QName,
    Integer(WrittenRange),
    Ordered(OrderedKind),
}

/// The kind of a type whose values are ordered, and are no integers.
#[derive(Clone, Copy)]
pub(crate) enum OrderedKind {
    Decimal,
    Float(FloatKind),
    Duration,
    Time,
    Moment(MomentKind),
}

/// The kind of a type whose values are texts of a number of characters, lists of a number of items, or a number of octets.
#[derive(Clone, Copy)]
pub(crate) enum TextKind {
    String,
    NormalizedString,
    Token,
    NcName,
    NmToken,
    Uri,
    Word(WordKind),
    List(ItemKind),
    Octets(OctetKind),
}

// how the white space of a text is treated before anything else is asked of it
pub(crate) fn white_space_of(kind: &Kind) -> WhiteSpace
    ensures { result ≡ white_space_of kind.now }
{
    match kind {
        Kind::Text(TextKind::String) => WhiteSpace::Preserve,
        Kind::Text(TextKind::NormalizedString) => WhiteSpace::Replace,
        _ => WhiteSpace::Collapse,
    }
}

// the least number that a parameter may write that bounds the length of a value of the type
pub(crate) fn least_length(kind: TextKind) -> u8
    ensures { result ≡ least_length kind }
{
    match kind {
        TextKind::List(_) => 1,
        _ => 0,
    }
}

// the kind of the type of that name
pub(crate) fn find_kind(name: &str) -> Option<Kind>
    ensures { option_map maker_of result ≡ named name.now complete_types }
{
    match find_text(name) {
        Some(kind) => Some(kind),
        None => find_number_or_primitive(name),
    }
}

fn find_number_or_primitive(name: &str) -> Option<Kind>
    ensures { option_map maker_of result ≡ named name.now (number_types ++ primitive_types) }
{
    match find_number(name) {
        Some(kind) => Some(kind),
        None => find_primitive(name),
    }
}

// the kind of the type of that name whose values are texts
fn find_text(name: &str) -> Option<Kind>
    ensures { option_map maker_of result ≡ named name.now text_types }
{
    match name {
        "string" => Some(Kind::Text(TextKind::String)),
        "boolean" => Some(Kind::Boolean),
        "anyURI" => Some(Kind::Text(TextKind::Uri)),
        "QName" | "NOTATION" => Some(Kind::QName),
        "normalizedString" => Some(Kind::Text(TextKind::NormalizedString)),
        "token" => Some(Kind::Text(TextKind::Token)),
        "language" => Some(Kind::Text(TextKind::Word(WordKind::Language))),
        "NMTOKEN" => Some(Kind::Text(TextKind::NmToken)),
        "NMTOKENS" => Some(Kind::Text(TextKind::List(ItemKind::NmToken))),
        "Name" => Some(Kind::Text(TextKind::Word(WordKind::Name))),
        "NCName" | "ID" | "IDREF" | "ENTITY" => Some(Kind::Text(TextKind::NcName)),
        "IDREFS" | "ENTITIES" => Some(Kind::Text(TextKind::List(ItemKind::NcName))),
        _ => None,
    }
}

// the kind of the type of that name whose values are integers
fn find_number(name: &str) -> Option<Kind>
    ensures { option_map maker_of result ≡ named name.now number_types }
{
    match name {
        "integer" => Some(unbounded()),
        "nonPositiveInteger" => Some(up_to("0")),
        "negativeInteger" => Some(up_to("-1")),
        "long" => Some(from_to("-9223372036854775808", "9223372036854775807")),
        "int" => Some(from_to("-2147483648", "2147483647")),
        "short" => Some(from_to("-32768", "32767")),
        "byte" => Some(from_to("-128", "127")),
        "nonNegativeInteger" => Some(from("0")),
        "unsignedLong" => Some(from_to("0", "18446744073709551615")),
        "unsignedInt" => Some(from_to("0", "4294967295")),
        "unsignedShort" => Some(from_to("0", "65535")),
        "unsignedByte" => Some(from_to("0", "255")),
        "positiveInteger" => Some(from("1")),
        _ => None,
    }
}

// the kind of the primitive type of that name whose values are no texts
fn find_primitive(name: &str) -> Option<Kind>
    ensures { option_map maker_of result ≡ named name.now primitive_types }
{
    match name {
        "decimal" => Some(Kind::Ordered(OrderedKind::Decimal)),
        "float" => Some(Kind::Ordered(OrderedKind::Float(FloatKind::Float))),
        "double" => Some(Kind::Ordered(OrderedKind::Float(FloatKind::Double))),
        "duration" => Some(Kind::Ordered(OrderedKind::Duration)),
        "dateTime" => Some(Kind::Ordered(OrderedKind::Moment(MomentKind::DateTime))),
        "time" => Some(Kind::Ordered(OrderedKind::Time)),
        "date" => Some(Kind::Ordered(OrderedKind::Moment(MomentKind::Date))),
        "gYearMonth" => Some(Kind::Ordered(OrderedKind::Moment(MomentKind::YearMonth))),
        "gYear" => Some(Kind::Ordered(OrderedKind::Moment(MomentKind::Year))),
        "gMonthDay" => Some(Kind::Ordered(OrderedKind::Moment(MomentKind::MonthDay))),
        "gDay" => Some(Kind::Ordered(OrderedKind::Moment(MomentKind::Day))),
        "gMonth" => Some(Kind::Ordered(OrderedKind::Moment(MomentKind::Month))),
        "hexBinary" => Some(Kind::Text(TextKind::Octets(OctetKind::Hex))),
        "base64Binary" => Some(Kind::Text(TextKind::Octets(OctetKind::Base64))),
        _ => None,
    }
}

/// Returns whether texts may be given as values of the type of that name.
///
/// The value of a text in `QName` and `NOTATION` depends on what its prefix is declared as. XML Schema Part 2, sections
/// 3.2.18 and 3.2.19. Allocates nothing.
pub fn takes_values(name: &str) -> bool
    ensures { result ≡ not (depends_on_context name.now) }
{
    !matches!(name, "QName" | "NOTATION")
}

fn from_to(least: &'static str, greatest: &'static str) -> Kind
    ensures { maker_of result ≡ from_to least.now greatest.now }
{
    Kind::Integer(WrittenRange {
        least: Some(least),
        greatest: Some(greatest),
    })
}

fn from(least: &'static str) -> Kind
    ensures { maker_of result ≡ from least.now }
{
    Kind::Integer(WrittenRange {
        least: Some(least),
        greatest: None,
    })
}

fn up_to(greatest: &'static str) -> Kind
    ensures { maker_of result ≡ up_to greatest.now }
{
    Kind::Integer(WrittenRange {
        least: None,
        greatest: Some(greatest),
    })
}

fn unbounded() -> Kind
    ensures { maker_of result ≡ unbounded }
{
    Kind::Integer(WrittenRange {
        least: None,
        greatest: None,
    })
}
