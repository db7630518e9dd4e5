// Content types.
ghost use Rattle.std.specs.Prelude.{◌≡◌};
ghost use Rattle.rng_rules.specs.plain.Facts as facts;

/// The content type of an element. The later of two variants is the greater.
///
/// RELAX NG Specification, section 7.2.
#[derive(Clone, Copy)]
pub enum ContentType {
    Empty,
    Complex,
    Simple,
}

/// Returns the greater of two.
fn greater(first: ContentType, second: ContentType) -> ContentType
    ensures { result ≡ facts.greater first second }
{
    match (first, second) {
        (ContentType::Simple, _) | (_, ContentType::Simple) => ContentType::Simple,
        (ContentType::Complex, _) | (_, ContentType::Complex) => ContentType::Complex,
        _ => ContentType::Empty,
    }
}

/// Returns the content type of a choice, if both sides have one.
pub fn of_either(first: Option<ContentType>, second: Option<ContentType>) -> Option<ContentType>
    ensures { result ≡ facts.of_either first second }
{
    Some(greater(first?, second?))
}

/// Returns the content type of a group or an interleave, if both sides have one and these may be grouped: one is empty,
/// or both are complex. For a oneOrMore, both sides are its content.
pub fn of_both(first: Option<ContentType>, second: Option<ContentType>) -> Option<ContentType>
    ensures { result ≡ facts.of_both first second }
{
    match (first?, second?) {
        (ContentType::Empty, other) | (other, ContentType::Empty) => Some(other),
        (ContentType::Complex, ContentType::Complex) => Some(ContentType::Complex),
        _ => None,
    }
}

/// Returns the content type of an attribute: empty, if its content has one.
pub fn of_attribute(content: Option<ContentType>) -> Option<ContentType>
    ensures { result ≡ facts.of_attribute content }
{
    content.map(|_| ContentType::Empty)
}
