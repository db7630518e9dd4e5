// Names that were found to be good.
ghost use Rattle.std.specs.Prelude.{◌≡◌, true};
ghost use Rattle.rng_model.specs.documents.Telling.{is_good_name};
ghost use Rattle.rng_model.specs.names.NameViews.{name_of};
ghost use Rattle.element_events.specs.views.Told.{name_told};

use crate::names::ExpandedName;
use rng_model::Name;

/// A name whose local name is an NCName, and whose namespace has characters of XML alone.
#[derive(Drop)]
pub struct GoodName {
    pub name: Name,
    ghost good: { is_good_name (name_of name) ≡ true },
}

/// Returns whether two namespaces are the same. Costs little for the usual one, which is empty.
pub fn is_same(a: &str, b: &str) -> bool
    ensures { result ≡ true → a.now ≡ b.now }
{
    if b.is_empty() {
        return a.is_empty();
    }
    a == b
}

impl GoodName {
    /// Returns whether this is the other name, which then is good too. Costs a comparison of the bytes.
    pub fn is(&self, other: ExpandedName<'_>) -> bool
        ensures same { result ≡ true → name_of self.now.name ≡ name_told other.entry }
        ensures good { result ≡ true → is_good_name (name_told other.entry) ≡ true }
    {
        self.name.local.as_str() == other.local && is_same(self.name.ns.as_str(), other.namespace)
    }
}
