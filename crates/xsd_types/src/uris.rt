// `anyURI`.
ghost use Rattle.std.specs.Prelude.{◌≡◌};
ghost use Rattle.rng_model.specs.datatypes.Datatypes.{is_allowed_by, are_equal_by};
ghost use Rattle.rng_model.specs.datatypes.Facets.{fits};
ghost use Rattle.rng_model.specs.datatypes.Texts.{collapse};
ghost use Rattle.rng_model.specs.xsd.Uris.{xsd_any_uri};
ghost use Rattle.rng_types.specs.views.View.{lengths_of};

use rng_types::{Datatype, Lengths, XsdToken, is_same_collapsed};
use xsd_uris::is_uri;

/// `anyURI`: each text that is a URI reference once its white space is collapsed and it is escaped, with an allowed number of
/// characters before it is escaped. Texts that collapse to the same text are equal.
///
/// XML Schema Part 2, section 3.2.17.
#[derive(Clone, Copy, Debug)]
pub struct Uri {
    pub lengths: Lengths,
}

impl Uri {
    // whether the text is such a reference
    pub(crate) fn allows(&self, text: &str) -> bool
        ensures { result ≡ is_allowed_by (xsd_any_uri (lengths_of self.now.lengths)) text.now }
    {
        is_uri(text) && self.fits(text)
    }

    // whether the collapsed text has an allowed number of characters
    fn fits(&self, text: &str) -> bool
        ensures { result ≡ fits (lengths_of self.now.lengths) (collapse text.now) }
    {
        let token = XsdToken {
            lengths: self.lengths,
        };
        token.allows(text)
    }

    // whether both texts collapse to the same such reference
    pub(crate) fn equal(&self, a: &str, b: &str) -> bool
        ensures { result ≡ are_equal_by (xsd_any_uri (lengths_of self.now.lengths)) a.now b.now }
    {
        self.allows(a) && is_same_collapsed(a, b)
    }
}
