// The datatypes of XML Schema whose values are texts.
ghost use Rattle.std.specs.Prelude.{◌≡◌};
ghost use Rattle.std.specs.Str.{chars};
ghost use Rattle.rng_model.specs.datatypes.Datatypes.{xsd_string, xsd_token, xsd_ncname, xsd_nmtoken, is_nmtoken, is_allowed_by, are_equal_by};
ghost use Rattle.rng_model.proofs.ValueLaws as laws;
ghost use Rattle.rng_types.specs.views.View.{lengths_of};

use crate::collapsed::{char_count, collapsed_char_count, only_piece};
use crate::datatype::Datatype;
use crate::lengths::Lengths;
use crate::runs::is_same_collapsed;
use crate::words::{ascii_word, starts_name};
use rng_model::{is_name_char, is_ncname};

/// `string`: every text whose number of characters is allowed. Each text is equal only to itself.
///
/// XML Schema Part 2, section 3.2.1.
#[derive(Clone, Copy, Debug)]
pub struct XsdString {
    pub lengths: Lengths,
}

impl Datatype for XsdString {
    ghost allows = { λ d s. is_allowed_by (xsd_string (lengths_of d.lengths)) s };

    ghost equal = { λ d v w. are_equal_by (xsd_string (lengths_of d.lengths)) v w };

    ghost equal_allowed = { λ d v w e. laws.equal_allowed (xsd_string (lengths_of d.lengths)) v w e };

    ghost equal_reflexive = { λ d v e. laws.equal_reflexive (xsd_string (lengths_of d.lengths)) v e };

    ghost equal_symmetric = { λ d v w e. laws.equal_symmetric (xsd_string (lengths_of d.lengths)) v w e };

    ghost equal_transitive = { λ d u v w e f. laws.equal_transitive (xsd_string (lengths_of d.lengths)) u v w e f };

    fn allows(&self, text: &str) -> bool {
        self.lengths.allow_all() || self.lengths.allow(char_count(text))
    }

    fn equal(&self, a: &str, b: &str) -> bool {
        self.allows(a) && a == b
    }
}

/// `token`: every text whose number of characters, once it is collapsed, is allowed. Texts that collapse to the same
/// text are equal.
///
/// XML Schema Part 2, section 3.3.2.
#[derive(Clone, Copy, Debug)]
pub struct XsdToken {
    pub lengths: Lengths,
}

impl Datatype for XsdToken {
    ghost allows = { λ d s. is_allowed_by (xsd_token (lengths_of d.lengths)) s };

    ghost equal = { λ d v w. are_equal_by (xsd_token (lengths_of d.lengths)) v w };

    ghost equal_allowed = { λ d v w e. laws.equal_allowed (xsd_token (lengths_of d.lengths)) v w e };

    ghost equal_reflexive = { λ d v e. laws.equal_reflexive (xsd_token (lengths_of d.lengths)) v e };

    ghost equal_symmetric = { λ d v w e. laws.equal_symmetric (xsd_token (lengths_of d.lengths)) v w e };

    ghost equal_transitive = { λ d u v w e f. laws.equal_transitive (xsd_token (lengths_of d.lengths)) u v w e f };

    fn allows(&self, text: &str) -> bool {
        self.lengths.allow_all() || self.lengths.allow(collapsed_char_count(text))
    }

    fn equal(&self, a: &str, b: &str) -> bool {
        self.allows(a) && is_same_collapsed(a, b)
    }
}

/// `NCName`: every text that collapses to a name without a colon, with an allowed number of characters. Texts that
/// collapse to the same text are equal.
///
/// XML Schema Part 2, section 3.3.7.
#[derive(Clone, Copy, Debug)]
pub struct NcName {
    pub lengths: Lengths,
}

impl Datatype for NcName {
    ghost allows = { λ d s. is_allowed_by (xsd_ncname (lengths_of d.lengths)) s };

    ghost equal = { λ d v w. are_equal_by (xsd_ncname (lengths_of d.lengths)) v w };

    ghost equal_allowed = { λ d v w e. laws.equal_allowed (xsd_ncname (lengths_of d.lengths)) v w e };

    ghost equal_reflexive = { λ d v e. laws.equal_reflexive (xsd_ncname (lengths_of d.lengths)) v e };

    ghost equal_symmetric = { λ d v w e. laws.equal_symmetric (xsd_ncname (lengths_of d.lengths)) v w e };

    ghost equal_transitive = { λ d u v w e f. laws.equal_transitive (xsd_ncname (lengths_of d.lengths)) u v w e f };

    fn allows(&self, text: &str) -> bool {
        if let Some(word) = ascii_word(text)
            && starts_name(word)
        {
            return self.lengths.allow(word.len());
        }
        match only_piece(text) {
            Some(name) => is_ncname(name) && self.lengths.allow(char_count(name)),
            None => false,
        }
    }

    fn equal(&self, a: &str, b: &str) -> bool {
        self.allows(a) && is_same_collapsed(a, b)
    }
}

/// `NMTOKEN`: every text that collapses to one or more name characters, in an allowed number. Texts that collapse to
/// the same text are equal.
///
/// XML Schema Part 2, section 3.3.4.
#[derive(Clone, Copy, Debug)]
pub struct NmToken {
    pub lengths: Lengths,
}

impl Datatype for NmToken {
    ghost allows = { λ d s. is_allowed_by (xsd_nmtoken (lengths_of d.lengths)) s };

    ghost equal = { λ d v w. are_equal_by (xsd_nmtoken (lengths_of d.lengths)) v w };

    ghost equal_allowed = { λ d v w e. laws.equal_allowed (xsd_nmtoken (lengths_of d.lengths)) v w e };

    ghost equal_reflexive = { λ d v e. laws.equal_reflexive (xsd_nmtoken (lengths_of d.lengths)) v e };

    ghost equal_symmetric = { λ d v w e. laws.equal_symmetric (xsd_nmtoken (lengths_of d.lengths)) v w e };

    ghost equal_transitive = { λ d u v w e f. laws.equal_transitive (xsd_nmtoken (lengths_of d.lengths)) u v w e f };

    fn allows(&self, text: &str) -> bool {
        if let Some(word) = ascii_word(text) {
            return self.lengths.allow(word.len());
        }
        match only_piece(text) {
            Some(token) => is_nmtoken(token) && self.lengths.allow(char_count(token)),
            None => false,
        }
    }

    fn equal(&self, a: &str, b: &str) -> bool {
        self.allows(a) && is_same_collapsed(a, b)
    }
}

/// Returns whether the text is one or more name characters. One pass over it. Allocates nothing.
///
/// XML 1.0 Fifth Edition, section 2.3, Nmtoken.
pub fn is_nmtoken(text: &str) -> bool
    ensures { result ≡ is_nmtoken (chars text.now) }
{
    !text.is_empty() && text.chars().all(|c| is_name_char(c))
}
