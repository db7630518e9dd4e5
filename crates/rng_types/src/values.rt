// The datatypes of XML Schema whose values are truth values and numbers.
ghost use Rattle.rng_model.specs.datatypes.Datatypes.{xsd_boolean, xsd_integer, is_allowed_by, are_equal_by};
ghost use Rattle.rng_model.proofs.ValueLaws as laws;
ghost use Rattle.rng_types.specs.views.View.{bounds_of};

use crate::datatype::Datatype;
use crate::numerals::{Bounds, integer, is_integer, truth};

/// `boolean`: `true` and `1`, which are equal, and `false` and `0`, which are equal, with or without blanks around
/// them.
///
/// XML Schema Part 2, section 3.2.2.
#[derive(Clone, Copy, Debug)]
pub struct Boolean;

impl Datatype for Boolean {
    ghost allows = { λ d s. is_allowed_by xsd_boolean s };

    ghost equal = { λ d v w. are_equal_by xsd_boolean v w };

    ghost equal_allowed = { λ d v w e. laws.equal_allowed xsd_boolean v w e };

    ghost equal_reflexive = { λ d v e. laws.equal_reflexive xsd_boolean v e };

    ghost equal_symmetric = { λ d v w e. laws.equal_symmetric xsd_boolean v w e };

    ghost equal_transitive = { λ d u v w e f. laws.equal_transitive xsd_boolean u v w e f };

    fn allows(&self, text: &str) -> bool {
        truth(text).is_some()
    }

    fn equal(&self, a: &str, b: &str) -> bool {
        match (truth(a), truth(b)) {
            (Some(a), Some(b)) => a == b,
            _ => false,
        }
    }
}

/// `integer`: an optional sign and 1 to 38 digits, with or without blanks around them, within the bounds. Texts that
/// write the same number are equal.
///
/// XML Schema Part 2, section 3.3.13, where numerals have any number of digits.
#[derive(Clone, Copy, Debug)]
pub struct Integer {
    pub bounds: Bounds,
}

impl Datatype for Integer {
    ghost allows = { λ d s. is_allowed_by (xsd_integer (bounds_of d.bounds)) s };

    ghost equal = { λ d v w. are_equal_by (xsd_integer (bounds_of d.bounds)) v w };

    ghost equal_allowed = { λ d v w e. laws.equal_allowed (xsd_integer (bounds_of d.bounds)) v w e };

    ghost equal_reflexive = { λ d v e. laws.equal_reflexive (xsd_integer (bounds_of d.bounds)) v e };

    ghost equal_symmetric = { λ d v w e. laws.equal_symmetric (xsd_integer (bounds_of d.bounds)) v w e };

    ghost equal_transitive = { λ d u v w e f. laws.equal_transitive (xsd_integer (bounds_of d.bounds)) u v w e f };

    fn allows(&self, text: &str) -> bool {
        if self.bounds.allow_all() {
            return is_integer(text);
        }
        match integer(text) {
            Some(n) => self.bounds.allow(n),
            None => false,
        }
    }

    fn equal(&self, a: &str, b: &str) -> bool {
        match (integer(a), integer(b)) {
            (Some(a), Some(b)) => a == b && self.bounds.allow(a),
            _ => false,
        }
    }
}
