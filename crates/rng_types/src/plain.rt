// The datatypes of the built-in library.
ghost use Rattle.rng_model.specs.datatypes.Datatypes.{plain_string, plain_token, is_allowed_by, are_equal_by};
ghost use Rattle.rng_model.proofs.ValueLaws as laws;

use crate::datatype::Datatype;
use crate::runs::is_same_collapsed;

/// `string` of the built-in library: every text is allowed, and each is equal only to itself.
///
/// RELAX NG Specification, section 6.2.9.
#[derive(Clone, Copy, Debug)]
pub struct PlainString;

impl Datatype for PlainString {
    ghost allows = { λ d s. is_allowed_by plain_string s };

    ghost equal = { λ d v w. are_equal_by plain_string v w };

    ghost equal_allowed = { λ d v w e. laws.equal_allowed plain_string v w e };

    ghost equal_reflexive = { λ d v e. laws.equal_reflexive plain_string v e };

    ghost equal_symmetric = { λ d v w e. laws.equal_symmetric plain_string v w e };

    ghost equal_transitive = { λ d u v w e f. laws.equal_transitive plain_string u v w e f };

    fn allows(&self, _text: &str) -> bool {
        true
    }

    fn equal(&self, a: &str, b: &str) -> bool {
        a == b
    }
}

/// `token` of the built-in library: every text is allowed, and texts that collapse to the same text are equal.
///
/// RELAX NG Specification, section 6.2.9.
#[derive(Clone, Copy, Debug)]
pub struct PlainToken;

impl Datatype for PlainToken {
    ghost allows = { λ d s. is_allowed_by plain_token s };

    ghost equal = { λ d v w. are_equal_by plain_token v w };

    ghost equal_allowed = { λ d v w e. laws.equal_allowed plain_token v w e };

    ghost equal_reflexive = { λ d v e. laws.equal_reflexive plain_token v e };

    ghost equal_symmetric = { λ d v w e. laws.equal_symmetric plain_token v w e };

    ghost equal_transitive = { λ d u v w e f. laws.equal_transitive plain_token u v w e f };

    fn allows(&self, _text: &str) -> bool {
        true
    }

    fn equal(&self, a: &str, b: &str) -> bool {
        is_same_collapsed(a, b)
    }
}
