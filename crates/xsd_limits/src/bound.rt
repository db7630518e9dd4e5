// What the four bounds ask of an ordered type.
ghost use Rattle.std.specs.Prelude.{◌≡◌, ℕ, List, Bool, Option, IfOk, is_some};

use rng_model::OutOfMemory;
use std::alloc::Global;

/// A bound on values, which a schema gives once. Contracts see the value that it is.
///
/// XML Schema Part 2, section 4.2.2.
pub trait Bound: Drop {
    // whether the first value is at most the second one, and whether it is less
    ghost at_most: { Self → Self → Bool };

    ghost less: { Self → Self → Bool };

    /// Returns whether this value is at most the other one.
    fn is_at_most(&self, other: &Self) -> bool
        ensures { result ≡ at_most self.now other.now };

    /// Returns whether this value is less than the other one.
    fn is_less(&self, other: &Self) -> bool
        ensures { result ≡ less self.now other.now };
}

/// An ordered type. Several types may have values that are ordered alike, and differ in which texts write them.
pub trait OrderedType<B: Bound> {
    // the value that a text writes
    ghost value_of: { Self → List ℕ → Option B };

    /// Returns whether the text writes a value of the type. Allocates nothing.
    fn is_value(&self, text: &str) -> bool
        ensures { result ≡ is_some (value_of self.now text.now) };

    /// Returns the value that the text writes, if it writes one.
    ///
    /// # Errors
    ///
    /// Returns `OutOfMemory` if memory is out, and in no other case.
    fn read(&self, alloc: Global, text: &str) -> Result<Option<B>, OutOfMemory>
        ensures { IfOk result (λ found. found ≡ value_of self.now text.now) };
}

/// A value that bounds are compared with.
pub trait BoundedBy<B: Bound> {
    // the value, as a bound would be
    ghost value: { Self → B };

    /// Returns whether the bound is at most the value.
    fn is_at_least(&self, bound: &B) -> bool
        ensures { result ≡ B.at_most bound.now (value self.now) };

    /// Returns whether the bound is less than the value.
    fn is_above(&self, bound: &B) -> bool
        ensures { result ≡ B.less bound.now (value self.now) };

    /// Returns whether the value is at most the bound.
    fn is_at_most(&self, bound: &B) -> bool
        ensures { result ≡ B.at_most (value self.now) bound.now };

    /// Returns whether the value is less than the bound.
    fn is_below(&self, bound: &B) -> bool
        ensures { result ≡ B.less (value self.now) bound.now };
}

impl<B: Bound> BoundedBy<B> for B {
    ghost value = { λ b. b };

    fn is_at_least(&self, bound: &B) -> bool {
        Bound::is_at_most(bound, self)
    }

    fn is_above(&self, bound: &B) -> bool {
        Bound::is_less(bound, self)
    }

    fn is_at_most(&self, bound: &B) -> bool {
        Bound::is_at_most(self, bound)
    }

    fn is_below(&self, bound: &B) -> bool {
        Bound::is_less(self, bound)
    }
}
