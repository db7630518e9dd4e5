// The calls of every datatype, and the laws that it keeps.
ghost use Rattle.std.specs.Prelude.{◌≡◌, ◌&&◌, ℕ, List, Bool, true};

/// A datatype: which texts it allows, and which of them are equal in it.
///
/// RELAX NG Specification, sections 6.2.8 and 6.2.9. Equal texts are allowed, and equality of allowed texts is
/// reflexive, symmetric and transitive. Each implementation proves these laws, and generic code may use them.
pub trait Datatype {
    // which texts the datatype allows
    ghost allows: { Self → List ℕ → Bool };

    // which texts are equal
    ghost equal: { Self → List ℕ → List ℕ → Bool };

    /// Returns whether the datatype allows the text. A few passes over it. Allocates nothing.
    fn allows(&self, text: &str) -> bool
        ensures { result ≡ allows self.now text.now };

    /// Returns whether the datatype allows both texts and they are equal in it. A few passes over them. Allocates
    /// nothing.
    fn equal(&self, a: &str, b: &str) -> bool
        ensures { result ≡ equal self.now a.now b.now };

    ghost equal_allowed: { (d : Self) (v w : List ℕ) → equal d v w ≡ true → (allows d v ≡ true) × (allows d w ≡ true) };

    ghost equal_reflexive: { (d : Self) (v : List ℕ) → allows d v ≡ true → equal d v v ≡ true };

    ghost equal_symmetric: { (d : Self) (v w : List ℕ) → equal d v w ≡ true → equal d w v ≡ true };

    ghost equal_transitive: { (d : Self) (u v w : List ℕ) → equal d u v ≡ true → equal d v w ≡ true → equal d u w ≡ true };
}

/// Returns whether each two of the three texts are equal in the datatype.
///
/// It compares two pairs. By the laws these decide the third.
pub fn are_all_equal<T: Datatype>(datatype: &T, a: &str, b: &str, c: &str) -> bool
    ensures { result ≡ (T.equal datatype.now a.now b.now && (T.equal datatype.now b.now c.now && T.equal datatype.now c.now a.now)) }
{
    datatype.equal(a, b) && datatype.equal(b, c)
}
