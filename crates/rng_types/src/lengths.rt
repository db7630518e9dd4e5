// Bounds on the number of characters of a text.
ghost use Rattle.std.specs.Prelude.{◌≡◌, ℕ, nat_le, true};
ghost use Rattle.rng_model.specs.datatypes.Facets.{is_within, passes};
ghost use Rattle.rng_types.specs.views.View.{lengths_of};

/// The least and the greatest number of characters of a text, if there is one. Both are inclusive.
///
/// XML Schema Part 2, sections 4.3.2 and 4.3.3. A least number above the greatest one allows nothing.
#[derive(Clone, Copy, Debug)]
pub struct Lengths {
    pub min: Option<usize>,
    pub max: Option<usize>,
}

impl Lengths {
    /// Returns whether this number of characters is within the bounds.
    pub fn allow(&self, len: usize) -> bool
        ensures { result ≡ is_within (lengths_of self.now) len }
    {
        is_at_least(self.min, len) && is_at_most(self.max, len)
    }

    // whether there is no bound
    pub(crate) fn allow_all(&self) -> bool
        ensures { result ≡ true → (n : ℕ) → is_within (lengths_of self.now) n ≡ true }
    {
        self.min.is_none() && self.max.is_none()
    }
}

fn is_at_least(min: Option<usize>, len: usize) -> bool
    ensures { result ≡ passes (λ least. nat_le least len) min }
{
    match min {
        Some(min) => min <= len,
        None => true,
    }
}

fn is_at_most(max: Option<usize>, len: usize) -> bool
    ensures { result ≡ passes (λ greatest. nat_le len greatest) max }
{
    match max {
        Some(max) => len <= max,
        None => true,
    }
}
