// Numbers compared.
ghost use Rattle.std.specs.Prelude.{◌≡◌};
ghost use lib.Ieee.{lt};
ghost use Rattle.rng_model.specs.xsd.primitives.Floats.{one_zero, same_float};

// whether the numbers are the same, where the zeros are one and NaN equals itself
pub(crate) fn is_same(a: f64, b: f64) -> bool
    ensures { result ≡ same_float (one_zero a) (one_zero b) }
{
    a == b || (a.is_nan() && b.is_nan())
}

// whether the first number is less, where the zeros are one
pub(crate) fn is_less(a: f64, b: f64) -> bool
    ensures { result ≡ lt (one_zero a) (one_zero b) }
{
    a < b
}
