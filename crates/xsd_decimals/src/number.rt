// Numbers as a sign, digits before the point and digits behind it.
ghost use Rattle.std.specs.Prelude.{◌≡◌, ◌*◌, ◌^◌, int_le, int_lt, length, true, false};
ghost use Rattle.std.specs.Ordering.{int_cmp, nat_cmp};
ghost use Rattle.rng_model.specs.xsd.primitives.Decimals.{scaled, has_total_digits, has_fraction_digits};
ghost use Rattle.rng_model.specs.plain.OneDecimal.{same_decimal};
ghost use Rattle.xsd_decimals.specs.plain.Numbers.{AreWhole, AreFraction, IsNumber, value_of, size_of};

use std::cmp::Ordering;

/// A number: whether it is negative, its digits before the point, without zeros in front, and those behind the point,
/// without zeros at their end. Zero has no digits and is not negative.
#[derive(Clone, Copy)]
pub(crate) struct Number<'a> {
    pub negative: bool,
    pub whole: &'a [u8],
    pub fraction: &'a [u8],
}

// how two numbers are ordered
fn compare(a: &Number<'_>, b: &Number<'_>) -> Ordering
    requires left { IsNumber a.now }
    requires right { IsNumber b.now }
    ensures { result ≡ int_cmp (scaled (value_of a.now) (value_of b.now)) (scaled (value_of b.now) (value_of a.now)) }
{
    match (a.negative, b.negative) {
        (false, false) => compare_sizes(a, b),
        (true, true) => compare_sizes(b, a),
        (true, false) => Ordering::Less,
        (false, true) => Ordering::Greater,
    }
}

// how two numbers are ordered if their signs are left out: that of fewer digits before the point is less
fn compare_sizes(a: &Number<'_>, b: &Number<'_>) -> Ordering
    requires left { IsNumber a.now }
    requires right { IsNumber b.now }
    ensures { result ≡ nat_cmp (size_of a.now * 10 ^ length b.now.fraction.now) (size_of b.now * 10 ^ length a.now.fraction.now) }
{
    if a.whole.len() != b.whole.len() {
        return a.whole.len().cmp(&b.whole.len());
    }
    match a.whole.cmp(b.whole) {
        Ordering::Equal => a.fraction.cmp(b.fraction),
        other => other,
    }
}

// whether the first number is at most the second one
pub(crate) fn is_at_most(a: &Number<'_>, b: &Number<'_>) -> bool
    requires left { IsNumber a.now }
    requires right { IsNumber b.now }
    ensures { result ≡ int_le (scaled (value_of a.now) (value_of b.now)) (scaled (value_of b.now) (value_of a.now)) }
{
    !compare(b, a).is_lt()
}

// whether the first number is less than the second one
pub(crate) fn is_below(a: &Number<'_>, b: &Number<'_>) -> bool
    requires left { IsNumber a.now }
    requires right { IsNumber b.now }
    ensures { result ≡ int_lt (scaled (value_of a.now) (value_of b.now)) (scaled (value_of b.now) (value_of a.now)) }
{
    compare(a, b).is_lt()
}

// whether the two numbers are the same
pub(crate) fn is_same(a: &Number<'_>, b: &Number<'_>) -> bool
    requires left { IsNumber a.now }
    requires right { IsNumber b.now }
    ensures { result ≡ same_decimal (value_of a.now) (value_of b.now) }
{
    compare(a, b).is_eq()
}

// whether the number has at most so many digits
pub(crate) fn has_total_digits(n: &Number<'_>, total: usize) -> bool
    requires { IsNumber n.now }
    ensures { result ≡ has_total_digits total (value_of n.now) }
{
    n.whole.len() + n.fraction.len() <= total
}

// whether the number has at most so many digits behind the point
pub(crate) fn has_fraction_digits(n: &Number<'_>, fraction: usize) -> bool
    ensures { result ≡ has_fraction_digits fraction (value_of n.now) }
{
    n.fraction.len() <= fraction
}
