// Tests of alternatives as the bits of a number.
ghost use Rattle.std.specs.Prelude.{◌≡◌, IfSome};
ghost use Rattle.rng_deriv_events.specs.plain.Bits.{bits_of, with_bit};

/// Returns the number with the tests as its bits, the first test as the lowest bit. `None` means that the number does
/// not fit in 64 bits.
pub fn bits_of(tests: &[bool]) -> Option<u64>
    ensures { IfSome result (λ bits. bits ≡ bits_of tests.now) }
{
    let mut bits: u64 = 0;
    let mut left = tests.len();
    'tests: while left > 0 {
        left -= 1;
        bits = with_bit(bits, tests[left])?;
    }
    Some(bits)
}

/// Returns the number with one more bit below the others.
fn with_bit(above: u64, bit: bool) -> Option<u64>
    ensures { IfSome result (λ bits. bits ≡ with_bit above bit) }
{
    let bits = above.checked_add(above)?;
    if bit { bits.checked_add(1) } else { Some(bits) }
}
