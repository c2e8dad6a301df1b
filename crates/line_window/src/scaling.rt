//! A way along the keys, scaled to places: a product of two numbers of 64 bits is divided exactly,
//! and without a division of 128 bits where there are few places.
//!
//! Where the product is too long for 64 bits, both sides of the division lose their low bits, and
//! the quotient of what is left is off by at most one.

ghost use Rattle.std.specs.Prelude.{◌≡◌, ◌+◌, ◌*◌, ◌/◌, ◌^◌, ◌<◌, ◌≤◌};

/// How many low bits both sides of the division lose.
const DROPPED_BITS: u32 = 20;

/// Below this many steps the lost bits change the quotient by at most one.
const FEW_STEPS: u64 = 1 << DROPPED_BITS;

/// How many of `steps` equal steps from 0 to `span` are behind `distance`.
#[inline]
pub fn scaled(distance: u64, span: u64, steps: u64) -> u64
    requires { distance < span }
    ensures { result ≡ distance * steps / span }
{
    let product = u128::from(distance) * u128::from(steps);
    if product <= u128::from(u64::MAX) {
        return product as u64 / span;
    }
    if steps >= FEW_STEPS {
        return scaled_by_long_division(distance, span, steps);
    }
    let estimate = (distance >> DROPPED_BITS) * steps / (span >> DROPPED_BITS);
    mended(estimate, product, span)
}

/// The same by one division of 128 bits.
#[inline(never)]
pub fn scaled_by_long_division(distance: u64, span: u64, steps: u64) -> u64
    requires { distance < span }
    ensures { result ≡ distance * steps / span }
{
    (u128::from(distance) * u128::from(steps) / u128::from(span)) as u64
}

/// The quotient of the product by the span, from an estimate that is off by at most one.
#[inline]
fn mended(estimate: u64, product: u128, span: u64) -> u64
    requires fits { product < 2 ^ 64 * span }
    requires below { product < (estimate + 2) * span }
    requires above { estimate * span ≤ product + span }
    ensures { result ≡ product / span }
{
    let reached = u128::from(estimate) * u128::from(span);
    if reached > product {
        estimate - 1
    } else if product - reached >= u128::from(span) {
        estimate + 1
    } else {
        estimate
    }
}
