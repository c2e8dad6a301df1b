//! The two halves of a number, of 32 bits each: most numbers of a trace have nothing in the higher one.
ghost use Rattle.std.specs.Prelude.{◌≡◌};
ghost use Rattle.trace_text.specs.Halves.{whole};

/// How many numbers have nothing in their higher half.
const HALF: u64 = 4_294_967_296;

/// The higher and the lower half of a number.
pub(crate) fn halves(number: u64) -> (u32, u32)
    ensures { whole result.0 result.1 ≡ number }
{
    ((number / HALF) as u32, (number % HALF) as u32)
}

/// The number that has these halves.
pub(crate) fn whole(high: u32, low: u32) -> u64
    ensures { result ≡ whole high low }
{
    u64::from(high) * HALF + u64::from(low)
}
