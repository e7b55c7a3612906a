// The powers of ten that a u64 can hold.
ghost use Rattle.std.specs.Prelude.{◌≡◌, ◌^◌, ◌<◌};

// Each of them, the smallest first.
static POWERS: [u64; 20] = [
    1,
    10,
    100,
    1_000,
    10_000,
    100_000,
    1_000_000,
    10_000_000,
    100_000_000,
    1_000_000_000,
    10_000_000_000,
    100_000_000_000,
    1_000_000_000_000,
    10_000_000_000_000,
    100_000_000_000_000,
    1_000_000_000_000_000,
    10_000_000_000_000_000,
    100_000_000_000_000_000,
    1_000_000_000_000_000_000,
    10_000_000_000_000_000_000,
];

// Ten to the power of an exponent.
pub(crate) fn power_of_ten(exponent: usize) -> u64
    requires { exponent < 20 }
    ensures { result ≡ 10 ^ exponent }
{
    POWERS[exponent]
}
