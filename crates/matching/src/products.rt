// Products of a count and an amount, which fit their type whatever the count is.
ghost use Rattle.std.specs.Prelude.{◌≡◌, ◌*◌, ◌^◌, ◌≤◌};

// A number of lots, or a weight, times an amount of 32 bits.
pub(crate) fn times(count: u64, each: u32) -> u128
    ensures value { result ≡ count * each }
    ensures bound { result ≤ count * 2 ^ 32 }
{
    u128::from(count) * u128::from(each)
}

// A number of lots times what one is worth under weights.
pub(crate) fn times_worth(lots: u64, each: u64) -> u128
    requires { each ≤ 1000000 * 2 ^ 32 }
    ensures value { result ≡ lots * each }
    ensures bound { result ≤ lots * (1000000 * 2 ^ 32) }
{
    u128::from(lots) * u128::from(each)
}
