//! Numbers of sixteen bits, put together and taken apart.

ghost use Rattle.std.specs.Prelude.{◌≡◌, ◌+◌, ◌*◌, ◌/◌, ◌%◌, ◌^◌, ◌<◌, ◌≤◌};

/// The word of `high` and sixteen bits behind it.
pub fn join(high: u64, low: u16) -> u64
    requires { high < 2 ^ 48 }
    ensures { result ≡ high * 2 ^ 16 + low }
{
    high << 16 | u64::from(low)
}

/// The sixteen bits from bit `at` on.
pub fn part(word: u64, at: u32) -> u16
    requires { at ≤ 48 }
    ensures { result ≡ word / 2 ^ at % 2 ^ 16 }
{
    ((word >> at) & 0xffff) as u16
}
