ghost use Rattle.std.specs.Prelude.{◌≡◌, ◌+◌, ◌*◌, ◌^◌, ◌≤◌, pos, ◌+ℤ◌, ◌-ℤ◌, ◌*ℤ◌, unsigned_abs};

/// The sum of two numbers.
pub fn plus(a: i128, b: i128) -> i128
    requires { unsigned_abs a + unsigned_abs b ≤ 2 ^ 126 }
    ensures value { result ≡ a +ℤ b }
    ensures bound { unsigned_abs result ≤ unsigned_abs a + unsigned_abs b }
{
    a + b
}

/// The difference of two numbers.
pub fn minus(a: i128, b: i128) -> i128
    requires { unsigned_abs a + unsigned_abs b ≤ 2 ^ 126 }
    ensures value { result ≡ a -ℤ b }
    ensures bound { unsigned_abs result ≤ unsigned_abs a + unsigned_abs b }
{
    a - b
}

/// The product of two numbers.
pub fn times(a: i128, b: i128) -> i128
    requires { unsigned_abs a * unsigned_abs b ≤ 2 ^ 126 }
    ensures value { result ≡ a *ℤ b }
    ensures bound { unsigned_abs result ≡ unsigned_abs a * unsigned_abs b }
{
    a * b
}

/// A step of a nested multiplication: `constant + x * rest`.
pub(crate) fn nested(constant: i128, x: u64, rest: i128) -> i128
    requires { unsigned_abs constant + x * unsigned_abs rest ≤ 2 ^ 126 }
    ensures value { result ≡ constant +ℤ pos x *ℤ rest }
    ensures bound { unsigned_abs result ≤ unsigned_abs constant + x * unsigned_abs rest }
{
    plus(constant, times(i128::from(x), rest))
}
