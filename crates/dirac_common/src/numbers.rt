ghost use Rattle.std.specs.Prelude.{◌≡◌, ◌<◌, ◌^◌, unsigned_abs};
ghost use Rattle.dirac_common.specs.Numbers.{signed_value};

/// A magnitude with a sign, true for negative.
pub fn with_sign(magnitude: u64, negative: bool) -> i64
    requires { magnitude < 2 ^ 39 }
    ensures value { result ≡ signed_value magnitude negative }
    ensures size { unsigned_abs result ≡ magnitude }
{
    let number = magnitude as i64;
    if negative { -number } else { number }
}
