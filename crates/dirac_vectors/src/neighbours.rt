ghost use Rattle.std.specs.Prelude.{◌≡◌};
ghost use Rattle.dirac_common.specs.Samples.{mean_of_three};
ghost use Rattle.dirac_vectors.specs.Neighbours.{IsShort, mean_of_two, median, majority};

/// The mean of two values; of the two whole numbers beside a half, the greater.
pub fn half_of(a: i32, b: i32) -> i32
    requires a { IsShort a }
    requires b { IsShort b }
    ensures value { result ≡ mean_of_two a b }
    ensures short { IsShort result }
{
    (a + b + 1).div_euclid(2)
}

/// The mean of three values, rounded to the nearest whole number.
pub fn third_of(a: i32, b: i32, c: i32) -> i32
    requires a { IsShort a }
    requires b { IsShort b }
    requires c { IsShort c }
    ensures value { result ≡ mean_of_three a b c }
    ensures short { IsShort result }
{
    (a + b + c + 1).div_euclid(3)
}

/// The middle one of three values.
pub fn median_of(a: i32, b: i32, c: i32) -> i32
    requires a { IsShort a }
    requires b { IsShort b }
    requires c { IsShort c }
    ensures value { result ≡ median a b c }
    ensures short { IsShort result }
{
    a.min(b).max(a.max(b).min(c))
}

/// What at least two of three bits are.
pub fn majority_of(a: bool, b: bool, c: bool) -> bool
    ensures { result ≡ majority a b c }
{
    match (a, b) {
        (true, true) => true,
        (false, false) => false,
        _ => c,
    }
}
