//! The spellings of numbers, as runs of bits.

ghost use Rattle.std.specs.Prelude.{◌≡◌, ◌+◌, ◌*◌, ◌/◌, ◌%◌, ◌<◌, ◌≤◌, ◌^◌, [], ◌∷◌, ◌++◌, take, unsigned_abs};
ghost use Rattle.dirac_common.specs.Bits.{bits_of};
ghost use Rattle.dirac_common.specs.Numbers as numbers;
ghost use Rattle.dirac_bits.specs.Writing.{bits_below};

/// The `count` lowest bits of `number`, the most significant of them first.
#[derive(Clone, Copy)]
pub struct Run {
    pub count: u8,
    pub number: u128,
}

/// An unsigned number: its digits behind follow bits 0, and the last follow bit.
pub fn unsigned(value: u64) -> Run
    requires { value + 1 < 2 ^ 39 }
    ensures spelled { bits_below result.count result.number ≡ numbers.uint value }
    ensures at_most_77 { result.count ≤ 77 }
    ensures fits { result.number < 2 ^ result.count }
{
    let mut rest = value + 1;
    let mut run = Run {
        count: 1,
        number: 1,
    };
    'digits: while rest > 1 {
        run = behind_digit(run, rest % 2);
        rest /= 2;
    }
    run
}

/// A digit with its follow bit 0, before the bits of `run`.
fn behind_digit(run: Run, digit: u64) -> Run
    requires digit { digit < 2 }
    requires at_most_75 { run.count ≤ 75 }
    requires fits { run.number < 2 ^ run.count }
    ensures number { result.number ≡ digit * 2 ^ run.count + run.number }
    ensures count { result.count ≡ run.count + 2 }
    ensures fits { result.number < 2 ^ result.count }
{
    Run {
        count: run.count + 2,
        number: (u128::from(digit) << run.count) + run.number,
    }
}

/// A signed number: an unsigned one and, where it isn't 0, its sign.
pub fn signed(value: i64) -> Run
    requires { unsigned_abs value + 1 < 2 ^ 39 }
    ensures spelled { bits_below result.count result.number ≡ numbers.sint value }
    ensures at_most_78 { result.count ≤ 78 }
    ensures fits { result.number < 2 ^ result.count }
{
    let run = unsigned(value.unsigned_abs());
    if value == 0 {
        return run;
    }
    before_bit(run, value < 0)
}

/// One more bit, behind those of `run`.
fn before_bit(run: Run, bit: bool) -> Run
    requires at_most_77 { run.count ≤ 77 }
    requires fits { run.number < 2 ^ run.count }
    ensures bits { bits_below result.count result.number ≡ bits_below run.count run.number ++ bit ∷ [] }
    ensures count { result.count ≡ run.count + 1 }
    ensures fits { result.number < 2 ^ result.count }
{
    Run {
        count: run.count + 1,
        number: 2 * run.number + u128::from(bit),
    }
}

/// The `used` bits of `pending`, and those of `run` behind them.
pub fn joined(pending: u8, used: u8, run: Run) -> Run
    requires pending { (used < 8) × (pending < 2 ^ used) }
    requires at_most_80 { run.count ≤ 80 }
    requires fits { run.number < 2 ^ run.count }
    ensures bits { bits_below result.count result.number ≡ bits_below used pending ++ bits_below run.count run.number }
    ensures count { result.count ≡ used + run.count }
    ensures fits { result.number < 2 ^ result.count }
{
    Run {
        count: used + run.count,
        number: (u128::from(pending) << run.count) + run.number,
    }
}

/// The whole bytes of a run, from its first bit on, and the bits behind them.
pub fn whole_bytes(run: Run) -> ([u8; 11], u8)
    requires { run.count ≤ 87 }
    ensures bits { bits_of (take (run.count / 8) result.0) ++ bits_below (run.count % 8) result.1
        ≡ bits_below run.count run.number }
    ensures rest { result.1 < 2 ^ (run.count % 8) }
{
    let mut bytes = [0; 11];
    let mut left = run.count;
    'bytes: for index in 0..usize::from(run.count / 8) {
        left -= 8;
        bytes[index] = ((run.number >> left) % 256) as u8;
    }
    let rest = run.number % (1 << left);
    (bytes, rest as u8)
}
