ghost use Rattle.std.specs.Prelude.{◌≡◌, pos, ◌<◌, length, slice_index_or};
ghost use Rattle.dirac_coeffs.specs.Lent.{numbers_in};

/// Numbers that are lent, by rows: how many where all are zeros, in 32 bits, or wide.
#[derive(Clone, Copy)]
pub enum Numbers<'a> {
    Zeros(usize),
    Narrow(&'a [i32]),
    Wide(&'a [i64]),
}

/// The number in a place.
#[inline(always)]
pub fn number_at(numbers: Numbers<'_>, place: usize) -> i64
    requires { place < length (numbers_in numbers) }
    ensures { result ≡ slice_index_or (numbers_in numbers.entry) place (pos 0) }
{
    match numbers {
        Numbers::Zeros(_count) => 0,
        Numbers::Narrow(list) => i64::from(list[place]),
        Numbers::Wide(list) => list[place],
    }
}

/// The number in a place, 0 behind the last one.
#[inline(always)]
pub fn number_or_zero(numbers: Numbers<'_>, place: usize) -> i64
    ensures { result ≡ slice_index_or (numbers_in numbers.entry) place (pos 0) }
{
    match numbers {
        Numbers::Zeros(_count) => 0,
        Numbers::Narrow(list) => {
            if place < list.len() {
                i64::from(list[place])
            } else {
                0
            }
        }
        Numbers::Wide(list) => { if place < list.len() { list[place] } else { 0 } }
    }
}
