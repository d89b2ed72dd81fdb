//! Values that are zeros, which a lifting step that reads them leaves out.
ghost use Rattle.std.specs.Prelude.{◌≡◌, ℕ, pos, true, ◌+◌, ◌<◌, ◌≤◌, length, slice_index_or};

/// Whether 32 values, from a place on, are zeros. None ends the loop, so that several are looked at at once.
#[inline(always)]
fn are_32_zeros(values: &[i32], at: usize) -> bool
    requires { at + 32 ≤ length values.now }
    ensures { result ≡ true → (j : ℕ) → j < 32 → slice_index_or values.now (at + j) (pos 0) ≡ pos 0 }
{
    let mut all = true;
    for j in 0..32 {
        all &= values[at + j] == 0;
    }
    all
}

/// Whether all values are zeros.
#[inline(never)]
pub fn are_zeros(values: &[i32]) -> bool
    ensures { result ≡ true → (k : ℕ) → k < length values.now → slice_index_or values.now k (pos 0) ≡ pos 0 }
{
    let blocks = values.len() / 32;
    'whole: for i in 0..blocks {
        if !are_32_zeros(values, i * 32) {
            return false;
        }
    }
    'left: for n in blocks * 32..values.len() {
        if values[n] != 0 {
            return false;
        }
    }
    true
}
