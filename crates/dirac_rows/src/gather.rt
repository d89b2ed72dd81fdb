ghost use Rattle.std.specs.Prelude.{◌≡◌, ℕ, ◌<◌, All, Contains, IfOk};
ghost use Rattle.dirac_rows.specs.Weights.{times};
ghost use Rattle.dirac_rows.specs.Answers.{AnswerRows, rows_of};

use dirac_common::NoMemory;
use std::alloc::Global;

/// The items that were found for rows, in the order of the rows.
pub(crate) fn in_order<T: Drop>(
    alloc: Global,
    rows: u32,
    mut found: Vec<(u32, T)>,
) -> Result<Vec<T>, NoMemory>
    requires below_rows { All (λ p. p.0 < rows) found.items }
    requires each_row_found { (r : ℕ) → r < rows → 0 < times r (rows_of found.items) }
    ensures { IfOk result (λ v. AnswerRows (λ r x. Contains found.items (r, x)) rows v.items) }
{
    let mut slots = Vec::new(alloc);
    'filling: for _row in 0..rows {
        slots.push(None)?;
    }
    'placing: while let Some((row, item)) = found.pop() {
        slots[row as usize] = Some(item);
    }
    let mut items = Vec::new(alloc);
    'taking: for row in 0..rows {
        let Some(item) = slots[row as usize].take() else {
            unreachable!()
        };
        items.push(item)?;
    }
    Ok(items)
}
