ghost use Rattle.std.specs.Prelude.{◌≡◌, ◌≤◌, IfOk};
ghost use Rattle.dirac_common.specs.Limits.{IsIndex};
ghost use Rattle.dirac_analysis.specs.Coded.{coded as coded_band};
ghost use Rattle.dirac_analysis.specs.Fits.{IsQuantisable};

use crate::analysed::AnalysedBand;
use crate::coded::code_by_one;
use crate::finer::code_finer;
use dirac_coeffs::CodedBand;
use dirac_common::{MOST_CODEBLOCKS, NoMemory};
use dirac_lift::Held;
use std::alloc::Global;

/// The same as `code_finer` of a band that may be held in 32 bits.
fn code_finer_band(
    alloc: Global,
    table: &AnalysedBand,
    counts: (u32, u32),
    finer: u8,
    index: u8,
) -> Result<CodedBand, NoMemory>
    requires fits { IsQuantisable table.now }
    requires across { (1 ≤ counts.0) × (counts.0 ≤ MOST_CODEBLOCKS) }
    requires down { (1 ≤ counts.1) × (counts.1 ≤ MOST_CODEBLOCKS) }
    requires index { IsIndex index }
    ensures { IfOk result (λ b. b ≡ coded_band counts finer index table.now) }
{
    match table.held() {
        Held::Narrow(values) => {
            let wide = values.try_wide(alloc)?;
            code_finer(alloc, &wide, counts, finer, index)
        }
        Held::Wide(values) => code_finer(alloc, values, counts, finer, index),
    }
}

/// A table of coefficients coded at this quantiser index, its flat codeblocks at one that is lower by `finer`, but at
/// least 0; that many codeblocks go across and down. In a band of zeros all indices are 0.
pub fn code_band(
    alloc: Global,
    table: &AnalysedBand,
    counts: (u32, u32),
    finer: u8,
    index: u8,
) -> Result<CodedBand, NoMemory>
    requires fits { IsQuantisable table.now }
    requires across { (1 ≤ counts.0) × (counts.0 ≤ MOST_CODEBLOCKS) }
    requires down { (1 ≤ counts.1) × (counts.1 ≤ MOST_CODEBLOCKS) }
    requires index { IsIndex index }
    ensures { IfOk result (λ b. b ≡ coded_band counts finer index table.now) }
{
    let _width = table.width();
    if finer == 0 {
        return code_by_one(alloc, table, counts, index);
    }
    if index == 0 {
        return code_by_one(alloc, table, counts, 0);
    }
    code_finer_band(alloc, table, counts, finer, index)
}
