//! Runs the streams of the conformance set through `decode`, and `pardecode` with two workers, and compares what they
//! leave with the table of the set. Both lie where the program runs: `conformance/place.py` puts them there.
#![tactic(auto)]

mod comparing;
mod table;

use crate::comparing::difference;
use crate::table::row_of;
use std::fs;
use std::process::ExitCode;
use std::test::Fail;

// The table of what the streams are to give.
const TABLE: &str = "expected.tsv";

// The words by which each of them is decoded.
const COMMANDS: [&[&str]; 2] = [&["decode"], &["pardecode", "--workers=2"]];

fn main(rt: HostRuntime) -> Result<ExitCode, Fail> {
    let Ok(table) = fs::read_to_string(&rt, TABLE) else {
        println!(rt;
            "no {TABLE} here: `python3 conformance/place.py` puts the conformance set into data/"
        )?;
        return Ok(ExitCode::FAILURE);
    };
    let (mut agreeing, mut all) = (0u32, 0u32);
    // the first line names the columns
    for line in table.as_str().split_terminator('\n').skip(1) {
        let row = row_of(line).ok_or("a row without five columns")?;
        let mut agrees = true;
        for words in COMMANDS {
            if let Some(part) = difference(&rt, &row, words)? {
                let (stream, command) = (row.stream, words.first().copied().unwrap_or(""));
                println!(rt; "DIFFERS {stream}: {command}: {part}")?;
                agrees = false;
            }
        }
        all = all.saturating_add(1);
        if agrees {
            agreeing = agreeing.saturating_add(1);
        }
    }
    println!(rt; "{agreeing} of {all} streams as expected")?;
    if agreeing == all && 0 < all {
        Ok(ExitCode::SUCCESS)
    } else {
        Ok(ExitCode::FAILURE)
    }
}
