use crate::table::Row;
use dirac_commands::{ended_text, status};
use md5::{Digest, Md5};
use std::alloc::Global;
use std::fs;
use std::rt::Files;
use std::test::Fail;
use std::thread::Threads;
use tests_support::{Left, decoded, pieces};

/// What isn't as its row says, the first thing, where a stream is decoded by these words.
pub fn difference<R: Files + AllocGlobal + Threads + Sync>(
    rt: &R,
    row: &Row<'_>,
    words: &[&str],
) -> Result<Option<&'static str>, Fail> {
    let alloc = rt.alloc();
    let stream = row.stream;
    let name = format!(in alloc; "{stream}.drc")?;
    let bytes = fs::read(rt, name.as_str())?;
    let left = decoded(rt, alloc, words, bytes.as_slice(), &pieces(4096))?;
    other_part(alloc, &left, row)
}

fn other_part(alloc: Global, left: &Left, row: &Row<'_>) -> Result<Option<&'static str>, Fail> {
    let sum = hex::encode(alloc, Md5::digest(left.out.taken()))?;
    if sum.as_str() != row.md5 {
        return Ok(Some("other pictures"));
    }
    let number = format!(in alloc; "{}", status(&left.ended))?;
    if number.as_str() != row.status {
        return Ok(Some("another status"));
    }
    let mut said = String::from_utf8(Vec::from_slice(alloc, left.side.taken())?)?;
    said.push_str(ended_text(alloc, &left.ended)?.as_str())?;
    let lines = row.text.replace(alloc, "|", "\n")?;
    if said.as_str().trim_end() != lines.as_str() {
        return Ok(Some("another text"));
    }
    Ok(None)
}
