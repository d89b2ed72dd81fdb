use dirac_commands::{Ended, Words, ended_text, status};
use std::alloc::Global;
use std::process::Abort;
use std::test::Fail;
use std::thread::Threads;
use tests_support::{
    Outside, STREAM, counts_its_fault, header, joined, pieces, tried, words_of, writes,
};

// Two intra pictures, and an inter picture behind them that refers to the first.
fn two_points(alloc: Global) -> Result<Vec<u8>, Fail> {
    let second = [
        0x42, 0x42, 0x43, 0x44, 0x0C, 0x00, 0x00, 0x00, 0x1F, 0x00, 0x00, 0x00, 0x1F, 0x00, 0x00,
        0x00, 0x01,
    ];
    let third = [0x00, 0x00, 0x00, 0x02, 0x78];
    joined(
        alloc,
        &[
            &STREAM[..50],
            &second,
            &STREAM[36..50],
            &STREAM[50..63],
            &third,
            &STREAM[68..],
        ],
    )
}

#[test]
fn cuts_at_points(rt: HostRuntime) -> Result<(), Fail> {
    let alloc = rt.alloc();
    let end = header(0x10, 0, 31);
    let bytes = two_points(alloc)?;
    let first = joined(alloc, &[&STREAM[..50], &end])?;
    let none = Ended::NoSuchPoint;
    // words, the stream that is cut, the answer and what is written
    let whole = STREAM.as_slice();
    let two = bytes.as_slice();
    let rows: [(&[&str], &[u8], Ended, &[u8]); 14] = [
        (&["cut"], whole, Ended::Done, whole),
        (&["cut", "--from=0", "--to=1"], whole, Ended::Done, whole),
        (&["cut", "--to=2"], whole, none(2), &[]),
        (&["cut", "--to=0"], whole, none(0), &[]),
        (&["cut", "--from=1"], whole, none(1), &[]),
        (
            &["cut", "--to=9", "--from=4294967295"],
            whole,
            none(4294967295),
            &[],
        ),
        (&["cut"], two, Ended::Done, two),
        (&["cut", "--to=1"], two, Ended::Done, first.as_slice()),
        (&["cut", "--from=1"], two, Ended::OpenCut(3), &[]),
        (&["cut", "from=1"], two, Ended::Usage(1), &[]),
        (&["cut", "--to=1", "--to=1"], two, Ended::Usage(2), &[]),
        (
            &["cut", "--to=1", "--from=0", "--to=1"],
            two,
            Ended::Usage(3),
            &[],
        ),
        (&["cut", "--from=4294967296"], two, Ended::Usage(1), &[]),
        (&["cut", "--from="], two, Ended::Usage(1), &[]),
    ];
    for (words, bytes, answer, written) in rows {
        writes(&rt, alloc, words, bytes, answer, written)?;
    }
    Ok(())
}

// Runs words over STREAM whose read of this number fails: nothing is written.
pub(crate) fn stops_at_a_read<R: Abort + Threads + Sync>(
    rt: &R,
    alloc: Global,
    words: &Words,
    call: u64,
) -> Result<(), Fail> {
    let outside = Outside {
        read: 40,
        reads: &[call],
        ..pieces(40)
    };
    let left = tried(rt, alloc, words, &STREAM, &outside)?;
    assert_eq!(rt; left.ended, Ended::ReadFault, "read {call}");
    assert!(rt; left.out.taken().is_empty() && counts_its_fault(&left));
    Ok(())
}

// Runs words over STREAM whose write of this number fails: that many of its bytes are written.
pub(crate) fn stops_at_a_write<R: Abort + Threads + Sync>(
    rt: &R,
    alloc: Global,
    words: &Words,
    call: u64,
    written: usize,
) -> Result<(), Fail> {
    let outside = Outside {
        writes: &[call],
        ..pieces(40)
    };
    let left = tried(rt, alloc, words, &STREAM, &outside)?;
    assert_eq!(rt; left.ended, Ended::WriteFault, "write {call}");
    assert!(rt; written <= STREAM.len() && counts_its_fault(&left));
    assert_eq!(rt; left.out.taken(), &STREAM[..written]);
    Ok(())
}

#[test]
fn stops_at_a_call_that_fails(rt: HostRuntime) -> Result<(), Fail> {
    let alloc = rt.alloc();
    let words = words_of(alloc, &["cut"])?;
    // the first read that fails, before anything is written
    for call in [0, 1, 2, 3] {
        stops_at_a_read(&rt, alloc, &words, call)?;
    }
    // the first write that fails, behind each header and each payload
    for (call, written) in [(0, 0), (1, 13), (2, 19), (3, 32), (4, 50), (5, 63), (6, 82)] {
        stops_at_a_write(&rt, alloc, &words, call, written)?;
    }
    Ok(())
}

#[test]
fn says_why_nothing_is_cut(rt: HostRuntime) -> Result<(), Fail> {
    let alloc = rt.alloc();
    for (ended, number, text) in [
        (Ended::NoSuchPoint(2), 13, "no such point: 2"),
        (Ended::OpenCut(3), 14, "open cut: unit 3"),
    ] {
        assert_eq!(rt; status(&ended), number);
        let said = ended_text(alloc, &ended)?;
        assert_eq!(rt; said.as_str(), text);
    }
    Ok(())
}
