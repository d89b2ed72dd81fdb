use dirac_commands::{Ended, Words, ended_text, status};
use dirac_common::Cause;
use dirac_io::{Got, Source};
use dirac_types::{BadSetting, Name};
use std::alloc::Global;
use std::process::Abort;
use std::test::Fail;
use std::thread::Threads;
use tests_support::{
    DECODE, LINES, Outside, PARDECODE, SMALL, STREAM, counts_its_fault, decoded, faulty, header,
    joined, pieces, shows, tried, words_of, writes,
};

// Runs words over bytes in pieces, and compares the answer and the text that comes out.
fn runs<R: Threads + Sync>(
    rt: &R,
    alloc: Global,
    words: &[&str],
    bytes: &[u8],
    answer: Ended,
    text: &str,
) -> Result<(), Fail> {
    writes(rt, alloc, words, bytes, answer, text.as_bytes())
}

// Lists the units of these pieces behind one another.
fn lists<R: Threads + Sync>(
    rt: &R,
    alloc: Global,
    pieces: &[&[u8]],
    answer: Ended,
    text: &str,
) -> Result<(), Fail> {
    let bytes = joined(alloc, pieces)?;
    runs(rt, alloc, &["list"], &bytes, answer, text)
}

#[test]
fn lists_units(rt: HostRuntime) -> Result<(), Fail> {
    let alloc = rt.alloc();
    let end = header(0x10, 0, 0);
    let first = "0 0 00 sequence 19 0\n";
    let two = "0 0 00 sequence 19 0\n1 19 0C picture 31 19\n";
    for (bytes, answer, text) in [
        (end.as_slice(), Ended::Done, "0 0 10 end 0 0\n"),
        (STREAM.as_slice(), Ended::Done, LINES),
        // the input ends behind a unit, in a header and just behind it, in a payload and just behind it
        (&STREAM[..19], faulty(1, 19, Cause::MissingEnd), first),
        (&STREAM[..20], faulty(1, 20, Cause::Truncated), first),
        (&STREAM[..31], faulty(1, 31, Cause::Truncated), first),
        (&STREAM[..32], faulty(1, 32, Cause::Truncated), first),
        (&STREAM[..49], faulty(1, 49, Cause::Truncated), first),
        (&STREAM[..50], faulty(2, 50, Cause::MissingEnd), two),
    ] {
        runs(&rt, alloc, &["list"], bytes, answer, text)?;
    }
    // behind an end unit another sequence may follow, and the stream may end
    let lines = "0 0 10 end 0 0\n1 13 10 end 13 13\n";
    lists(
        &rt,
        alloc,
        &[&end, &header(0x10, 13, 13)],
        Ended::Done,
        lines,
    )?;
    let behind = faulty(1, 15, Cause::Truncated);
    lists(
        &rt,
        alloc,
        &[&end, &[0x42, 0x42]],
        behind,
        "0 0 10 end 0 0\n",
    )
}

// The code is looked at before the offset.
fn names_codes<R: Threads + Sync>(rt: &R, alloc: Global) -> Result<(), Fail> {
    for (code, cause) in [
        (0x48, Cause::Vlc),
        (0x4C, Cause::Vlc),
        (0xC8, Cause::LowDelay),
        (0xCC, Cause::LowDelay),
        (0x0B, Cause::UnknownCode),
        (0x1F, Cause::UnknownCode),
        (0x28, Cause::UnknownCode),
        (0xFF, Cause::UnknownCode),
    ] {
        lists(rt, alloc, &[&header(code, 0, 0)], faulty(0, 4, cause), "")?;
    }
    Ok(())
}

fn names_offsets<R: Threads + Sync>(rt: &R, alloc: Global) -> Result<(), Fail> {
    let missing = faulty(0, 5, Cause::OffsetMissing);
    for next in 0..13 {
        lists(rt, alloc, &[&header(0x30, next, 0)], missing, "")?;
    }
    for next in [1, 12, 14, u32::MAX] {
        lists(rt, alloc, &[&header(0x10, next, 0)], missing, "")?;
    }
    Ok(())
}

fn names_truncated_units<R: Threads + Sync>(rt: &R, alloc: Global) -> Result<(), Fail> {
    for next in [14, 0x8000_0000, u32::MAX] {
        let truncated = faulty(0, 13, Cause::Truncated);
        lists(rt, alloc, &[&header(0x30, next, 0)], truncated, "")?;
        // more bytes than come at once, and fewer than the offset says
        let truncated = faulty(0, 5013, Cause::Truncated);
        let pieces: [&[u8]; 2] = [&header(0x30, next.max(5015), 0), &[0; 5000]];
        lists(rt, alloc, &pieces, truncated, "")?;
    }
    Ok(())
}

// Padding without a payload, and auxiliary data of all codes, each before an end unit.
fn lists_other_units<R: Threads + Sync>(rt: &R, alloc: Global) -> Result<(), Fail> {
    let lines = "0 0 30 padding 13 0\n1 13 10 end 0 13\n";
    let bare: [&[u8]; 2] = [&header(0x30, 13, 0), &header(0x10, 0, 13)];
    lists(rt, alloc, &bare, Ended::Done, lines)?;
    for code in 0x20..0x28 {
        let pieces: [&[u8]; 3] = [&header(code, 14, 7), &[9], &header(0x10, 0, 14)];
        let lines = format!(in alloc; "0 0 {code:02X} auxiliary 14 7\n1 14 10 end 0 14\n")?;
        lists(rt, alloc, &pieces, Ended::Done, lines.as_str())?;
    }
    Ok(())
}

#[test]
fn names_each_fault_at_its_place(rt: HostRuntime) -> Result<(), Fail> {
    let alloc = rt.alloc();
    lists(&rt, alloc, &[], faulty(0, 0, Cause::MissingEnd), "")?;
    let no_prefix: [&[u8]; 2] = [&[0x42, 0x42, 0x43, 0x45], &[0; 9]];
    lists(&rt, alloc, &no_prefix, faulty(0, 0, Cause::BadPrefix), "")?;
    names_codes(&rt, alloc)?;
    names_offsets(&rt, alloc)?;
    names_truncated_units(&rt, alloc)?;
    lists_other_units(&rt, alloc)
}

// Runs words over bytes in pieces: the source still holds each byte behind the parse info, of which the first is 1.
fn stops_behind<R: Abort + Threads + Sync>(
    rt: &R,
    alloc: Global,
    words: &Words,
    bytes: &[u8],
    most: usize,
    fault: Ended,
) -> Result<(), Fail> {
    let mut left = tried(rt, alloc, words, bytes, &pieces(most))?;
    assert_eq!(rt; left.ended, fault, "pieces of {most}");
    let line = "0 0 00 sequence 19 0\n";
    assert_eq!(rt; left.out.taken(), line.as_bytes(), "pieces of {most}");
    let mut next = [0u8; 8];
    let got = left.source.read(&mut next);
    assert_eq!(rt;
        (got, next[0]),
        (Got::Bytes(most.min(8)), 1),
        "pieces of {most}"
    );
    Ok(())
}

#[test]
fn list_reads_nothing_behind_a_faulty_parse_info(rt: HostRuntime) -> Result<(), Fail> {
    let alloc = rt.alloc();
    let words = words_of(alloc, &["list"])?;
    let no_prefix = [0x42, 0x42, 0x43, 0x45, 0x0C, 0, 0, 0, 31, 0, 0, 0, 19];
    for (info, fault) in [
        (no_prefix, faulty(1, 19, Cause::BadPrefix)),
        (header(0x4C, 31, 19), faulty(1, 23, Cause::Vlc)),
        (header(0x0B, 31, 19), faulty(1, 23, Cause::UnknownCode)),
        (header(0xC8, 31, 19), faulty(1, 23, Cause::LowDelay)),
        (header(0x0C, 5, 19), faulty(1, 24, Cause::OffsetMissing)),
    ] {
        let bytes = joined(alloc, &[&STREAM[..19], &info, &[1, 2, 3, 4, 5, 6, 7, 8]])?;
        for most in [1, 7, 4096] {
            stops_behind(&rt, alloc, &words, &bytes, most, fault)?;
        }
    }
    Ok(())
}

// Runs words over an end unit, of which the one of this number is refused.
fn refuses<R: Threads + Sync>(
    rt: &R,
    alloc: Global,
    words: &[&str],
    number: u32,
) -> Result<(), Fail> {
    runs(
        rt,
        alloc,
        words,
        &header(0x10, 0, 0),
        Ended::Usage(number),
        "",
    )
}

#[test]
fn refuses_words(rt: HostRuntime) -> Result<(), Fail> {
    let alloc = rt.alloc();
    refuses(&rt, alloc, &[], 0)?;
    for word in ["", "lists", "List", "--list", "help"] {
        refuses(&rt, alloc, &[word], 0)?;
        refuses(&rt, alloc, &[word, "list"], 0)?;
    }
    for word in ["", "list", "--", "--x=1"] {
        for command in ["list", "decode"] {
            refuses(&rt, alloc, &[command, word], 1)?;
            refuses(&rt, alloc, &[command, word, "y"], 1)?;
        }
    }
    for (first, second, number) in [
        ("", "--workers=2", 1),
        ("--width=8", "--workers=2", 1),
        ("--workers=", "--workers=2", 1),
        ("--workers=2x", "--workers=2", 1),
        ("--workers=2", "--workers=2", 2),
        ("--workers=2", "--recon=a", 2),
    ] {
        refuses(&rt, alloc, &["pardecode", first, second], number)?;
    }
    Ok(())
}

#[test]
fn refuses_numbers_of_workers(rt: HostRuntime) -> Result<(), Fail> {
    let alloc = rt.alloc();
    for (word, value) in [("--workers=0", 0), ("--workers=65", 65)] {
        let bad = Ended::BadSettings(BadSetting {
            name: Name::Workers,
            value,
        });
        runs(&rt, alloc, &["pardecode", word], &STREAM, bad, "")?;
    }
    Ok(())
}

// A header of pictures of 176 by 144, and a picture all of whose bands are empty.
const SEQUENCE: [u8; 3] = [0x6F, 0x60, 0x10];

const GREY: [u8; 17] = [
    0x00, 0x00, 0x00, 0x00, 0x90, 0x80, 0x80, 0x80, 0x80, 0x80, 0x80, 0x80, 0x80, 0x80, 0x80, 0x80,
    0x80,
];

const SAMPLES: usize = 38_016;

// The sequence header, pictures with these payloads, and an end unit.
fn stream(alloc: Global, pictures: &[&[u8]]) -> Result<Vec<u8>, Fail> {
    let mut bytes = joined(alloc, &[&header(0x00, 16, 0), &SEQUENCE])?;
    for picture in pictures {
        let length = picture.len().min(1000) as u32;
        bytes.extend_from_slice(&header(0x08, length + 13, 0))?;
        bytes.extend_from_slice(picture)?;
    }
    bytes.extend_from_slice(&header(0x10, 0, 0))?;
    Ok(bytes)
}

// A payload with one byte changed.
fn changed(alloc: Global, place: usize, byte: u8) -> Result<Vec<u8>, Fail> {
    let mut bytes = Vec::from_slice(alloc, &GREY)?;
    if let Some(at) = bytes.get_mut(place) {
        *at = byte;
    }
    Ok(bytes)
}

// Decodes bytes in pieces by both commands, and compares the answer, the samples that came out, all grey, and what was
// said beside them.
fn decodes<R: Abort + Threads + Sync>(
    rt: &R,
    alloc: Global,
    bytes: &[u8],
    answer: Ended,
    samples: usize,
    line: &str,
) -> Result<(), Fail> {
    for (most, command) in [
        (1, DECODE.as_slice()),
        (7, DECODE.as_slice()),
        (4096, DECODE.as_slice()),
        (7, PARDECODE.as_slice()),
    ] {
        let left = decoded(rt, alloc, command, bytes, &pieces(most))?;
        assert_eq!(rt; left.ended, answer, "pieces of {most}");
        assert_eq!(rt; left.out.taken().len(), samples, "pieces of {most}");
        assert!(rt; left.out.taken().iter().all(|byte| *byte == 0x80));
        assert_eq!(rt; left.side.taken(), line.as_bytes(), "pieces of {most}");
    }
    Ok(())
}

// The same of these pieces behind one another.
fn decodes_pieces<R: Abort + Threads + Sync>(
    rt: &R,
    alloc: Global,
    pieces: &[&[u8]],
    answer: Ended,
    samples: usize,
    line: &str,
) -> Result<(), Fail> {
    let bytes = joined(alloc, pieces)?;
    decodes(rt, alloc, &bytes, answer, samples, line)
}

// Six pictures, so that one leaves before the others; then another sequence.
fn decodes_six<R: Abort + Threads + Sync>(
    rt: &R,
    alloc: Global,
    long: &[u8],
    grey: &[u8],
) -> Result<(), Fail> {
    let six = stream(alloc, &[&GREY, long, &GREY, &GREY, &GREY, &GREY])?;
    let line = "pictures=6 references=0\n";
    decodes(rt, alloc, &six, Ended::Done, 6 * SAMPLES, line)?;
    let line = "pictures=7 references=0\n";
    decodes_pieces(rt, alloc, &[&six, grey], Ended::Done, 7 * SAMPLES, line)
}

#[test]
fn decodes_grey_pictures(rt: HostRuntime) -> Result<(), Fail> {
    let alloc = rt.alloc();
    let none = "pictures=0 references=0\n";
    let nothing = faulty(0, 0, Cause::MissingEnd);
    decodes(&rt, alloc, &[], nothing, 0, none)?;
    decodes(&rt, alloc, &header(0x10, 0, 0), Ended::Done, 0, none)?;

    let grey = stream(alloc, &[&GREY])?;
    // bytes behind the last field are free, and so is the number of a picture
    let mut long = changed(alloc, 3, 9)?;
    long.extend_from_slice(&[0xFF, 0x00])?;
    let behind = stream(alloc, &[&long])?;
    let opening = header(0x00, 16, 0);
    let rows: [&[&[u8]]; 3] = [
        &[&grey],
        &[&behind],
        // the open sequence's header again
        &[&opening, &SEQUENCE, &grey],
    ];
    for pieces in rows {
        let line = "pictures=1 references=0\n";
        decodes_pieces(&rt, alloc, pieces, Ended::Done, SAMPLES, line)?;
    }
    decodes_six(&rt, alloc, &long, &grey)
}

// What waits comes before a fault; a picture without a sequence doesn't.
fn decodes_what_waits<R: Abort + Threads + Sync>(rt: &R, alloc: Global) -> Result<(), Fail> {
    let opening = header(0x00, 16, 0);
    let picture = header(0x08, 30, 16);
    let one = "pictures=1 references=0\n";
    let open = faulty(2, 46, Cause::MissingEnd);
    let unended: [&[u8]; 4] = [&opening, &SEQUENCE, &picture, &GREY];
    decodes_pieces(rt, alloc, &unended, open, SAMPLES, one)?;
    let cut = faulty(2, 50, Cause::Truncated);
    let prefix = [0x42, 0x42, 0x43, 0x44];
    let broken: [&[u8]; 5] = [&opening, &SEQUENCE, &picture, &GREY, &prefix];
    decodes_pieces(rt, alloc, &broken, cut, SAMPLES, one)?;
    let headless = faulty(0, 0, Cause::NoSequence);
    let none = "pictures=0 references=0\n";
    decodes_pieces(rt, alloc, &[&picture, &GREY], headless, 0, none)
}

// A header whose offset is refused, whose payload is too short, or whose payload doesn't come; one that differs from
// that of the open sequence, or has a field that is refused.
fn refuses_sequences<R: Abort + Threads + Sync>(rt: &R, alloc: Global) -> Result<(), Fail> {
    let none = "pictures=0 references=0\n";
    for (next, at, cause) in [
        (0, 5, Cause::OffsetMissing),
        (12, 5, Cause::OffsetMissing),
        (13, 13, Cause::UnitShort),
        (14, 13, Cause::UnitShort),
        (113, 13, Cause::NumberTooLong),
        (114, 113, Cause::Truncated),
        (u32::MAX, 113, Cause::Truncated),
    ] {
        let pieces: [&[u8]; 2] = [&header(0x00, next, 0), &[0; 100]];
        decodes_pieces(rt, alloc, &pieces, faulty(0, at, cause), 0, none)?;
    }
    let opening = header(0x00, 16, 0);
    let rows: [(&[&[u8]], Ended); 3] = [
        (
            &[&opening, &SEQUENCE, &opening, &[0x6F, 0x60, 0x11]],
            faulty(1, 16, Cause::SequenceChanged),
        ),
        (
            &[&opening, &[0x6F, 0x04, 0x80]],
            faulty(0, 14, Cause::Preset),
        ),
        (
            &[&opening, &[0x6F, 0x02, 0x10]],
            faulty(0, 15, Cause::UnitShort),
        ),
    ];
    for (pieces, answer) in rows {
        decodes_pieces(rt, alloc, pieces, answer, 0, none)?;
    }
    Ok(())
}

#[test]
fn decodes_up_to_the_first_fault(rt: HostRuntime) -> Result<(), Fail> {
    let alloc = rt.alloc();
    decodes_what_waits(&rt, alloc)?;
    refuses_sequences(&rt, alloc)?;
    for (place, byte, at, cause) in [
        (4, 0x02, 33, Cause::Wavelet),
        (4, 0xC0, 33, Cause::Depth),
        (5, 0x20, 34, Cause::NumberTooLong),
        (16, 0x00, 45, Cause::UnitShort),
    ] {
        let picture = changed(alloc, place, byte)?;
        decodes_pictures(&rt, alloc, &[&picture], faulty(1, at, cause), 0)?;
    }
    let short = &GREY[..16];
    decodes_pictures(&rt, alloc, &[short], faulty(1, 45, Cause::UnitShort), 0)?;
    let second = faulty(2, 75, Cause::UnitShort);
    decodes_pictures(&rt, alloc, &[&GREY, short], second, 1)
}

// Decodes the stream of pictures with these payloads, of which that many, none or one, come out before a fault.
fn decodes_pictures<R: Abort + Threads + Sync>(
    rt: &R,
    alloc: Global,
    pictures: &[&[u8]],
    answer: Ended,
    count: usize,
) -> Result<(), Fail> {
    let bytes = stream(alloc, pictures)?;
    let (samples, line) = match count {
        0 => (0, "pictures=0 references=0\n"),
        _ => (SAMPLES, "pictures=1 references=0\n"),
    };
    decodes(rt, alloc, &bytes, answer, samples, line)
}

#[test]
fn decodes_intra_pictures(rt: HostRuntime) -> Result<(), Fail> {
    let alloc = rt.alloc();
    let none = "pictures=0 references=0\n";
    let one = "pictures=1 references=1\n";
    let grey = [0x80u8; 96];
    let samples = [
        0x81u8, 0x81, 0x81, 0x81, 0x80, 0x80, 0x80, 0x80, 0x80, 0x80, 0x80, 0x80,
    ];
    shows(&rt, alloc, &SMALL, Ended::Done, &samples, one)?;

    let unended = faulty(2, 50, Cause::MissingEnd);
    shows(&rt, alloc, &STREAM[..50], unended, &grey, one)?;
    let cut = faulty(1, 49, Cause::Truncated);
    shows(&rt, alloc, &STREAM[..49], cut, &[], none)?;

    // blocks that begin with ones
    refuses_ones(&rt, alloc, &[&SMALL[..39], &[0xFF], &SMALL[40..]])?;
    refuses_ones(
        &rt,
        alloc,
        &[
            &STREAM[..27],
            &[33],
            &STREAM[28..38],
            &[0x70, 0xFF, 0xFF],
            &[0x80; 11],
        ],
    )
}

// A stream of these pieces whose first block is refused.
fn refuses_ones<R: Threads + Sync>(rt: &R, alloc: Global, pieces: &[&[u8]]) -> Result<(), Fail> {
    let bytes = joined(alloc, pieces)?;
    let outside = faulty(1, 39, Cause::CodeWord);
    shows(rt, alloc, &bytes, outside, &[], "pictures=0 references=0\n")
}

// Six grey pictures, numbered from 0, and an end unit. It has 209 bytes.
fn six_pictures(alloc: Global) -> Result<Vec<u8>, Fail> {
    let mut bytes = joined(alloc, &[&header(0x00, 16, 0), &SEQUENCE])?;
    let mut previous = 16;
    for number in 0..6 {
        bytes.extend_from_slice(&header(0x08, 30, previous))?;
        bytes.extend_from_slice(&[0, 0, 0, number])?;
        bytes.extend_from_slice(&GREY[4..])?;
        previous = 30;
    }
    bytes.extend_from_slice(&header(0x10, 0, previous))?;
    Ok(bytes)
}

// Decodes bytes, one a read, of which the one of this number fails: that many pictures have come out.
fn shows_before_a_fault<R: Abort + Threads + Sync>(
    rt: &R,
    alloc: Global,
    bytes: &[u8],
    call: u64,
    shown: usize,
) -> Result<(), Fail> {
    let outside = Outside {
        read: 1,
        write: 4096,
        side: 9,
        reads: &[call],
        writes: &[],
        sides: &[],
    };
    let left = decoded(rt, alloc, &DECODE, bytes, &outside)?;
    assert_eq!(rt; left.ended, Ended::ReadFault, "read {call}");
    assert!(rt; shown <= 2);
    assert_eq!(rt; left.out.taken().len(), shown * SAMPLES, "read {call}");
    assert!(rt; left.out.taken().iter().all(|byte| *byte == 0x80));
    assert!(rt; counts_its_fault(&left));
    Ok(())
}

#[test]
fn shows_pictures_before_the_input_ends(rt: HostRuntime) -> Result<(), Fail> {
    let alloc = rt.alloc();
    let bytes = six_pictures(alloc)?;
    let line = "pictures=6 references=0\n";
    decodes(&rt, alloc, &bytes, Ended::Done, 6 * SAMPLES, line)?;
    // the pictures end at 46, 76, 106, 136, 166 and 196, and four of them wait
    for (call, shown) in [(0, 0), (165, 0), (166, 1), (195, 1), (196, 2), (208, 2)] {
        shows_before_a_fault(&rt, alloc, &bytes, call, shown)?;
    }
    Ok(())
}

// The first picture leaves while the fifth is taken. One worker and sixteen read no further than that, so the sixth and
// the end unit are left. Two workers read four pictures ahead, and then two and the end.
#[test]
fn reads_as_many_pictures_ahead_as_its_workers_need(rt: HostRuntime) -> Result<(), Fail> {
    let alloc = rt.alloc();
    let bytes = six_pictures(alloc)?;
    let outside = Outside {
        writes: &[0],
        ..pieces(4096)
    };
    let mut rest = [0u8; 64];
    for workers in ["--workers=1", "--workers=16"] {
        let mut left = decoded(&rt, alloc, &["pardecode", workers], &bytes, &outside)?;
        assert_eq!(rt; left.ended, Ended::WriteFault);
        assert_eq!(rt; left.source.read(&mut rest), Got::Bytes(43), "{workers}");
        assert_eq!(rt; rest[4], 0x08, "{workers}");
    }
    let mut left = decoded(&rt, alloc, &["pardecode", "--workers=2"], &bytes, &outside)?;
    assert_eq!(rt; left.ended, Ended::WriteFault);
    assert_eq!(rt; left.source.read(&mut rest), Got::End);
    Ok(())
}

#[test]
fn says_how_it_ended(rt: HostRuntime) -> Result<(), Fail> {
    let alloc = rt.alloc();
    let bad = BadSetting {
        name: Name::Width,
        value: 7,
    };
    for (ended, number, text) in [
        (Ended::Done, 0, ""),
        (Ended::Usage(2), 2, "usage: word 2"),
        (Ended::BadSettings(bad), 3, "bad setting width=7"),
        (
            faulty(1, 39, Cause::CodeWord),
            4,
            "fault unit=1 at=39 cause=CodeWord",
        ),
        (Ended::PartialPicture(4), 5, "partial picture: 4 bytes"),
        (Ended::UnitTooLong(0), 6, "unit too long: picture 0"),
        (Ended::TooManyPictures, 7, "too many pictures"),
        (Ended::ReadFault, 8, "read fault"),
        (Ended::WriteFault, 9, "write fault"),
        (Ended::SideFault, 10, "side fault"),
        (Ended::NoMemory, 11, "no memory"),
    ] {
        assert_eq!(rt; status(&ended), number);
        let said = ended_text(alloc, &ended)?;
        assert_eq!(rt; said.as_str(), text);
    }
    Ok(())
}
