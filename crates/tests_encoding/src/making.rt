use dirac_commands::{Ended, Words};
use dirac_types::{BadSetting, Name};
use std::alloc::Global;
use std::process::Abort;
use std::test::Fail;
use std::thread::Threads;
use tests_support::{pieces, tried};

// Words behind one another: a command, the size of 8 by 8 samples with chroma 4:2:0, and these.
fn words_of(alloc: Global, command: &str, more: &[&str]) -> Result<Words, Fail> {
    let mut words = Words::new(alloc);
    words.push(command)?;
    for word in ["--width=8", "--height=8", "--chroma=2", "--depth=1"] {
        words.push(word)?;
    }
    for word in more {
        words.push(word)?;
    }
    Ok(words)
}

// Appends a plane of generated picture `n`: each step to the right adds 3, each step down 5.
fn push_plane(bytes: &mut Vec<u8>, start: u8, width: u8, height: u8) -> Result<(), Fail> {
    for y in 0..height {
        for x in 0..width {
            let right = x.wrapping_mul(3);
            let down = y.wrapping_mul(5);
            bytes.push(start.wrapping_add(right).wrapping_add(down))?;
        }
    }
    Ok(())
}

// The first generated pictures of 8 by 8 samples: from one to the next each byte grows by 11.
fn generated(alloc: Global, count: u8) -> Result<Vec<u8>, Fail> {
    let mut bytes = Vec::new(alloc);
    for n in 0..count {
        let first = n.wrapping_mul(11);
        push_plane(&mut bytes, first, 8, 8)?;
        push_plane(&mut bytes, first.wrapping_add(40), 4, 4)?;
        push_plane(&mut bytes, first.wrapping_add(80), 4, 4)?;
    }
    Ok(bytes)
}

// Makes pictures in pieces, and compares the answer and what came out.
fn makes<R: Abort + Threads + Sync>(
    rt: &R,
    alloc: Global,
    more: &[&str],
    answer: Ended,
    text: &str,
) -> Result<(), Fail> {
    let words = words_of(alloc, "make", more)?;
    for most in [1, 7, 4096] {
        let left = tried(rt, alloc, &words, &[1, 2, 3], &pieces(most))?;
        assert_eq!(rt; left.ended, answer);
        assert_eq!(rt; left.out.taken(), text.as_bytes());
        assert!(rt; left.side.taken().is_empty());
    }
    Ok(())
}

// Compares the line with what `encode` makes of the same three pictures.
fn makes_as_encode<R: Abort + Threads + Sync>(
    rt: &R,
    alloc: Global,
    setting: &str,
) -> Result<(), Fail> {
    let raw = generated(alloc, 3)?;
    let words = words_of(alloc, "encode", &[setting])?;
    let left = tried(rt, alloc, &words, raw.as_slice(), &pieces(4096))?;
    let mut exact = 0u32;
    for (ours, shown) in raw.chunks(96).zip(left.side.taken().chunks(96)) {
        if ours == shown {
            exact = exact.saturating_add(1);
        }
    }
    let stream = left.out.taken().len();
    let text = format!(in alloc; "pictures=3 stream={stream} raw=288 exact={exact}\n")?;
    makes(
        rt,
        alloc,
        &["--count=3", setting],
        Ended::Done,
        text.as_str(),
    )
}

#[test]
fn makes_pictures(rt: HostRuntime) -> Result<(), Fail> {
    let alloc = rt.alloc();
    let none = "pictures=0 stream=32 raw=0 exact=0\n";
    makes(&rt, alloc, &["--count=0"], Ended::Done, none)?;
    for setting in ["--index=0", "--index=20", "--index=99", "--wavelet=3"] {
        makes_as_encode(&rt, alloc, setting)?;
    }
    for (first, second, name, value) in [
        ("--count=1001", "--level=1", Name::Count, 1001),
        ("--count=1001", "--level=256", Name::Level, 256),
        ("--count=1001", "--unit_bytes=13", Name::UnitBytes, 13),
    ] {
        let bad = Ended::BadSettings(BadSetting { name, value });
        makes(&rt, alloc, &[first, second], bad, "")?;
    }
    for (first, second, answer) in [
        ("--count=x", "--level=1", Ended::Usage(5)),
        ("--count=3", "--count=3", Ended::Usage(6)),
        ("--level=1", "--recon=a", Ended::Usage(6)),
        ("--unit_bytes=14", "--pictures=1", Ended::UnitTooLong(0)),
        ("--count=3", "--pictures=2", Ended::TooManyPictures),
    ] {
        makes(&rt, alloc, &[first, second], answer, "")?;
    }
    Ok(())
}
