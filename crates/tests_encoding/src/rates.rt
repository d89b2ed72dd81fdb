use crate::encoding::codes_back;
use dirac_commands::{Ended, Words, recon_path};
use dirac_types::{BadSetting, Name};
use std::alloc::Global;
use std::process::Abort;
use std::test::Fail;
use std::thread::Threads;
use tests_support::{GREY, PLAIN, SIZES, SMALL, STREAM, header, joined, leaves, noise};

// A picture of 2 by 2 samples, 4:4:4, and what is shown for it once its detail is lost.
const DETAIL: [u8; 12] = [
    0x82, 0x80, 0x82, 0x80, 0x80, 0x80, 0x80, 0x80, 0x80, 0x80, 0x80, 0x80,
];

const LOST: [u8; 12] = [
    0x81, 0x81, 0x81, 0x81, 0x80, 0x80, 0x80, 0x80, 0x80, 0x80, 0x80, 0x80,
];

// The settings of this picture.
const DETAIL_SIZES: [&str; 6] = [
    "--width=2",
    "--height=2",
    "--chroma=0",
    "--wavelet=3",
    "--depth=1",
    "--index=0",
];

// The words `rate`, these, and these.
fn rate_words(alloc: Global, first: &[&str], more: &[&str]) -> Result<Words, Fail> {
    let mut words = Words::new(alloc);
    words.push("rate")?;
    for word in first {
        words.push(word)?;
    }
    for word in more {
        words.push(word)?;
    }
    Ok(words)
}

// Fits the picture to a budget, and compares the answer, the stream and what is shown.
fn fits<R: Abort + Threads + Sync>(
    rt: &R,
    alloc: Global,
    settings: &[&str],
    answer: Ended,
    stream: &[u8],
    shown: &[u8],
) -> Result<(), Fail> {
    let words = rate_words(alloc, &DETAIL_SIZES, settings)?;
    leaves(rt, alloc, &words, &DETAIL, answer, stream, shown)
}

#[test]
fn fits_pictures_to_a_budget(rt: HostRuntime) -> Result<(), Fail> {
    let alloc = rt.alloc();
    let unit = [
        0x00, 0x00, 0x00, 0x00, 0x80, 0x09, 0x00, 0x30, 0x2E, 0x30, 0x7E, 0x80, 0x80, 0x80, 0x80,
        0x80, 0x80, 0x80, 0x80, 0x80, 0x80,
    ];
    let exact = joined(
        alloc,
        &[
            &SMALL[..18],
            &header(0x0C, 34, 18),
            &unit,
            &header(0x10, 0, 34),
        ],
    )?;
    for budget in ["--budget=34", "--budget=4294967295"] {
        fits(
            &rt,
            alloc,
            &[budget, "--gop=12"],
            Ended::Done,
            &exact,
            &DETAIL,
        )?;
    }
    Ok(())
}

#[test]
fn loses_what_does_not_fit(rt: HostRuntime) -> Result<(), Fail> {
    let alloc = rt.alloc();
    for (budget, most) in [
        ("--budget=33", "--gop=12"),
        // from index 5 on the unit has 33 bytes: where none fits, the last index is taken
        ("--budget=32", "--gop=12"),
        ("--budget=14", "--gop=12"),
        ("--budget=33", "--unit_bytes=33"),
    ] {
        fits(&rt, alloc, &[budget, most], Ended::Done, &SMALL, &LOST)?;
    }
    Ok(())
}

// The unit of 34 bytes fits the budget, and the longest unit still counts.
#[test]
fn stops_at_a_unit_that_is_too_long(rt: HostRuntime) -> Result<(), Fail> {
    let alloc = rt.alloc();
    let settings = ["--budget=34", "--unit_bytes=33"];
    let answer = Ended::UnitTooLong(0);
    fits(&rt, alloc, &settings, answer, &SMALL[..18], &[])
}

#[test]
fn fits_grey_pictures_at_the_default(rt: HostRuntime) -> Result<(), Fail> {
    let alloc = rt.alloc();
    for (more, raw, answer) in [
        (PLAIN, 192, Ended::Done),
        ("--workers=2", 192, Ended::Done),
        (PLAIN, 196, Ended::PartialPicture(4)),
    ] {
        let words = rate_words(alloc, &SIZES, &[more])?;
        let raw = &GREY[..raw.min(GREY.len())];
        leaves(&rt, alloc, &words, raw, answer, &STREAM, &GREY[..192])?;
    }
    Ok(())
}

// Fourteen pictures in a group, from one reference and from two.
#[test]
fn decodes_what_was_fitted(rt: HostRuntime) -> Result<(), Fail> {
    let alloc = rt.alloc();
    let tally = "pictures=14 references=3\n";
    for more in ["--references=2", "--references=1"] {
        let words = rate_words(
            alloc,
            &SIZES,
            &["--gop=14", "--between=3", "--budget=120", more],
        )?;
        let raw = noise(alloc, 1344)?;
        codes_back(&rt, alloc, &words, raw.as_slice(), false, tally)?;
    }
    Ok(())
}

#[test]
fn refuses_budgets(rt: HostRuntime) -> Result<(), Fail> {
    let alloc = rt.alloc();
    for (first, second, answer) in [
        ("--budget=13", "--gop=1", bad(Name::Budget, 13)),
        ("--budget=0", "--recon=made", bad(Name::Budget, 0)),
        // the budget is the last in the order
        ("--budget=13", "--unit_bytes=13", bad(Name::UnitBytes, 13)),
        ("--budget=13", "--depth=5", bad(Name::Depth, 5)),
        ("--budget=14", "--budget=14", Ended::Usage(2)),
        ("--budget=4294967296", "--gop=1", Ended::Usage(1)),
        ("--gop=1", "--count=1", Ended::Usage(2)),
    ] {
        let words = rate_words(alloc, &[first], &[second])?;
        leaves(&rt, alloc, &words, &GREY, answer, &[], &[])?;
    }
    let mut words = Words::new(alloc);
    words.push("encode")?;
    words.push("--budget=14")?;
    leaves(&rt, alloc, &words, &GREY, Ended::Usage(1), &[], &[])
}

fn bad(name: Name, value: u64) -> Ended {
    Ended::BadSettings(BadSetting { name, value })
}

#[test]
fn tells_where_reconstructions_go(rt: HostRuntime) -> Result<(), Fail> {
    let alloc = rt.alloc();
    for (more, path) in [
        ("--budget=14", Some("a.raw")),
        ("--budget=13", None),
        ("--depth=5", None),
        ("--recon=b.raw", None),
    ] {
        let words = rate_words(alloc, &["--recon=a.raw"], &[more])?;
        assert_eq!(rt; recon_path(&words), path);
    }
    let words = rate_words(alloc, &["--budget=14"], &[])?;
    assert_eq!(rt; recon_path(&words), None);
    Ok(())
}
