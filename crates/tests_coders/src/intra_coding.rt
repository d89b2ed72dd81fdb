use dirac_common::{NoMemory, OpenGate};
use dirac_encode::{Coded, code_picture, picture_of, raw_length};
use dirac_plan::Planned;
use dirac_refs::RefBuffer;
use dirac_sequence::write_sequence;
use dirac_types::Settings;
use std::alloc::Global;
use std::process::Abort;
use std::thread::Threads;

/// Settings of this luma size at depth 1.
fn settings_of(width: u32, height: u32) -> Settings {
    let mut settings = Settings::of_base(0);
    settings.width = width;
    settings.height = height;
    settings.depth = 1;
    settings
}

/// Codes a raw picture, and compares the payload.
fn codes<R: Abort + Threads + Sync>(
    rt: &R,
    alloc: Global,
    settings: &Settings,
    raw: &[u8],
    payload: &[u8],
) -> Result<(), NoMemory> {
    assert!(rt; coded(rt, alloc, settings, raw)?.payload.as_slice() == payload);
    Ok(())
}

/// A raw picture, coded.
fn coded<R: Abort + Threads + Sync>(
    rt: &R,
    alloc: Global,
    settings: &Settings,
    raw: &[u8],
) -> Result<Coded, NoMemory> {
    assert!(rt; settings.check().is_ok());
    assert_eq!(rt; raw.len(), raw_length(settings));
    let source = picture_of(alloc, settings, 0, raw)?;
    let planned = Planned::opening(source.number);
    let refs = RefBuffer::new();
    code_picture(rt, alloc, &planned, &source, &refs, settings, &OpenGate)
}

/// Writes the sequence header of settings, and compares its payload.
fn opens<R: Abort>(
    rt: &R,
    alloc: Global,
    settings: &Settings,
    payload: &[u8],
) -> Result<(), NoMemory> {
    assert!(rt; settings.check().is_ok());
    assert!(rt; write_sequence(alloc, settings)?.as_slice() == payload);
    Ok(())
}

#[test]
fn grey_of_eight(rt: HostRuntime) -> Result<(), NoMemory> {
    let alloc = rt.alloc();
    let settings = settings_of(8, 8);
    opens(&rt, alloc, &settings, &[0x6F, 0xC1, 0x83, 0x08, 0x30, 0x79])?;
    opens(&rt, alloc, &Settings::of_base(8), &[0x6F, 0x06, 0x05, 0xA0])?;
    let grey = [0x80u8; 96];
    let wanted = [
        0u8, 0, 0, 0, 0x80, 0x90, 0x80, 0x80, 0x80, 0x80, 0x80, 0x80, 0x80, 0x80, 0x80, 0x80, 0x80,
        0x80,
    ];
    codes(&rt, alloc, &settings, &grey, &wanted)
}

#[test]
fn haar_of_two(rt: HostRuntime) -> Result<(), NoMemory> {
    let alloc = rt.alloc();
    let mut settings = settings_of(2, 2);
    settings.chroma = 0;
    settings.wavelet = 3;
    settings.index = 0;
    opens(&rt, alloc, &settings, &[0x6F, 0xDB, 0xC5, 0xBC, 0x80])?;
    let raw = [
        0x81u8, 0x81, 0x81, 0x81, 0x80, 0x80, 0x80, 0x80, 0x80, 0x80, 0x80, 0x80,
    ];
    let wanted = [
        0u8, 0, 0, 0, 0x80, 0x09, 0x00, 0x30, 0x2E, 0x80, 0x80, 0x80, 0x80, 0x80, 0x80, 0x80, 0x80,
        0x80, 0x80, 0x80,
    ];
    codes(&rt, alloc, &settings, &raw, &wanted)
}
