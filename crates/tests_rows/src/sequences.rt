use dirac_common::{Cause, Chroma, Refusal};
use dirac_sequence_header::{Sequence, preset, read_sequence};

#[test]
fn refused_headers(rt: HostRuntime) {
    let zeros = [0u8; 10];
    let rows: [(&[u8], u64, Cause); 14] = [
        (&[0x6F, 0x04, 0x80, 0x00, 0x00], 1, Cause::Preset),
        (&[0x6F, 0xE0, 0x00, 0x00, 0x00], 1, Cause::Size),
        (&[0x6F, 0xA1, 0x00, 0x00, 0x00], 1, Cause::ChromaFormat),
        (&[0x6F, 0x96, 0x00, 0x00, 0x00], 1, Cause::Sampling),
        (&[0x6F, 0x8A, 0x10, 0x00, 0x00], 1, Cause::RateIndex),
        (&[0x6F, 0x84, 0x08, 0x00, 0x00], 1, Cause::AspectIndex),
        (&[0x6F, 0x81, 0x48, 0x00, 0x00], 2, Cause::SignalRange),
        (&[0x6F, 0xC1, 0x83, 0x00, 0xC0], 3, Cause::Fields),
        (&[0x6F, 0xC1, 0x8B, 0x00, 0x40], 3, Cause::Size),
        (&[0x0F, 0x00, 0x00, 0x00, 0x00], 0, Cause::Version),
        // base 8 with signal range 3 is of depth 10
        (&[0x6F, 0x06, 0x01, 0x00, 0x00], 2, Cause::Depth8),
        (zeros.as_slice(), 0, Cause::NumberTooLong),
        (&zeros[..9], 0, Cause::UnitShort),
        // the payload ends within the flags
        (&[0x6F, 0x60], 2, Cause::UnitShort),
    ];
    for (payload, at, cause) in rows {
        assert_eq!(rt; read_sequence(payload), Err(Refusal { at, cause }));
    }
}

#[test]
fn read_headers(rt: HostRuntime) {
    let base = Sequence {
        major: 2,
        minor: 2,
        profile: 0,
        level: 0,
        base: 2,
        width: 176,
        height: 144,
        chroma: Chroma::C420,
        interlaced: false,
        rate: (25, 2),
        aspect: (12, 11),
        clean: (176, 144, 0, 0),
        luma: (0, 255),
        colour: (128, 255),
        fields: false,
    };
    let small = Sequence {
        major: 2,
        minor: 2,
        width: 8,
        height: 8,
        clean: (8, 8, 0, 0),
        ..preset(0)
    };
    let fields = Sequence {
        major: 2,
        minor: 2,
        width: 8,
        height: 8,
        fields: true,
        ..preset(0)
    };
    let rows: [(&[u8], Sequence, u32); 3] = [
        (&[0x6F, 0x60, 0x10], base, 144),
        // 8 by 8 samples of base 0, with its clean area
        (&[0x6F, 0xC1, 0x83, 0x08, 0x30, 0x79], small, 8),
        // fields of frames of 8 by 8: pictures of 8 by 4
        (&[0x6F, 0xC1, 0x83, 0x00, 0x40], fields, 4),
    ];
    for (payload, wanted, height) in rows {
        assert_eq!(rt; read_sequence(payload), Ok(wanted));
        assert_eq!(rt; wanted.picture_height(), height);
    }
}
