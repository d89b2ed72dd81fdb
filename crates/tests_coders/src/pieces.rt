use dirac_common::{Cause, Fault, Picture};
use dirac_push::{Answer, PushDecoder, Unsent, put_rows};
use std::process::Abort;
use std::test::Fail;

// One intra picture of 2 by 2 samples, 4:4:4, by the Haar wavelet at depth 1: its LL band in luma has the value 1.
const SMALL: [u8; 64] = [
    0x42, 0x42, 0x43, 0x44, 0x00, 0x00, 0x00, 0x00, 0x12, 0x00, 0x00, 0x00, 0x00, 0x6F, 0xDB, 0xC5,
    0xBC, 0x80, 0x42, 0x42, 0x43, 0x44, 0x0C, 0x00, 0x00, 0x00, 0x21, 0x00, 0x00, 0x00, 0x12, 0x00,
    0x00, 0x00, 0x00, 0x80, 0x09, 0x00, 0x30, 0x2E, 0x80, 0x80, 0x80, 0x80, 0x80, 0x80, 0x80, 0x80,
    0x80, 0x80, 0x80, 0x42, 0x42, 0x43, 0x44, 0x10, 0x00, 0x00, 0x00, 0x00, 0x00, 0x00, 0x00, 0x21,
];

// Sends nothing, and then the stream byte by byte: the picture leaves with the last one.
fn sends_each_byte<R: Abort>(rt: &R, decoder: &mut PushDecoder) {
    assert_eq!(rt; decoder.send(&[]), Ok(()));
    for byte in SMALL {
        assert_eq!(rt; decoder.next(), Answer::Needs);
        assert_eq!(rt; decoder.send(&[byte]), Ok(()));
    }
    assert_eq!(rt; decoder.next(), Answer::Shown);
}

// Copies planes of the picture, where there is room for them and where there is none.
fn copies_planes<R: Abort>(rt: &R, picture: &Picture) {
    let mut out = [7; 8];
    let written = put_rows(&picture.y, &mut out, 3);
    assert_eq!(rt;
        (written, out),
        (true, [0x81, 0x81, 7, 0x81, 0x81, 7, 7, 7])
    );
    let written = put_rows(&picture.v, &mut out[..4], 2);
    assert_eq!(rt;
        (written, out),
        (true, [0x80, 0x80, 0x80, 0x80, 0x81, 7, 7, 7])
    );
    let written = (
        put_rows(&picture.u, &mut out, 1),
        put_rows(&picture.u, &mut out[..4], 3),
    );
    assert_eq!(rt; written, (false, false));
}

#[test]
fn a_picture_leaves_with_the_last_byte_of_its_sequence(rt: HostRuntime) -> Result<(), Fail> {
    let mut decoder = PushDecoder::new(rt.alloc());
    sends_each_byte(&rt, &mut decoder);
    if let Some(picture) = decoder.shown() {
        assert_eq!(rt; picture.number, 0);
        copies_planes(&rt, picture);
    }
    assert_eq!(rt; decoder.format().map(|sequence| sequence.width), Some(2));
    assert_eq!(rt; decoder.next(), Answer::Needs);
    decoder.finish();
    let ended = (decoder.next(), decoder.next(), decoder.send(&[0]));
    assert_eq!(rt; ended, (Answer::End, Answer::End, Err(Unsent::Finished)));
    Ok(())
}

#[test]
fn a_stream_that_is_finished_inside_a_unit_is_cut(rt: HostRuntime) -> Result<(), Fail> {
    let mut decoder = PushDecoder::new(rt.alloc());
    assert_eq!(rt; decoder.send(&SMALL[..31]), Ok(()));
    assert_eq!(rt; decoder.next(), Answer::Needs);
    decoder.finish();
    let cut = Fault {
        unit: 1,
        at: 31,
        cause: Cause::Truncated,
    };
    let ended = (decoder.next(), decoder.next());
    assert_eq!(rt; ended, (Answer::Fault(cut), Answer::Fault(cut)));
    Ok(())
}

#[test]
fn a_wrong_prefix_is_a_fault_at_its_thirteenth_byte(rt: HostRuntime) -> Result<(), Fail> {
    let mut decoder = PushDecoder::new(rt.alloc());
    assert_eq!(rt; decoder.send(&[0x42; 12]), Ok(()));
    assert_eq!(rt; decoder.next(), Answer::Needs);
    assert_eq!(rt; decoder.send(&[0x42]), Ok(()));
    let wrong = Fault {
        unit: 0,
        at: 0,
        cause: Cause::BadPrefix,
    };
    assert_eq!(rt; decoder.next(), Answer::Fault(wrong));
    // Bytes behind it change nothing.
    let behind = (decoder.send(&SMALL), decoder.next());
    assert_eq!(rt; behind, (Ok(()), Answer::Fault(wrong)));
    Ok(())
}
