//! What C calls.
ghost use Rattle.std.specs.Prelude.{◌≡◌, ◌⊎◌, true, false, option_map};
ghost use Rattle.std.specs.Borrow.{Bor};
ghost use Rattle.dirac_common.specs.Table.{Table};
ghost use Rattle.dirac_push.specs.Pushing.{HoldsJustKept, push_begun};
ghost use Rattle.jevmutzal.specs.Describing.{CopiesShown, TellsFormat, TellsNext, empty_frame};
ghost use Rattle.jevmutzal.specs.Describing.{frame_told, plane_numbered as numbered, shown_frame as shown};
ghost use Rattle.jevmutzal.specs.Numbers.{number_of_answer};
ghost use Rattle.jevmutzal.specs.Sending.{TellsSent, WritesName};

use crate::causes::cause_of;
use crate::codes::{
    CLOSED, END, FAULT, FINISHED, NEEDS, NO_MEMORY, NO_PICTURE, OK, PICTURE, SMALL, STOPPED,
    UNKNOWN, VERSION,
};
use crate::handle::Handle;
use crate::structs::{Format, Frame};
use dirac_push::{Answer, PushDecoder, Unsent, put_rows};
use dirac_types::{Picture, Plane, cause_name};
use std::alloc::Global;
use std::mem::replace;

/// The version of this interface.
#[unsafe(no_mangle)]
pub extern "C" fn jev_version() -> u32
    ensures { result ≡ VERSION }
{
    VERSION
}

/// Opens a decoder before the first byte of a stream; what an open one held is freed. Where there is no memory, the
/// handle stays as it was.
#[unsafe(no_mangle)]
pub extern "C" fn jev_decoder_open(alloc: Global, decoder: &mut Handle) -> i32
    ensures either { (result ≡ OK) ⊎ (result ≡ NO_MEMORY) }
    ensures opened { result ≡ OK → (decoder.new.is_open ≡ true) × (decoder.new.decoder ≡ push_begun) }
    ensures no_memory { result ≡ NO_MEMORY → decoder.new ≡ decoder.old }
{
    match Box::new(alloc, PushDecoder::new(alloc)) {
        Ok(it) => {
            *decoder = Handle::opened(it);
            OK
        }
        Err(_) => NO_MEMORY,
    }
}

/// Frees all that a decoder holds. A closed one stays closed.
#[unsafe(no_mangle)]
pub extern "C" fn jev_decoder_close(alloc: Global, decoder: &mut Handle)
    ensures { decoder.new.is_open ≡ false }
{
    *decoder = Handle::closed(alloc);
}

/// Adds bytes of the stream: any number, cut anywhere. They are copied; once a fault or want of memory was met they are
/// counted and not kept.
#[unsafe(no_mangle)]
pub extern "C" fn jev_decoder_send(alloc: Global, decoder: &mut Handle, bytes: &[u8]) -> i32
    ensures open { decoder.new.is_open ≡ decoder.old.is_open }
    ensures closed { decoder.old.is_open ≡ false → result ≡ CLOSED }
    ensures sent { decoder.old.is_open ≡ true → TellsSent result bytes.now decoder.old.decoder decoder.new.decoder }
{
    match replace(decoder, Handle::closed(alloc)).into_box() {
        None => CLOSED,
        Some(mut it) => {
            let code = send_to(&mut it, bytes);
            *decoder = Handle::opened(it);
            code
        }
    }
}

/// Says that no more bytes follow.
#[unsafe(no_mangle)]
pub extern "C" fn jev_decoder_finish(alloc: Global, decoder: &mut Handle) -> i32
    ensures open { decoder.new.is_open ≡ decoder.old.is_open }
    ensures closed { decoder.old.is_open ≡ false → result ≡ CLOSED }
    ensures finished { decoder.old.is_open ≡ true → (result ≡ OK)
        × (decoder.new.decoder ≡ record decoder.old.decoder { is_finished = true }) }
{
    match replace(decoder, Handle::closed(alloc)).into_box() {
        None => CLOSED,
        Some(mut it) => {
            it.finish();
            *decoder = Handle::opened(it);
            OK
        }
    }
}

/// What comes next. It never waits.
#[unsafe(no_mangle)]
pub extern "C" fn jev_decoder_next(alloc: Global, decoder: &mut Handle, frame: &mut Frame) -> i32
    ensures open { decoder.new.is_open ≡ decoder.old.is_open }
    ensures closed { decoder.old.is_open ≡ false → (result ≡ CLOSED) × (frame.new ≡ empty_frame) }
    ensures next { decoder.old.is_open ≡ true
        → TellsNext result frame.new decoder.old.decoder decoder.new.decoder }
    ensures given_up { decoder.old.is_open ≡ true → HoldsJustKept decoder.new.decoder }
{
    *frame = Frame::empty();
    match replace(decoder, Handle::closed(alloc)).into_box() {
        None => CLOSED,
        Some(mut it) => {
            let code = next_of(&mut it, frame);
            *decoder = Handle::opened(it);
            code
        }
    }
}

/// Copies plane 0 (Y), 1 (U) or 2 (V) of the picture that the last call of next gave: a byte a sample, its rows
/// `stride` bytes apart. No other byte is touched.
#[unsafe(no_mangle)]
pub extern "C" fn jev_decoder_plane(
    alloc: Global,
    decoder: &mut Handle,
    plane: u32,
    out: &mut [u8],
    stride: usize,
) -> i32
    ensures open { decoder.new.is_open ≡ decoder.old.is_open }
    ensures closed { decoder.old.is_open ≡ false → (result ≡ CLOSED) × (out.new ≡ out.old) }
    ensures same { decoder.old.is_open ≡ true → decoder.new.decoder ≡ decoder.old.decoder }
    ensures copied { decoder.old.is_open ≡ true
        → CopiesShown decoder.old.decoder.shown plane result stride out.old out.new }
{
    match replace(decoder, Handle::closed(alloc)).into_box() {
        None => CLOSED,
        Some(it) => {
            let code = copy_plane(&it, plane, out, stride);
            *decoder = Handle::opened(it);
            code
        }
    }
}

/// What is told of the sequence that was opened last, that of the picture given.
#[unsafe(no_mangle)]
pub extern "C" fn jev_decoder_format(
    alloc: Global,
    decoder: &mut Handle,
    format: &mut Format,
) -> i32
    ensures open { decoder.new.is_open ≡ decoder.old.is_open }
    ensures closed { decoder.old.is_open ≡ false → (result ≡ CLOSED) × (format.new ≡ format.old) }
    ensures same { decoder.old.is_open ≡ true → decoder.new.decoder ≡ decoder.old.decoder }
    ensures told { decoder.old.is_open ≡ true
        → TellsFormat decoder.old.decoder.format result format.old format.new }
{
    match replace(decoder, Handle::closed(alloc)).into_box() {
        None => CLOSED,
        Some(it) => {
            let code = tell_format(&it, format);
            *decoder = Handle::opened(it);
            code
        }
    }
}

/// Writes the name of a cause, and returns its length; 0, and nothing is written, where no cause has the number or the
/// buffer no room.
#[unsafe(no_mangle)]
pub extern "C" fn jev_cause_name(cause: u32, out: &mut [u8]) -> usize
    ensures { WritesName cause result out.old out.new }
{
    match cause_of(cause) {
        None => 0,
        Some(cause) => {
            let name = cause_name(cause).as_bytes();
            if out.len() < name.len() {
                return 0;
            }
            out[..name.len()].copy_from_slice(name);
            name.len()
        }
    }
}

/// Sends bytes, and tells the answer.
fn send_to(decoder: &mut PushDecoder, bytes: &[u8]) -> i32
    ensures { TellsSent result bytes.now decoder.old decoder.new }
{
    match decoder.send(bytes) {
        Ok(()) => OK,
        Err(Unsent::NoMemory) => NO_MEMORY,
        Err(Unsent::Finished) => FINISHED,
    }
}

/// Asks what comes next, and tells the answer.
#[tactic(auto, using(crate::proofs::Telling::tells))]
fn next_of(decoder: &mut PushDecoder, frame: &mut Frame) -> i32
    ensures told { TellsNext result frame.new decoder.old decoder.new }
    ensures given_up { HoldsJustKept decoder.new }
{
    let answer = decoder.next();
    *frame = frame_of(answer, decoder);
    code_of(answer)
}

/// The number of an answer.
fn code_of(answer: Answer) -> i32
    ensures { result ≡ number_of_answer answer }
{
    match answer {
        Answer::Shown => PICTURE,
        Answer::Needs => NEEDS,
        Answer::End => END,
        Answer::Fault(_) => FAULT,
        Answer::NoMemory => NO_MEMORY,
        Answer::Stopped => STOPPED,
    }
}

/// What is told of an answer.
fn frame_of(answer: Answer, decoder: &PushDecoder) -> Frame
    ensures { result ≡ frame_told answer decoder.now.shown }
{
    match answer {
        Answer::Shown => shown_frame(decoder),
        Answer::Fault(fault) => Frame::of_fault(fault),
        Answer::Needs | Answer::End | Answer::NoMemory | Answer::Stopped => Frame::empty(),
    }
}

/// What is told of the picture that was given last.
fn shown_frame(decoder: &PushDecoder) -> Frame
    ensures { result ≡ shown decoder.now.shown }
{
    match decoder.shown() {
        None => Frame::empty(),
        Some(picture) => Frame::of_picture(picture),
    }
}

/// Copies a plane of the picture that was given last.
fn copy_plane(decoder: &PushDecoder, plane: u32, out: &mut [u8], stride: usize) -> i32
    ensures { CopiesShown decoder.now.shown plane result stride out.old out.new }
{
    let Some(picture) = decoder.shown() else {
        return NO_PICTURE;
    };
    match plane_numbered(picture, plane) {
        None => UNKNOWN,
        Some(plane) => {
            if put_rows(plane, out, stride) {
                OK
            } else {
                SMALL
            }
        }
    }
}

/// The plane of a picture that has this number.
fn plane_numbered(picture: &Picture, number: u32) -> Option<&Plane>
    ensures { option_map (λ (t : Bor Table). t.now) result ≡ numbered picture.now number }
{
    match number {
        0 => Some(&picture.y),
        1 => Some(&picture.u),
        2 => Some(&picture.v),
        _ => None,
    }
}

/// Tells the sequence that was opened last.
fn tell_format(decoder: &PushDecoder, format: &mut Format) -> i32
    ensures { TellsFormat decoder.now.format result format.old format.new }
{
    match decoder.format() {
        None => NO_PICTURE,
        Some(sequence) => {
            *format = Format::of(&sequence);
            OK
        }
    }
}
