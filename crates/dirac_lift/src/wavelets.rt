//! The wavelets: each is written once a direction, as lifting steps one after another. They are named by their index: 0
//! Deslauriers-Dubuc (9,7), 1 LeGall (5,3), 2 Deslauriers-Dubuc (13,7), 3 and 4 Haar without and with shift, 5
//! Fidelity, 6 Daubechies (9,7).
ghost use Rattle.std.specs.Prelude.{◌≡◌};
ghost use Rattle.std.specs.List.{FoldsTo};
ghost use Rattle.dirac_common.specs.Limits.{IsWavelet};
ghost use Rattle.dirac_lift.specs.Running.{CanRun};
ghost use Rattle.dirac_lift.specs.Wavelets.{daubechies_9_7, deslauriers_dubuc_13_7, deslauriers_dubuc_9_7, fidelity};
ghost use Rattle.dirac_lift.specs.Wavelets.{haar, has_shift, legall_5_3, steps_of, taken_back};

use crate::liftable::Liftable;
use crate::step::Change::{EvenMinus, EvenPlus, OddMinus, OddPlus};
use crate::tables::{DESLAURIERS_DUBUC, FIDELITY_EVEN, FIDELITY_ODD};

/// Synthesis: Deslauriers-Dubuc (9,7).
#[inline(always)]
fn synth_deslauriers_dubuc_9_7<L: Liftable>(lines: &mut L)
    requires { CanRun L.can_lift L.lifted deslauriers_dubuc_9_7 lines.old }
    ensures { FoldsTo L.lifted lines.old deslauriers_dubuc_9_7 lines.new }
{
    lines.lift(EvenMinus, 2, 1, &[1, 1]);
    lines.lift(OddPlus, 4, 1, &DESLAURIERS_DUBUC);
}

/// Analysis: Deslauriers-Dubuc (9,7).
#[inline(always)]
fn analyse_deslauriers_dubuc_9_7<L: Liftable>(lines: &mut L)
    requires { CanRun L.can_lift L.lifted (taken_back deslauriers_dubuc_9_7) lines.old }
    ensures { FoldsTo L.lifted lines.old (taken_back deslauriers_dubuc_9_7) lines.new }
{
    lines.lift(OddMinus, 4, 1, &DESLAURIERS_DUBUC);
    lines.lift(EvenPlus, 2, 1, &[1, 1]);
}

/// Synthesis: LeGall (5,3).
#[inline(always)]
fn synth_legall_5_3<L: Liftable>(lines: &mut L)
    requires { CanRun L.can_lift L.lifted legall_5_3 lines.old }
    ensures { FoldsTo L.lifted lines.old legall_5_3 lines.new }
{
    lines.lift(EvenMinus, 2, 1, &[1, 1]);
    lines.lift(OddPlus, 1, 0, &[1, 1]);
}

/// Analysis: LeGall (5,3).
#[inline(always)]
fn analyse_legall_5_3<L: Liftable>(lines: &mut L)
    requires { CanRun L.can_lift L.lifted (taken_back legall_5_3) lines.old }
    ensures { FoldsTo L.lifted lines.old (taken_back legall_5_3) lines.new }
{
    lines.lift(OddMinus, 1, 0, &[1, 1]);
    lines.lift(EvenPlus, 2, 1, &[1, 1]);
}

/// Synthesis: Deslauriers-Dubuc (13,7).
#[inline(always)]
fn synth_deslauriers_dubuc_13_7<L: Liftable>(lines: &mut L)
    requires { CanRun L.can_lift L.lifted deslauriers_dubuc_13_7 lines.old }
    ensures { FoldsTo L.lifted lines.old deslauriers_dubuc_13_7 lines.new }
{
    lines.lift(EvenMinus, 5, 2, &DESLAURIERS_DUBUC);
    lines.lift(OddPlus, 4, 1, &DESLAURIERS_DUBUC);
}

/// Analysis: Deslauriers-Dubuc (13,7).
#[inline(always)]
fn analyse_deslauriers_dubuc_13_7<L: Liftable>(lines: &mut L)
    requires { CanRun L.can_lift L.lifted (taken_back deslauriers_dubuc_13_7) lines.old }
    ensures { FoldsTo L.lifted lines.old (taken_back deslauriers_dubuc_13_7) lines.new }
{
    lines.lift(OddMinus, 4, 1, &DESLAURIERS_DUBUC);
    lines.lift(EvenPlus, 5, 2, &DESLAURIERS_DUBUC);
}

/// Synthesis: Haar.
#[inline(always)]
fn synth_haar<L: Liftable>(lines: &mut L)
    requires { CanRun L.can_lift L.lifted haar lines.old }
    ensures { FoldsTo L.lifted lines.old haar lines.new }
{
    lines.lift(EvenMinus, 1, 0, &[1]);
    lines.lift(OddPlus, 0, 0, &[1]);
}

/// Analysis: Haar.
#[inline(always)]
fn analyse_haar<L: Liftable>(lines: &mut L)
    requires { CanRun L.can_lift L.lifted (taken_back haar) lines.old }
    ensures { FoldsTo L.lifted lines.old (taken_back haar) lines.new }
{
    lines.lift(OddMinus, 0, 0, &[1]);
    lines.lift(EvenPlus, 1, 0, &[1]);
}

/// Synthesis: Fidelity.
#[inline(always)]
fn synth_fidelity<L: Liftable>(lines: &mut L)
    requires { CanRun L.can_lift L.lifted fidelity lines.old }
    ensures { FoldsTo L.lifted lines.old fidelity lines.new }
{
    lines.lift(OddPlus, 8, 3, &FIDELITY_ODD);
    lines.lift(EvenMinus, 8, 4, &FIDELITY_EVEN);
}

/// Analysis: Fidelity.
#[inline(always)]
fn analyse_fidelity<L: Liftable>(lines: &mut L)
    requires { CanRun L.can_lift L.lifted (taken_back fidelity) lines.old }
    ensures { FoldsTo L.lifted lines.old (taken_back fidelity) lines.new }
{
    lines.lift(EvenPlus, 8, 4, &FIDELITY_EVEN);
    lines.lift(OddMinus, 8, 3, &FIDELITY_ODD);
}

/// Synthesis: Daubechies (9,7).
#[inline(always)]
fn synth_daubechies_9_7<L: Liftable>(lines: &mut L)
    requires { CanRun L.can_lift L.lifted daubechies_9_7 lines.old }
    ensures { FoldsTo L.lifted lines.old daubechies_9_7 lines.new }
{
    lines.lift(EvenMinus, 12, 1, &[1817, 1817]);
    lines.lift(OddMinus, 12, 0, &[3616, 3616]);
    lines.lift(EvenPlus, 12, 1, &[217, 217]);
    lines.lift(OddPlus, 12, 0, &[6497, 6497]);
}

/// Analysis: Daubechies (9,7).
#[inline(always)]
fn analyse_daubechies_9_7<L: Liftable>(lines: &mut L)
    requires { CanRun L.can_lift L.lifted (taken_back daubechies_9_7) lines.old }
    ensures { FoldsTo L.lifted lines.old (taken_back daubechies_9_7) lines.new }
{
    lines.lift(OddMinus, 12, 0, &[6497, 6497]);
    lines.lift(EvenMinus, 12, 1, &[217, 217]);
    lines.lift(OddPlus, 12, 0, &[3616, 3616]);
    lines.lift(EvenPlus, 12, 1, &[1817, 1817]);
}

/// The steps of a wavelet's synthesis.
#[inline(always)]
pub fn synthesise<L: Liftable>(wavelet: u8, lines: &mut L)
    requires wavelet { IsWavelet wavelet }
    requires runs { CanRun L.can_lift L.lifted (steps_of wavelet) lines.old }
    ensures { FoldsTo L.lifted lines.old (steps_of wavelet) lines.new }
{
    match wavelet {
        0 => synth_deslauriers_dubuc_9_7(lines),
        1 => synth_legall_5_3(lines),
        2 => synth_deslauriers_dubuc_13_7(lines),
        3 => synth_haar(lines),
        4 => synth_haar(lines),
        5 => synth_fidelity(lines),
        _ => synth_daubechies_9_7(lines),
    }
}

/// The steps of a wavelet's analysis: those of its synthesis backwards, each with the opposite sign.
#[inline(always)]
pub fn analyse<L: Liftable>(wavelet: u8, lines: &mut L)
    requires wavelet { IsWavelet wavelet }
    requires runs { CanRun L.can_lift L.lifted (taken_back (steps_of wavelet)) lines.old }
    ensures { FoldsTo L.lifted lines.old (taken_back (steps_of wavelet)) lines.new }
{
    match wavelet {
        0 => analyse_deslauriers_dubuc_9_7(lines),
        1 => analyse_legall_5_3(lines),
        2 => analyse_deslauriers_dubuc_13_7(lines),
        3 => analyse_haar(lines),
        4 => analyse_haar(lines),
        5 => analyse_fidelity(lines),
        _ => analyse_daubechies_9_7(lines),
    }
}

/// Whether a level of this wavelet ends by halving: its shift is 1.
pub fn halves(wavelet: u8) -> bool
    ensures { result ≡ has_shift wavelet }
{
    wavelet != 3 && wavelet != 5
}
