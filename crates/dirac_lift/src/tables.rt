//! The taps of the longer lifting steps (wavelet filters, Dirac specification). They are constants, as the short
//! ones are literals where they are used: taps that the compiler can't see cost three times as much.

/// Of both Deslauriers-Dubuc wavelets.
pub const DESLAURIERS_DUBUC: [i32; 4] = [-1, 9, 9, -1];

/// Of the Fidelity wavelet, for odd places.
pub const FIDELITY_ODD: [i32; 8] = [-2, 10, -25, 81, 81, -25, 10, -2];

/// Of the Fidelity wavelet, for even places.
pub const FIDELITY_EVEN: [i32; 8] = [-8, 21, -46, 161, 161, -46, 21, -8];
