//! What holds of the transforms of all lines and planes, as the contracts of functions that do nothing.
ghost use Rattle.dirac_lift.specs.ByLines.{AnalysisByLines, LinesFinish, SynthesisByLines};
ghost use Rattle.dirac_lift.specs.Windows.{WindowsHaveRows, WindowsHaveStrips};
ghost use Rattle.dirac_lift.specs.Zeros.{LevelsStayZeros, LinesStayZeros};

/// The synthesis of zeros has zeros alone, whatever the wavelet: each sum and each rounding of zeros is 0.
pub fn zeros_stay_zeros()
    ensures lines { LinesStayZeros }
    ensures levels { LevelsStayZeros }
{}

/// The order of lines does not matter: where each step follows the one before it at its distance, line by line, they
/// come to what they come to one after another over the whole, and a line that all have gone over is finished.
pub fn lines_come_in_turn()
    ensures synthesis { SynthesisByLines }
    ensures analysis { AnalysisByLines }
    ensures finished { LinesFinish }
{}

/// A level can be synthesised in strips: of a window of its pairs of rows, a few pairs wider than a strip where the
/// level goes on, the rows of the strip come out as they do of the whole level.
pub fn windows_of_rows_synthesise_alike()
    ensures rows { WindowsHaveRows }
    ensures strips { WindowsHaveStrips }
{}
