ghost use Rattle.dirac_lift.specs.Changes.{step_of};
ghost use Rattle.dirac_lift.specs.Lifting.{Step as TheStep};

use crate::step::Change;

/// Lines that lifting steps are run on, in place: one line, all columns of a plane, or lines whose even and odd places
/// stand in lists of their own.
pub trait Liftable {
    ghost can_lift: { TheStep → Self → Type 0 };

    ghost lifted: { Self → TheStep → Self → Type 0 };

    /// Runs one step. Its first tap reads `lead` pairs before the pair that it changes, each further tap one pair
    /// later: where the standard's taps begin at index D, `lead` is 1 - D for the even places and -D for the odd ones.
    fn lift(&mut self, change: Change, shift: u32, lead: usize, taps: &[i32])
        requires { can_lift (step_of change shift lead taps.now) self.old }
        ensures { lifted self.old (step_of change shift lead taps.now) self.new };
}
