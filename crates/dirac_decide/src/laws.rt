//! What the definitions of the choice of blocks mean.

ghost use Rattle.std.specs.Prelude.{◌≤◌};
ghost use Rattle.dirac_decide.specs.Deciding.{Deciding as TheDeciding, IsDeciding};
ghost use Rattle.dirac_decide.specs.Laws.{IsLawfulDecision};

/// The table that is decided is one that a picture can have, and its DC values are samples.
pub fn decided_tables_are_lawful()
    ensures { (d : TheDeciding) → IsDeciding d → 1 ≤ d.across → 1 ≤ d.down → IsLawfulDecision d }
{}
