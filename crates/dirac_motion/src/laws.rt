//! What the definition of the chosen block table promises.

ghost use Rattle.dirac_motion.specs.Chosen.{ChosenTablesFit};

/// The table that is chosen for an inter picture covers it, has as many references as its code, is one that a picture
/// can have, and its DC values are samples.
pub fn chosen_tables_fit()
    ensures { ChosenTablesFit }
{}
