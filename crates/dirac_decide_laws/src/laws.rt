//! What holds of all that is decided, as the contracts of functions that do nothing.

ghost use Rattle.dirac_decide_laws.specs.Choices.{ModesAreLeast, SplitsAreLeast, UnitVectorsAreLeast};
ghost use Rattle.dirac_decide_laws.specs.Tables.{TablesAreLeast, TablesKeepInside};

/// The vector, the mode and the split that are taken cost least of all that are tried, the first at a tie.
pub fn choices_are_first_of_least_cost()
    // A unit's best vector, among the vectors of its blocks that may be taken.
    ensures vectors { UnitVectorsAreLeast }
    // Its mode, among the modes in their order.
    ensures modes { ModesAreLeast }
    // A superblock's split, among 0, 1 and 2.
    ensures splits { SplitsAreLeast }
{}

/// In a table that is decided each superblock has its split of least cost, and each block what its unit's mode of least
/// cost has.
pub fn decided_tables_cost_least()
    ensures { TablesAreLeast }
{}

/// In a table that is decided all vectors keep inside, where streams are to be shown alike.
pub fn decided_tables_keep_inside()
    ensures vectors_keep_inside { TablesKeepInside }
{}
