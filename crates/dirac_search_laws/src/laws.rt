//! What holds of every search, as the contracts of functions that do nothing.

ghost use Rattle.dirac_search_laws.specs.Fields.{AllMayBeTaken, FieldsKeepInside, InsidesMayBeTaken, VectorsCostLeast};
ghost use Rattle.dirac_search_laws.specs.Fields.{WorkersChangeNoField};
ghost use Rattle.dirac_search_laws.specs.Least.{FirstsAreLeast};

/// The first of least cost is one of all, costs no more than any of them, and less than all before it.
pub fn the_first_of_least_cost_is_least<T>()
    ensures { FirstsAreLeast T }
{}

/// After each stage of a search the vector of each block costs least among its candidates, the first at a tie.
pub fn vectors_cost_least()
    ensures { VectorsCostLeast }
{}

/// Which candidates may be taken, and that vectors keep inside where streams are to be shown alike.
pub fn vectors_keep_inside_where_asked()
    // All, where it isn't asked.
    ensures all { AllMayBeTaken }
    // Where it is, those that keep inside.
    ensures insides { InsidesMayBeTaken }
    // The vectors of the field then keep inside.
    ensures vectors_keep_inside { FieldsKeepInside }
{}

/// The number of workers changes no field.
pub fn workers_change_no_field()
    ensures { WorkersChangeNoField }
{}
