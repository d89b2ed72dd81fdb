//! What holds of all encodings, as the contracts of functions that do nothing.

ghost use Rattle.dirac_choice_laws.specs.Insides.{ChosenTablesKeepInside, CodedVectorsKeepInside};
ghost use Rattle.dirac_choice_laws.specs.Pictures.{InterPicturesCostLeast};
ghost use Rattle.dirac_choice_laws.specs.Workers.{WorkersChangeNoBlocks, WorkersChangeNothing};

use dirac_plan_laws::plans_can_be_coded;

/// Of the pictures that raw pictures become, each inter picture finds its first reference, and its block table costs
/// least: each split and mode of all, and each vector among its candidates, from stage to stage of the search.
pub fn inter_pictures_cost_least()
    ensures { InterPicturesCostLeast }
{
    plans_can_be_coded();
}

/// Where streams are to be shown alike, all vectors of the block table of an inter picture keep inside.
pub fn chosen_tables_keep_inside()
    ensures vectors_keep_inside { ChosenTablesKeepInside }
{}

/// Of the pictures that raw pictures become where streams are to be shown alike, all vectors keep inside.
pub fn coded_vectors_keep_inside()
    ensures { CodedVectorsKeepInside }
{
    plans_can_be_coded();
}

/// What is written, delivered and answered is the same for each number of workers.
pub fn workers_change_nothing()
    // The block table that is chosen for a picture.
    ensures blocks { WorkersChangeNoBlocks }
    // The encoding of raw pictures, with the settings' index and by a budget.
    ensures encoding { WorkersChangeNothing }
{}
