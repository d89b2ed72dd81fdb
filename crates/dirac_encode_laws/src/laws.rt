//! What holds of every stream, as the contract of a function that does nothing.

ghost use Rattle.dirac_encode_laws.specs.Alike.{PicturesAreShownAlike};
ghost use Rattle.dirac_encode_laws.specs.Stream.{HeadersAreRead, StreamsAreCut};
ghost use Rattle.dirac_encode_laws.specs.Fit.{BudgetsAreKept};
ghost use Rattle.dirac_encode_laws.specs.Laws.{JobsAreKept, JobsAreRead, JobsAreReadUnder, JobsAreSmall};
ghost use Rattle.dirac_encode_laws.specs.Laws.{RawPicturesAreRecovered, RawPicturesAreRecoveredUnder, SourcesAreKept};
ghost use Rattle.dirac_encode_laws.specs.Laws.{SourcesAreKeptUnder, SourcesShowReconstructions};
ghost use Rattle.dirac_encode_laws.specs.Laws.{SourcesShowReconstructionsUnder, StreamsShowTheirPictures};
ghost use Rattle.dirac_encode_laws.specs.Tables.{TablesAreChosen};

use dirac_motion::chosen_tables_fit;
use dirac_plan_laws::plans_can_be_coded;
use dirac_units::infos_are_read_as_written;

/// The stream of coded pictures has no fault, and shows their reconstructions in order.
pub fn streams_show_their_pictures()
    // The sequence header of accepted settings is read as their sequence.
    ensures headers { HeadersAreRead }
    // A stream is cut into just its units: a sequence header before each intra picture, the pictures and the end unit.
    ensures cut { StreamsAreCut }
    // A stream whose payloads are read as they were coded, the references found, shows its pictures in the order of
    // delivery.
    ensures shown { StreamsShowTheirPictures }
    // The block tables that are chosen fit their pictures.
    ensures tables { TablesAreChosen }
    // A planned source's payload is read again as it was coded.
    ensures sources { JobsAreRead }
    // Its coded coefficients stay below 2^38.
    ensures coefficients { JobsAreSmall }
    // At index 0 it is shown again.
    ensures sources_shown_again { JobsAreKept }
    // The stream of fewer than 2^31 sources, whose units have lengths that their offsets can hold, has no fault and
    // shows their reconstructions in order.
    ensures sources_shown { SourcesShowReconstructions }
    // At index 0 these are the sources.
    ensures sources_kept { SourcesAreKept }
    // Where no unit is longer than the settings allow, the stream of raw pictures shows their reconstructions, at
    // index 0 the pictures themselves.
    ensures recovered { RawPicturesAreRecovered }

    // The same four under any rule that gives each picture a quantiser index, by the settings, the pictures listed by
    // then, and the planned picture with its source: a planned source is read as it was coded,
    ensures sources_under { JobsAreReadUnder }
    // the stream of sources has no fault and shows their reconstructions,
    ensures shown_under { SourcesShowReconstructionsUnder }
    // where each source's index is 0 these are the sources,
    ensures kept_under { SourcesAreKeptUnder }
    // and the stream of raw pictures shows their reconstructions.
    ensures recovered_under { RawPicturesAreRecoveredUnder }
    // With the least index whose unit fits a budget, each unit fits it, or no index from the settings' on does.
    ensures budgets { BudgetsAreKept }
    // Where the settings ask for streams that are shown alike, each inter picture has a residual, under every rule.
    ensures alike { PicturesAreShownAlike }
{
    infos_are_read_as_written();
    plans_can_be_coded();
    chosen_tables_fit();
}
