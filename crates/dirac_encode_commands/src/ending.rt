ghost use Rattle.std.specs.Prelude.{◌≡◌};
ghost use Rattle.dirac_encode_commands.specs.Encoding.{ended_of};

use dirac_command_line::Ended;
use dirac_encode::Encoded;

/// The answer of a run whose encoding ends so.
pub fn ended(encoded: Encoded) -> Ended
    ensures { result ≡ ended_of encoded }
{
    match encoded {
        Encoded::Done => Ended::Done,
        Encoded::PartialPicture(bytes) => Ended::PartialPicture(bytes),
        Encoded::UnitTooLong(number) => Ended::UnitTooLong(number),
        Encoded::TooManyPictures => Ended::TooManyPictures,
        Encoded::ReadFault => Ended::ReadFault,
        Encoded::WriteFault => Ended::WriteFault,
        Encoded::SideFault => Ended::SideFault,
        Encoded::NoMemory => Ended::NoMemory,
    }
}
