//! Data units: how the bytes of a stream are cut into units, the first fault of the cutting, and units written.
#![tactic(auto)]

mod info;
mod law;
mod take;
mod unit;
mod unit_place;
mod units;
mod write;

pub use info::{PARSE_INFO_LENGTH, ParseInfo, UnitKind, fields_are_read, kind_of, read_info};
pub use law::{bytes_have_one_cut, ends_refuse_none};
pub use unit::{Payload, StreamEnd, Unit, UnitStep};
pub use unit_place::UnitPlace;
pub use units::Units;
pub use write::{infos_are_read_as_written, put_end, put_unit, unit_length, write_info};
