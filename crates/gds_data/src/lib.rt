// The data of GDSII records: the unit, rectangle and shape number that they state (RULES 16). The crate `gds_records`
// asks of a record's data what is due, and `gds_elements` takes the pieces from them. Data of one length are slices here, as a record's data are: an
// array would be a second view of them at each caller, whose failure had to be proved away.
#![tactic(auto)]

mod rectangle;
mod shape;
mod units;

pub use rectangle::{is_rectangle, piece_from};
pub use shape::{is_shape, shape_number};
pub use units::is_nanometre;
