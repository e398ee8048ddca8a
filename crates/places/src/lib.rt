// The local problem of a component. Its vertices are units, each of one or more pieces. In rising order they are its places, and each place has
// the lists of its earlier neighbours, laid out once from the adjacency words of the pieces. The search goes along these lists and sees neither
// units nor words; what it finds is put down at the units.
#![tactic(auto)]

mod fixed;
mod lists;
mod local;
mod order;
mod pieces;
mod seats;

pub use fixed::local_fixed;
pub use lists::Lists;
pub use local::Local;
pub use order::{list_members, put_masks};
pub use pieces::{UnitPieces, pieces_of_units};
