// The layer text written into a lent buffer. The public call that writes a layer stands on this crate.
#![tactic(auto)]

mod layer;

pub use layer::write_layer;
