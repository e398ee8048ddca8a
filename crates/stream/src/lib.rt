// A settings text and a GDSII stream read into a layer (RULES 16). The loader's call on a stream stands on this crate.
#![tactic(auto)]

mod elements;
mod read;
mod settings;

pub use read::read_stream;
