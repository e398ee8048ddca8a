// The calls of the mask writer's job loader (RULES 12 and 16): from the bytes of a layer text, or of a settings text and a stream, to the
// result text of the run, in a lent buffer. `hezgolt_decompose` and `hezgolt_decompose_stream` are the functions that C programs call,
// by the static library `loader_c`, and include/hezgolt.h tells them how; the program `layer` stands on `decompose_text` and
// `decompose_stream`.
#![tactic(auto)]

mod call;
mod export;

pub use call::{decompose_stream, decompose_text};
pub use export::{hezgolt_decompose, hezgolt_decompose_stream};
