// The functions for C. The static library `loader_c` has them under these names, and C programs link that.
ghost use Rattle.std.specs.Prelude.{◌≡◌};
ghost use Rattle.rules.specs.Answers.{answer_of};
ghost use Rattle.rules.specs.Calls.{decompose_text, decompose_stream, buffer_after};
ghost use Rattle.rules.specs.Demands.{Demand3OfText, Demand3OfStream};
ghost use Rattle.rules.specs.Loader.{loader_number};
ghost use Rattle.loader.specs.Numbers.{as_number};

use crate::call::{decompose_stream, decompose_text};
use rules::Refused;

// The length of the result text, or a number that states the refusal: a caller in C has no enums of ours to take apart.
fn number_of(answer: Result<usize, Refused>) -> u64
    ensures { result ≡ as_number (answer_of answer) }
{
    match answer {
        Ok(length) => length as u64,
        Err(Refused { refusal, place }) => {
            10_000 * u64::from(refusal.number()) + u64::from(place.number())
        }
    }
}

pub fn hezgolt_decompose(layer: &[u8], res: &mut [u8]) -> u64
    ensures value { result ≡ loader_number (decompose_text layer.now res.old) }
    ensures res_after { res.new ≡ buffer_after (decompose_text layer.now res.old) res.old }
    ensures demand3of_text { Demand3OfText layer.now }
{
    number_of(decompose_text(layer, res))
}

pub fn hezgolt_decompose_stream(settings: &[u8], stream: &[u8], res: &mut [u8]) -> u64
    ensures value { result ≡ loader_number (decompose_stream settings.now stream.now res.old) }
    ensures res_after { res.new ≡ buffer_after (decompose_stream settings.now stream.now res.old) res.old }
    ensures demand3of_stream { Demand3OfStream settings.now stream.now }
{
    number_of(decompose_stream(settings, stream, res))
}
