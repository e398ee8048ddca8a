// The static library that C programs link: the functions of include/hezgolt.h. Each calls the function of its name in `loader` and states
// its clauses again, since a crate is a library or a static library and not both.
#![tactic(auto)]

ghost use Rattle.std.specs.Prelude.{◌≡◌};
ghost use Rattle.rules.specs.Calls.{decompose_text, decompose_stream, buffer_after};
ghost use Rattle.rules.specs.Demands.{Demand3OfText, Demand3OfStream};
ghost use Rattle.rules.specs.Loader.{loader_number};

#[unsafe(no_mangle)]
pub extern "C" fn hezgolt_decompose(layer: &[u8], res: &mut [u8]) -> u64
    ensures value { result ≡ loader_number (decompose_text layer.now res.old) }
    ensures res_after { res.new ≡ buffer_after (decompose_text layer.now res.old) res.old }
    ensures demand3of_text { Demand3OfText layer.now }
{
    loader::hezgolt_decompose(layer, res)
}

#[unsafe(no_mangle)]
pub extern "C" fn hezgolt_decompose_stream(settings: &[u8], stream: &[u8], res: &mut [u8]) -> u64
    ensures value { result ≡ loader_number (decompose_stream settings.now stream.now res.old) }
    ensures res_after { res.new ≡ buffer_after (decompose_stream settings.now stream.now res.old) res.old }
    ensures demand3of_stream { Demand3OfStream settings.now stream.now }
{
    loader::hezgolt_decompose_stream(settings, stream, res)
}
