// A layer text, or a settings text and a stream, decomposed: the questions in their order, then the run, then its text.
ghost use Rattle.std.specs.Prelude.{◌≡◌, ◌≤◌, length, Ok};
ghost use Rattle.rules.specs.Answers.{answer_of, length_of};
ghost use Rattle.rules.specs.Calls.{decompose_read, decompose_text, decompose_stream, buffer_after};
ghost use Rattle.rules.specs.Decomposition.{run};
ghost use Rattle.rules.specs.Demands.{Demand3OfText, Demand3OfStream};
ghost use Rattle.loader.specs.Read.{outcome_of, Judged};
ghost use Rattle.loader.specs.Written.{Wrote};

use rules::{LayerRead, Piece, Place, Refusal, Refused, ValidLayer};

// Runs a layer, and writes the result text at the buffer's front.
#[tactic(auto, using(rules::proofs::Validity::layer_facts))]
fn write_run(layer: &ValidLayer, buffer: &mut [u8]) -> usize
    requires { 4_096 ≤ length buffer.old }
    ensures { Wrote (run layer.now.settings layer.now.pieces.now) buffer.old result buffer.new }
{
    let mut all = [0u8; Piece::COUNT_GREATEST];
    let masks = &mut all[..layer.pieces.len()];
    let result = decomposer::decompose(layer, masks);
    result_writer::write_result(buffer, result, masks)
}

// What was read, which both readers promise by one law to be judged, decomposed: the result text, or the refusal and the buffer as it was. Reading leaves nothing behind, so the buffer's
// question, which is the first of all, can be asked here.
fn write_read(read: LayerRead, buffer: &mut [u8]) -> Result<usize, Refused>
    requires { read.answer ≡ Ok tt → Judged read }
    ensures result_value { answer_of result ≡ length_of (decompose_read (outcome_of read) buffer.old) }
    ensures buffer_after { buffer.new ≡ buffer_after (decompose_read (outcome_of read) buffer.old) buffer.old }
{
    if buffer.len() < 4_096 {
        return Err(Refusal::Buffer.at(Place::Nothing));
    }
    read.answer?;
    let layer = ValidLayer {
        settings: read.settings,
        pieces: read.lent(),
    };
    Ok(write_run(&layer, buffer))
}

// The result text of the layer that a text states, or the first of the refusals 1 to 6, 13 and 14 and the buffer as it
// was.
pub fn decompose_text(text: &[u8], buffer: &mut [u8]) -> Result<usize, Refused>
    ensures result_value { answer_of result ≡ length_of (decompose_text text.now buffer.old) }
    ensures buffer_after { buffer.new ≡ buffer_after (decompose_text text.now buffer.old) buffer.old }
    ensures demand3of_text { Demand3OfText text.now }
{
    write_read(text::read_layer(text), buffer)
}

// The same of the layer that a settings text and a stream state, which fixes no masks: the refusals are 1 to 6 and 9 to 11.
pub fn decompose_stream(settings: &[u8], stream: &[u8], buffer: &mut [u8]) -> Result<usize, Refused>
    ensures result_value { answer_of result ≡ length_of (decompose_stream settings.now stream.now buffer.old) }
    ensures buffer_after { buffer.new ≡ buffer_after (decompose_stream settings.now stream.now buffer.old) buffer.old }
    ensures demand3of_stream { Demand3OfStream settings.now stream.now }
{
    write_read(stream::read_stream(settings, stream), buffer)
}
