// The result text (RULES 10) written into a lent buffer. The loader's calls stand on this crate, and `demands` on how long the text is.
#![tactic(auto)]

ghost use Rattle.std.specs.Prelude.{◌≡◌, ◌≤◌, length};
ghost use Rattle.rules.specs.Answers.{run_of};
ghost use Rattle.rules.specs.Calls.{buffer_after};
ghost use Rattle.rules.specs.Questions.{done};
ghost use Rattle.rules.specs.ResultText.{verdict_line, result_text};

use line_writer::Writer;
use rules::{Decomposition, Verdict};

// The verdict's line. Its `Display` would answer a `Result` here that nothing shows to be `Ok`.
fn verdict_line(verdict: Verdict) -> &'static [u8]
    ensures { result.now ≡ verdict_line verdict }
{
    match verdict {
        Verdict::Best => b"verdict=best\n",
        Verdict::Open => b"verdict=open\n",
    }
}

// Writes the result text at the buffer's front, which has room for it, and answers its length.
pub fn write_result(buffer: &mut [u8], res: Decomposition, masks: &[u8]) -> usize
    requires { length (result_text (run_of res masks.now)) ≤ length buffer.old }
    ensures length { result ≡ length (result_text (run_of res masks.now)) }
    ensures written { buffer.new ≡ buffer_after (done (result_text (run_of res masks.now))) buffer.old }
{
    let mut out = Writer::new(buffer);
    out.bytes(verdict_line(res.verdict));
    out.number_lines(&[
        (b"conflicts=", res.score.conflicts),
        (b"stitches=", res.score.stitches),
        (b"cost=", res.score.cost),
        (b"steps=", res.steps),
    ]);
    for mask in masks {
        out.number_line(b"mask=", u32::from(*mask));
    }
    out.len()
}
