// The writer: an edition, a frame and three tables as the bytes of a plan file.
#![tactic(auto)]

ghost use Rattle.std.specs.Prelude.{◌≡◌};
ghost use Rattle.file_write.specs.Writer.{write_of, Writes};

use put::put_file;
use rules::Refusal;
use rules::limits::{HEAD_BYTES, NUMBER_BYTES};

mod put; // put.rt: the contents and the bodies, put into the output

// The answer, for an output of so many bytes.
// (An edition stays a number, here and in `write`: C gives it so, a file says it so, and a wrong one is refused with 2.)
#[tactic(auto, using(crate::proofs::Writer::good_small, tables::proofs::Chain::found_err, tables::proofs::Chain::found_ok), unfolding(crate::specs::Writer::write_of))]
fn write_answer(
    edition: usize,
    frame: usize,
    parts: &[u16],
    tasks: &[u16],
    runs: &[u16],
    room: usize,
) -> Result<usize, Refusal>
    ensures { result ≡ write_of edition frame parts.now tasks.now runs.now room }
{
    file_tables::judge_file(edition, frame, parts, tasks, runs)?;
    let size = HEAD_BYTES + NUMBER_BYTES * (parts.len() + tasks.len() + runs.len());
    if room < size {
        return Err(Refusal::Output);
    }
    Ok(size)
}

#[tactic(auto, using(crate::proofs::Writer::ready, crate::proofs::Writer::left_none, crate::proofs::Writer::left_all))]
pub fn write(
    edition: usize,
    frame: usize,
    parts: &[u16],
    tasks: &[u16],
    runs: &[u16],
    out: &mut [u8],
) -> Result<usize, Refusal>
    ensures { Writes edition frame parts.now tasks.now runs.now
        out.old out.new result }
{
    let size = write_answer(edition, frame, parts, tasks, runs, out.len())?;
    put_file(edition, frame, parts, tasks, runs, out);
    Ok(size)
}
