// The contents: the first 16 bytes, and the refusals 1 to 5.
ghost use Rattle.std.specs.Prelude.{◌≡◌, ◌<◌, ◌^◌};
ghost use Rattle.file_read.specs.Reader.{head_number, contents_of};
ghost use Rattle.file_read.specs.Inner.{counts_right, offsets_right};

use crate::Contents;
use rules::Refusal;
use rules::limits::{HEAD_BYTES, NUMBER_BYTES, PART_WIDTH, RUN_WIDTH, TASK_WIDTH};

fn head_number(file: &[u8], k: usize) -> usize
    ensures { (result ≡ head_number file.now k) × (result < 2 ^ 16) }
{
    usize::from(file_codec::number(file, k))
}

// Limits kept, by the counts.
fn counts_right(c: Contents) -> bool
    requires { (c.partitions < 2 ^ 16) × (c.tasks < 2 ^ 16) × (c.runs < 2 ^ 16) }
    ensures { result ≡ counts_right c.frame c.partitions c.tasks c.runs }
{
    tables::within_limits(c.frame, PART_WIDTH * c.partitions, TASK_WIDTH * c.tasks)
        && file_tables::runs_counted(RUN_WIDTH * c.runs)
}

// Bodies without gaps, by the offsets.
fn offsets_right(c: Contents, parts_at: usize, tasks_at: usize, runs_at: usize) -> bool
    requires { (c.partitions < 2 ^ 16) × (c.tasks < 2 ^ 16) }
    ensures { result ≡ offsets_right parts_at tasks_at runs_at c.partitions c.tasks }
{
    let tasks = HEAD_BYTES + NUMBER_BYTES * (PART_WIDTH * c.partitions);
    let runs = tasks + NUMBER_BYTES * (TASK_WIDTH * c.tasks);
    parts_at == HEAD_BYTES && tasks_at == tasks && runs_at == runs
}

// 1 to 5.
#[tactic(auto, unfolding(crate::specs::Reader::contents_of, crate::specs::Reader::counts_of))]
pub fn contents(file: &[u8]) -> Result<Contents, Refusal>
    ensures { result ≡ contents_of file.now }
{
    if file.len() < HEAD_BYTES {
        return Err(Refusal::Short);
    }
    let edition = head_number(file, 0);
    if !rules::good_edition(edition) {
        return Err(Refusal::Edition);
    }
    let c = Contents {
        edition,
        frame: head_number(file, 1),
        partitions: head_number(file, 3),
        tasks: head_number(file, 5),
        runs: head_number(file, 7),
    };
    if !counts_right(c) {
        return Err(Refusal::Limits);
    }
    if !offsets_right(
        c,
        head_number(file, 2),
        head_number(file, 4),
        head_number(file, 6),
    ) {
        return Err(Refusal::Offset);
    }
    let numbers = PART_WIDTH * c.partitions + TASK_WIDTH * c.tasks + RUN_WIDTH * c.runs;
    if file.len() != HEAD_BYTES + NUMBER_BYTES * numbers {
        return Err(Refusal::Length);
    }
    Ok(c)
}
