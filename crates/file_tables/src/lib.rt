// Run records, and what tells against the three tables of a file.
#![tactic(auto)]

ghost use Rattle.std.specs.Prelude.{◌≡◌, ◌<◌, ◌^◌, length};
ghost use Rattle.file_tables.specs.Inner.{runs_counted};
ghost use Rattle.file_tables.specs.Runs.{run_owner, run_length, runs, reached, repeats, good_run, runs_judged, file_tables_of};

use rules::Refusal;
use rules::limits::{LONGEST, RUN_WIDTH};

// (C lends the runs flat, so they stay flat: this, `run_length` and `runs` are one line each, under the definitions' names.)
#[tactic(auto, unfolding(crate::specs::Runs::run_owner))]
pub fn run_owner(table: &[u16], k: usize) -> u16
    ensures { result ≡ run_owner table.now k }
{
    rules::records::field_at(table, RUN_WIDTH, k, 0)
}

#[tactic(auto, unfolding(crate::specs::Runs::run_length))]
pub fn run_length(table: &[u16], k: usize) -> u16
    ensures { result ≡ run_length table.now k }
{
    rules::records::field_at(table, RUN_WIDTH, k, 1)
}

pub fn runs(table: &[u16]) -> usize
    ensures { result ≡ runs table.now }
{
    table.len() / RUN_WIDTH
}

#[tactic(auto, unfolding(crate::specs::Runs::repeats))]
fn repeats(table: &[u16], k: usize) -> bool
    ensures { result ≡ repeats table.now k }
{
    k > 0 && run_owner(table, k) == run_owner(table, k - 1)
}

// Whether the run at k is good, where the lengths up to it add up to `total`.
#[tactic(auto, unfolding(crate::specs::Runs::good_run))]
fn good_run(table: &[u16], parts: usize, frame: usize, k: usize, total: usize) -> bool
    requires { (k < runs table.now) × (total ≡ reached table.now k) }
    ensures { result ≡ good_run parts frame table.now k }
{
    usize::from(run_owner(table, k)) <= parts
        && 1 <= run_length(table, k)
        && !repeats(table, k)
        && total <= frame
        && (k + 1 < runs(table) || frame <= total)
}

// 8. (No `tables::lowest`: the lengths' total runs along.)
#[tactic(auto, using(crate::proofs::Chain::total_more, crate::proofs::Chain::runs_8, crate::proofs::Chain::runs_good), unfolding(rules::specs::Walk::sum))]
fn judge_runs(table: &[u16], parts: usize, frame: usize) -> Result<(), Refusal>
    requires { length table.now < 2 ^ 32 }
    ensures { result ≡ runs_judged parts frame table.now }
{
    let mut total = 0;
    for k in 0..runs(table) {
        total += usize::from(run_length(table, k));
        if !good_run(table, parts, frame, k, total) {
            return Err(Refusal::Tick(k + 1));
        }
    }
    Ok(())
}

// Whether a table of so many numbers has as many runs as a file may have.
pub fn runs_counted(numbers: usize) -> bool
    ensures { result ≡ runs_counted numbers }
{
    tables::counted_in(1, LONGEST, RUN_WIDTH, numbers)
}

// What tells against an edition, a frame and three tables: 2, 3, 6, 7 and 8.
// (An edition stays a number: C and files give it so, and a wrong one is refused with 2.)
#[tactic(auto, using(tables::proofs::Chain::found_err, tables::proofs::Chain::found_ok), unfolding(crate::specs::Runs::file_tables_of))]
pub fn judge_file(
    edition: usize,
    frame: usize,
    parts: &[u16],
    tasks: &[u16],
    runs: &[u16],
) -> Result<(), Refusal>
    ensures { result ≡ file_tables_of edition frame parts.now tasks.now runs.now }
{
    if !rules::good_edition(edition) {
        return Err(Refusal::Edition);
    }
    if !runs_counted(runs.len()) {
        return Err(Refusal::Limits);
    }
    tables::judge_in_edition(rules::filed(edition), frame, parts, tasks)?;
    judge_runs(runs, rules::records::partitions(parts), frame)
}
