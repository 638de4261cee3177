// What tells against terms and tables: the limits, good records, and the one chain of the refusals 2, 3, 21, 6 and 7; and
// against a plan's ticks: 8.
#![tactic(auto)]

ghost use Rattle.std.specs.Prelude.{◌≡◌, ℕ, [], ◌<◌};
ghost use Rattle.rules.specs.Terms.{good_granule};
ghost use Rattle.rules.specs.Table.{good_share, good_times, good_part, good_task, good_tick};
ghost use Rattle.tables.specs.Inner.{Lowest};
ghost use Rattle.tables.specs.Tables.{counted_in, within_limits, in_edition, tables_of, ticks_judged};

use rules::limits::{
    FINEST_SHARE, LONGEST, LONGEST_PERIOD, MOST_GRANULE, MOST_PARTITIONS, MOST_TASKS, PART_WIDTH,
    TASK_WIDTH,
};
use rules::records::{
    budget, cycle, deadline, den, entry, num, partition, partitions, period, tasks,
};
use rules::{Refusal, Terms};

#[tactic(auto, unfolding(crate::specs::Tables::counted_in))]
pub fn counted_in(low: usize, high: usize, width: usize, numbers: usize) -> bool
    requires { 0 < width }
    ensures { result ≡ counted_in low high width numbers }
{
    numbers % width == 0 && low <= numbers / width && numbers / width <= high
}

// Whether a frame and tables of so many numbers keep the limits.
#[tactic(auto, unfolding(crate::specs::Tables::within_limits))]
pub fn within_limits(frame: usize, parts: usize, tasks: usize) -> bool
    ensures { result ≡ within_limits frame parts tasks }
{
    counted_in(1, LONGEST, 1, frame)
        && counted_in(1, MOST_PARTITIONS, PART_WIDTH, parts)
        && counted_in(0, MOST_TASKS, TASK_WIDTH, tasks)
}

// (Apart from rules' `good_edition`, as said there.)
#[tactic(auto, unfolding(rules::specs::Terms::good_granule))]
pub fn good_granule(granule: usize) -> bool
    ensures { result ≡ good_granule granule }
{
    if granule < 1 {
        return false;
    }
    granule <= MOST_GRANULE
}

#[tactic(auto, unfolding(rules::specs::Table::good_share))]
pub fn good_share(limit: usize, m: u16, num: u16, den: u16) -> bool
    ensures { result ≡ good_share limit m num den }
{
    1 <= m && usize::from(m) <= limit && 1 <= num && num <= den && den <= FINEST_SHARE
}

#[tactic(auto, unfolding(rules::specs::Table::good_times))]
pub fn good_times(parts: usize, p: u16, c: u16, d: u16, t: u16) -> bool
    ensures { result ≡ good_times parts p c d t }
{
    1 <= p && usize::from(p) <= parts && 1 <= c && c <= d && d <= t && t <= LONGEST_PERIOD
}

fn good_part(parts: &[u16], limit: usize, k: usize) -> bool
    ensures { result ≡ good_part limit parts.now k }
{
    good_share(limit, cycle(parts, k), num(parts, k), den(parts, k))
}

fn good_task(table: &[u16], parts: usize, j: usize) -> bool
    ensures { result ≡ good_task parts table.now j }
{
    good_times(
        parts,
        partition(table, j),
        budget(table, j),
        deadline(table, j),
        period(table, j),
    )
}

fn good_tick(plan: &[u16], parts: usize, t: usize) -> bool
    ensures { result ≡ good_tick parts plan.now t }
{
    usize::from(entry(plan, t)) <= parts
}

// Whether each of n records is good, or the place of the lowest that isn't, from 1.
#[tactic(auto, unfolding(crate::specs::Inner::Lowest))]
pub fn lowest<G: Fn(usize) -> bool>(n: usize, good: G) -> Result<(), usize>
    requires { (k : ℕ) → k < n → G.pre good k }
    ensures { Lowest (G.post good) n result }
{
    for k in 0..n {
        if !good(k) {
            return Err(k + 1);
        }
    }
    Ok(())
}

// What tells against the granule and the tables, for cycles no longer than the frame: 3, 21, 6 and 7.
pub fn judge_in_edition(
    terms: Terms,
    frame: usize,
    parts: &[u16],
    table: &[u16],
) -> Result<(), Refusal>
    ensures { result ≡ in_edition terms frame parts.now table.now }
{
    if !within_limits(frame, parts.len(), table.len()) {
        return Err(Refusal::Limits);
    }
    if !good_granule(terms.granule) {
        return Err(Refusal::Granule);
    }
    lowest(partitions(parts), |k| good_part(parts, frame, k)).map_err(Refusal::Partition)?;
    lowest(tasks(table), |j| good_task(table, partitions(parts), j)).map_err(Refusal::Task)
}

// The same with the edition's 2 first of all.
pub fn judge_tables(terms: Terms, frame: usize, parts: &[u16], table: &[u16]) -> Result<(), Refusal>
    ensures { result ≡ tables_of terms frame parts.now table.now }
{
    if !rules::good_edition(terms.edition) {
        return Err(Refusal::Edition);
    }
    judge_in_edition(terms, frame, parts, table)
}

// The same where no tasks are asked about.
pub fn judge_partitions(terms: Terms, frame: usize, parts: &[u16]) -> Result<(), Refusal>
    ensures { result ≡ tables_of terms frame parts.now [] }
{
    judge_tables(terms, frame, parts, &parts[..0])
}

// What tells against a plan's ticks: 8.
pub fn judge_ticks(plan: &[u16], parts: &[u16]) -> Result<(), Refusal>
    ensures { result ≡ ticks_judged plan.now parts.now }
{
    lowest(plan.len(), |t| good_tick(plan, partitions(parts), t)).map_err(Refusal::Tick)
}
