// The rules of one job record: its end, its flexibility, its limits, its room, its move.
ghost use Rattle.std.specs.Prelude.{◌≡◌, ◌+◌, ◌-◌, min, leb};
ghost use Rattle.desk.specs.Table.{start, budget, deadline, flex, ends, none, job_ok};
ghost use Rattle.desk.specs.Places.{room, moved};

use desk::Job;
use rules::limits::LATEST;

// A place that holds nothing.
// (No Option: C lends the table, and there such a place is all zeros.)
pub fn no_job() -> Job
    ensures { result ≡ none }
{
    Job {
        start: 0,
        budget: 0,
        deadline: 0,
        flex: 0,
    }
}

// (Apart from `last_start`: two sums of a job's own fields, no plainer as one.)
pub fn end_of(j: Job) -> u64
    ensures { result ≡ ends j }
{
    u64::from(j.start) + u64::from(j.budget)
}

// Whether j ends by the time t.
pub fn ends_by(j: Job, t: u32) -> bool
    ensures { result ≡ leb (ends j) t }
{
    end_of(j) <= u64::from(t)
}

// When j starts at the latest.
pub fn last_start(j: Job) -> u64
    ensures { result ≡ flex j + start j }
{
    u64::from(j.flex) + u64::from(j.start)
}

// The flexibility of j before a job that starts at `behind` at the latest.
// (0, no Option, as in the definition. `as`: the number fits, and a TryFrom would bring a refusal that can't come.)
pub fn x_before(j: Job, behind: u64) -> u32
    ensures { result ≡ min (deadline j - start j - budget j) (behind - start j - budget j) }
{
    let due = u64::from(j.deadline).min(behind);
    due.saturating_sub(end_of(j)) as u32
}

pub fn job_ok(j: Job) -> bool
    ensures { result ≡ job_ok j }
{
    j.budget != 0 && end_of(j) <= u64::from(j.deadline) && j.deadline <= LATEST
}

// The room at j for a deadline d, from s on.
pub fn room_at(s: u32, d: u32, j: Job) -> u32
    ensures { result ≡ room s d j }
{
    j.start.saturating_sub(s) + d.saturating_sub(j.start).min(j.flex)
}

// The job moved as far as e, the end of the job before, forces it.
pub fn moved_to(e: u32, j: Job) -> Job
    ensures { result ≡ moved e j }
{
    let a = e.max(j.start);
    Job {
        start: a,
        flex: j.flex.saturating_sub(a - j.start),
        ..j
    }
}
