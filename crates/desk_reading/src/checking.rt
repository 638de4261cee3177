// The table check at a listed job: it is held against the job before.
ghost use Rattle.std.specs.Prelude.{◌≡◌, ◌||◌, ◌≤◌, min, eqb};
ghost use Rattle.desk.specs.Table.{deadline, ends};
ghost use Rattle.desk_reading.specs.Reading.{follows, behind, last_ok};

use desk::Job;
use desk_records::records::{end_of, job_ok};

// Of the job before: its end, its own d - a - C, and its x; zeros in front of all.
#[derive(Clone, Copy)]
pub struct Checking {
    pub end: u64,
    pub own: u64,
    pub flex: u32,
}

// Whether the x of the job before is the rule's, with so much room behind that job. An opening looks at no x.
// (`opening` comes beside the state, here and below, as `Scan` says.)
fn right_x(opening: bool, s: Checking, room: u64) -> bool
    ensures { result ≡ (eqb s.flex (min s.own room) || opening) }
{
    opening || u64::from(s.flex) == s.own.min(room)
}

// Whether j may stand behind the job before.
pub fn follows_on(opening: bool, s: Checking, j: Job) -> bool
    ensures { result ≡ follows opening s j }
{
    let start = u64::from(j.start);
    job_ok(j) && s.end <= start && right_x(opening, s, start - s.end + u64::from(j.flex))
}

// j, which keeps the rules, as the job before.
pub fn behind_it(j: Job) -> Checking
    requires { ends j ≤ deadline j }
    ensures { result ≡ behind j }
{
    let end = end_of(j);
    Checking {
        end,
        own: u64::from(j.deadline) - end,
        flex: j.flex,
    }
}

// Whether the last job's x is the rule's.
pub fn last_ok(opening: bool, s: Checking) -> bool
    ensures { result ≡ last_ok opening s }
{
    opening || u64::from(s.flex) == s.own
}
