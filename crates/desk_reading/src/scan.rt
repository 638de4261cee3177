// One step of the reading pass: a listed job is checked and looked at by the search, a place past the count checked.
ghost use Rattle.std.specs.Prelude.{◌≡◌, ◌<◌};
ghost use Rattle.desk_reading.specs.Reading.{listed_step, scan_step, right_end};

use crate::checking::{Checking, behind_it, follows_on, last_ok};
use crate::searching::{Searching, search_step};
use desk::Job;
use desk_records::records::no_job;

// Listed jobs still to come, the check, and the search, which is of no account at an opening.
// (`opening` goes beside the state: with an Option of the search in it, moving 63 jobs took 13 in a hundred more instructions.)
#[derive(Clone, Copy)]
pub struct Scan {
    pub left: u32,
    pub checking: Checking,
    pub searching: Searching,
}

// One more listed job.
fn listed_step(opening: bool, s: Scan, j: Job) -> Option<Scan>
    requires { 0 < s.left }
    ensures { result ≡ listed_step opening s j }
{
    if follows_on(opening, s.checking, j) {
        return Some(Scan {
            left: s.left - 1,
            checking: behind_it(j),
            searching: search_step(s.searching, j),
        });
    }
    None
}

// One more place; none where a rule is broken.
pub fn scan_step(opening: bool, s: Scan, j: Job) -> Option<Scan>
    ensures { result ≡ scan_step opening s j }
{
    if 0 < s.left {
        return listed_step(opening, s, j);
    }
    if j == no_job() {
        return Some(s);
    }
    None
}

// Whether the table keeps the rules, after its last place.
pub fn right_end(opening: bool, s: Scan) -> bool
    ensures { result ≡ right_end opening s }
{
    last_ok(opening, s.checking)
}
