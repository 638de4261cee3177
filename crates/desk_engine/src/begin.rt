// What the reading pass begins with; none where the sizes or the clock break the rules.
ghost use Rattle.std.specs.Prelude.{◌≡◌, ◌&&◌, leb};
ghost use Rattle.rules.specs.Limits.{latest};
ghost use Rattle.desk_engine.specs.Beginning.{opens, sizes_ok, scan_from, searching_none, searching_from, scan_for};

use desk::{Ask, Asked, Desk};
use desk_reading::best::no_best;
use desk_reading::checking::Checking;
use desk_reading::scan::Scan;
use desk_reading::searching::{Searching, Stage};
use desk_records::numbers::{ALL_PLACES, FAR};
use rules::limits::{LATEST, PLACES};

// Whether a call opens.
pub fn opens(ask: Ask) -> bool
    ensures { result ≡ opens ask }
{
    matches!(ask, Ask::Open)
}

// As many places as there must be, and a count of at most so many.
pub fn sizes_ok(k: Desk, n: usize) -> bool
    ensures { result ≡ sizes_ok k n }
{
    n == PLACES && k.count <= ALL_PLACES
}

// The same, and a request's clock.
pub fn clock_ok(k: Desk, n: usize) -> bool
    ensures { result ≡ (leb k.clock latest && sizes_ok k n) }
{
    k.clock <= LATEST && sizes_ok(k, n)
}

// In front of all jobs.
fn scan_from(k: Desk, searching: Searching) -> Scan
    ensures { result ≡ scan_from k searching }
{
    Scan {
        left: k.count,
        checking: Checking {
            end: 0,
            own: 0,
            flex: 0,
        },
        searching,
    }
}

fn searching_from(q: Asked) -> Searching
    ensures { result ≡ searching_from q.time q.budget q.deadline }
{
    Searching {
        time: q.time,
        budget: q.budget,
        deadline: q.deadline,
        gone: 0,
        busy: false,
        place: 0,
        start: q.time,
        stage: Stage::Looking,
        best: no_best(),
    }
}

// At an opening: the search has ended before it began.
fn searching_none() -> Searching
    ensures { result ≡ searching_none }
{
    Searching {
        stage: Stage::Late(FAR),
        ..searching_from(Asked {
            time: 0,
            budget: 0,
            deadline: 0,
        })
    }
}

// What the pass begins with.
// (A match, no closure: which of the two is asked for comes from C.)
pub fn scan_for(k: Desk, n: usize, ask: Ask) -> Option<Scan>
    ensures { result ≡ scan_for k n ask }
{
    match ask {
        Ask::Open => {
            if sizes_ok(k, n) {
                return Some(scan_from(k, searching_none()));
            }
            None
        }
        Ask::Request(q) => {
            if clock_ok(k, n) {
                return Some(scan_from(k, searching_from(q)));
            }
            None
        }
    }
}
