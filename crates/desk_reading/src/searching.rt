// One step of the search: the place, at one more job; and its end.
ghost use Rattle.std.specs.Prelude.{◌≡◌, ltb, eqb};
ghost use Rattle.rules.specs.Walk.{pick};
ghost use Rattle.desk.specs.Table.{start};
ghost use Rattle.desk_reading.specs.Reading.{search_dropped, search_closed, search_past, search_look, search_step};
ghost use Rattle.desk_reading.specs.Reading.{search_behind, new_job, search_end, behind_by, explanation_by};

use crate::best::{Best, best_with, explain, listed_binds, sought_at};
use desk::Job;
use desk_records::numbers::FAR;
use desk_records::records::{ends_by, last_start, room_at};
use rules::Explanation;

// The search goes on, has found a place with room, or has come to a job with a > d; with when the job behind the place
// has to start at the latest.
#[derive(Clone, Copy)]
pub enum Stage {
    Looking,
    Found(u64),
    Late(u64),
}

// The request, jobs dropped so far, whether the first one left is running, and the place: found, or the next one to try
// with the end of the job before it, which is place l once a job has a > d or none follows. How far the search is, and
// the roomiest place gone past.
// (`busy` is a bool, here and as a parameter below: a fact of its own, on which no value hangs.)
#[derive(Clone, Copy)]
pub struct Searching {
    pub time: u32,
    pub budget: u32,
    pub deadline: u32,
    pub gone: u32,
    pub busy: bool,
    pub place: u32,
    pub start: u32,
    pub stage: Stage,
    pub best: Best,
}

// The place is the one before j.
fn closes(s: Searching, busy: bool, stage: Stage, j: Job) -> Searching
    ensures { result ≡ search_closed s busy stage j }
{
    Searching {
        busy,
        stage,
        best: sought_at(s.best, j),
        ..s
    }
}

// The search goes on behind j, where the room was too small.
fn goes_past(s: Searching, busy: bool, room: u32, j: Job) -> Searching
    ensures { result ≡ search_past s busy room j }
{
    let tried = best_with(s.best, s.place, room, listed_binds(s.deadline, j));
    Searching {
        busy,
        place: s.place.saturating_add(1),
        start: j.start.saturating_add(j.budget),
        best: sought_at(tried, j),
        ..s
    }
}

// Whether the first job left is running, j being the next one left.
fn busy_after(s: Searching, j: Job) -> bool
    ensures { result ≡ pick (eqb s.place 0) (ltb (start j) s.time) s.busy }
{
    if s.place == 0 {
        return j.start < s.time;
    }
    s.busy
}

// The search, at a job left.
fn look_at(s: Searching, j: Job) -> Searching
    ensures { result ≡ search_look s j }
{
    let busy = busy_after(s, j);
    if s.deadline < j.start {
        return closes(s, busy, Stage::Late(last_start(j)), j);
    }
    let room = room_at(s.start, s.deadline, j);
    if room < s.budget {
        return goes_past(s, busy, room, j);
    }
    closes(s, busy, Stage::Found(last_start(j)), j)
}

// A job that ends by t is dropped.
fn drops(s: Searching) -> Searching
    ensures { result ≡ search_dropped s }
{
    Searching {
        gone: s.gone.saturating_add(1),
        ..s
    }
}

// Behind the place only the job that binds the roomiest one is still sought.
fn seeks_on(s: Searching, j: Job) -> Searching
    ensures { result ≡ search_behind s j }
{
    Searching {
        best: sought_at(s.best, j),
        ..s
    }
}

// The search, at one more job. Those that end by t stand first, so none behind the place does.
pub fn search_step(s: Searching, j: Job) -> Searching
    ensures { result ≡ search_step s j }
{
    if let Stage::Looking = s.stage {
        if ends_by(j, s.time) {
            return drops(s);
        }
        return look_at(s, j);
    }
    seeks_on(s, j)
}

// The job asked for, at the start that the search has come to.
// (No From: it takes a part of the search, and its name says for what.)
pub fn new_job(s: Searching) -> Job
    ensures { result ≡ new_job s }
{
    Job {
        start: s.start,
        budget: s.budget,
        deadline: s.deadline,
        flex: 0,
    }
}

// Whether there is a place, after the last job: one with room before a job, or place l in time.
pub fn search_end(s: Searching) -> bool
    ensures { result ≡ search_end s }
{
    matches!(s.stage, Stage::Found(_)) || ends_by(new_job(s), s.deadline)
}

// When the job behind the place has to start at the latest, far off if there is none.
pub fn behind_by(s: Searching) -> u64
    ensures { result ≡ behind_by s }
{
    match s.stage {
        Stage::Looking => FAR,
        Stage::Found(behind) | Stage::Late(behind) => behind,
    }
}

// Why there is no place, after the last job: place l is one too where it starts by d, bound by the request's deadline.
pub fn explanation(s: Searching) -> Explanation
    ensures { result ≡ explanation_by s }
{
    if s.start <= s.deadline {
        return explain(best_with(s.best, s.place, s.deadline - s.start, false));
    }
    if s.place == 0 {
        return Explanation::Nowhere;
    }
    explain(s.best)
}
