// The desk over the caller's own memory: a lent table of jobs, and one small record of clock and count.
// The passes walk the table where it lies; every decision is made by value.
#![tactic(auto)]

ghost use Rattle.std.specs.Prelude.{◌≡◌};
ghost use Rattle.desk.specs.Call.{call_of, Leaves};
ghost use Rattle.desk_reading.specs.Reading.{scanned};
ghost use Rattle.desk_engine.specs.Deciding.{effect_of, applied};

use desk::{Ask, Desk, Done, Job};
use desk_engine::begin::{opens, scan_for};
use desk_engine::effect::{Effect, effect_of};
use desk_reading::scan::Scan;
use desk_walks::{drop_pass, fit_pass, scan_pass, shift_pass};
use rules::Refusal;

// The writing passes that are made, one after the other.
#[tactic(auto, unfolding(desk_engine::specs::Deciding::applied))]
fn apply(jobs: &mut [Job], p: Effect)
    ensures { jobs.new ≡ applied p jobs.old }
{
    drop_pass(&mut *jobs, p.drop);
    if let Some(s) = p.shift {
        shift_pass(&mut *jobs, s);
    }
    if let Some(s) = p.fit {
        fit_pass(&mut *jobs, s);
    }
}

// One reading pass, what is decided by it, and the writing passes.
// (`opening` goes beside the state, as desk_reading's `Scan` says.)
fn serve(jobs: &mut [Job], k: Desk, opening: bool, s: Option<Scan>) -> Effect
    ensures { (result ≡ effect_of k opening (scanned opening s jobs.old))
        × (jobs.new ≡ applied result jobs.old) }
{
    let done = effect_of(k, opening, scan_pass(&*jobs, opening, s));
    apply(jobs, done);
    done
}

// Opens the desk, or asks it to take a job in.
pub fn call(desk: &mut Desk, jobs: &mut [Job], ask: Ask) -> Result<Done, Refusal>
    ensures { Leaves
        (call_of desk.old.clock desk.old.count jobs.old ask)
        result desk.new jobs.new }
{
    let s = scan_for(*desk, jobs.len(), ask);
    let done = serve(jobs, *desk, opens(ask), s);
    *desk = done.desk;
    done.answer
}
