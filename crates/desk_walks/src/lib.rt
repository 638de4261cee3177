// The thin passes over the lent table of jobs: one that reads it, and three that write it.
// What becomes of each job is decided by value, in desk_reading and desk_writing.
#![tactic(auto)]

ghost use Rattle.std.specs.Prelude.{◌≡◌};
ghost use Rattle.desk_records.specs.Folds.{moved_up};
ghost use Rattle.desk_writing.specs.Writing.{shifted, fitted_all};
ghost use Rattle.desk_reading.specs.Reading.{scanned};

use desk::Job;
use desk_reading::scan::{Scan, scan_step};
use desk_writing::fit::{Fit, fit_out, fit_step};
use desk_writing::shift::{Shift, shift_out, shift_step};

// The whole table, read once from the front.
// (`opening` goes beside the state, as desk_reading's `Scan` says.)
pub fn scan_pass(jobs: &[Job], opening: bool, s: Option<Scan>) -> Option<Scan>
    ensures { result ≡ scanned opening s jobs.now }
{
    let mut st = s?;
    for j in jobs {
        st = scan_step(opening, st, *j)?;
    }
    Some(st)
}

// The first k jobs are dropped, and those behind them move up to the front; the last places stay as they are.
pub fn drop_pass(jobs: &mut [Job], k: usize)
    ensures { jobs.new ≡ moved_up k jobs.old }
{
    if k == 0 {
        return;
    }
    for from in k..jobs.len() {
        jobs[from - k] = jobs[from];
    }
}

// From the new job's place on each job is put down moved as far as forced, and the one that stood there is carried on.
pub fn shift_pass(jobs: &mut [Job], s: Shift)
    ensures { jobs.new ≡ shifted s jobs.old }
{
    let mut st = s;
    for place in jobs.iter_mut() {
        let j = *place;
        *place = shift_out(st, j);
        st = shift_step(st, j);
    }
}

// The flexibilities, worked out towards the front.
pub fn fit_pass(jobs: &mut [Job], s: Fit)
    ensures { jobs.new ≡ fitted_all s jobs.old }
{
    let mut st = s;
    for i in (0..jobs.len()).rev() {
        let j = jobs[i];
        jobs[i] = fit_out(st, j);
        st = fit_step(st, j);
    }
}
