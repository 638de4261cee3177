// One step of the flexibility pass, from the back.
ghost use Rattle.std.specs.Prelude.{◌≡◌};
ghost use Rattle.desk_writing.specs.Writing.{fitted, fit_out, fit_step};

use desk::Job;
use desk_records::records::{last_start, x_before};

// How far the pass is, from the back: places still to leave alone, and when the job behind has to start at the latest,
// far off if there is none.
#[derive(Clone, Copy)]
pub struct Fit {
    pub wait: u32,
    pub behind: u64,
}

// j with its flexibility worked out from the job behind it.
fn fit_one(s: Fit, j: Job) -> Job
    ensures { result ≡ fitted s j }
{
    Job {
        flex: x_before(j, s.behind),
        ..j
    }
}

// What is put down where j stood.
// (Apart from `fit_step`: `fitted_all` has what is put down and the state apart.)
pub fn fit_out(s: Fit, j: Job) -> Job
    ensures { result ≡ fit_out s j }
{
    if 0 < s.wait {
        return j;
    }
    fit_one(s, j)
}

// How far the pass is after j.
pub fn fit_step(s: Fit, j: Job) -> Fit
    ensures { result ≡ fit_step s j }
{
    if 0 < s.wait {
        return Fit {
            wait: s.wait - 1,
            ..s
        };
    }
    Fit {
        behind: last_start(fit_one(s, j)),
        ..s
    }
}
