// One step of the shift pass: the new job is put in, and later jobs are moved as far as forced.
ghost use Rattle.std.specs.Prelude.{◌≡◌};
ghost use Rattle.desk_writing.specs.Writing.{shift_out, shift_step};

use desk::Job;
use desk_records::records::{moved_to, no_job};

// How far the pass is: jobs still to leave alone, then jobs still to put down, the first of which is the one carried,
// and the end of the job put down last.
#[derive(Clone, Copy)]
pub struct Shift {
    pub before: u32,
    pub put: u32,
    pub end: u32,
    pub carry: Job,
}

// What is put down where j stood.
// (Apart from `shift_step`: `shifted` has what is put down and the state apart.)
pub fn shift_out(s: Shift, j: Job) -> Job
    ensures { result ≡ shift_out s j }
{
    if 0 < s.before {
        return j;
    }
    if 0 < s.put {
        return moved_to(s.end, s.carry);
    }
    no_job()
}

// How far the pass is after j.
pub fn shift_step(s: Shift, j: Job) -> Shift
    ensures { result ≡ shift_step s j }
{
    if 0 < s.before {
        return Shift {
            before: s.before - 1,
            ..s
        };
    }
    if 0 < s.put {
        let m = moved_to(s.end, s.carry);
        return Shift {
            put: s.put - 1,
            end: m.start.saturating_add(m.budget),
            carry: j,
            ..s
        };
    }
    s
}
