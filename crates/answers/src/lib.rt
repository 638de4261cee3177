// The answers as C is told them: a number and five values, made of what each crate answers.
#![tactic(auto)]

ghost use Rattle.std.specs.Prelude.{◌≡◌, IfOk};
ghost use Rattle.rules.specs.declared.Told.{Told};
ghost use Rattle.rules.specs.Refusals.{placed, told_by};
ghost use Rattle.task_verdict.specs.Verdict.{told_pass};
ghost use Rattle.task_page.specs.Page.{told_paged};
ghost use Rattle.file_read.specs.Reader.{told_contents};
ghost use Rattle.file_read.specs.Inner.{Few};
ghost use Rattle.desk.specs.declared.Ask.TheVariants.{Request};
ghost use Rattle.desk.specs.Call.{said_done};
ghost use Rattle.answers.specs.Parts.{named_part, part_at, told_range, told_part};

use desk::{Ask, Asked, Done};
use file_read::load::body_of;
use file_read::{Body, Contents, Stretch};
use rules::{Refusal, Told};
use task_page::Paged;

// What a call answers where it refuses nothing.
pub trait Answer {
    ghost told: { Self → Told };

    fn tell(self) -> Told
        ensures { result ≡ told self };
}

fn told(first: usize, second: usize) -> Told
    ensures { result ≡ record { number = 0; first = first; second = second; third = 0; fourth = 0; fifth = 0 } }
{
    Told {
        number: 0,
        first,
        second,
        third: 0,
        fourth: 0,
        fifth: 0,
    }
}

// That nothing tells against a plan, or that a tick is changed.
impl Answer for () {
    ghost told = { λ _. placed 0 0 };

    fn tell(self) -> Told {
        told(0, 0)
    }
}

// A count.
impl Answer for usize {
    ghost told = { placed 0 };

    fn tell(self) -> Told {
        told(self, 0)
    }
}

// Where a task passes, if it does.
impl Answer for Option<usize> {
    ghost told = { told_pass };

    fn tell(self) -> Told {
        match self {
            Some(t) => told(t, 0),
            None => told(0, 0),
        }
    }
}

impl Answer for Paged {
    ghost told = { told_paged };

    fn tell(self) -> Told {
        match self {
            Paged::Pass(t) => told(t, 0),
            Paged::Fail {
                rows,
                tightest,
                shortage,
            } => Told {
                number: 0,
                first: 0,
                second: rows,
                third: tightest,
                fourth: shortage,
                fifth: 0,
            },
        }
    }
}

impl Answer for Contents {
    ghost told = { told_contents };

    fn tell(self) -> Told {
        Told {
            number: 0,
            first: self.frame,
            second: self.partitions,
            third: self.tasks,
            fourth: self.runs,
            fifth: self.edition,
        }
    }
}

// A part of a file.
impl Answer for Stretch {
    ghost told = { told_range };

    fn tell(self) -> Told {
        told(self.offset, self.end)
    }
}

// (`as`: usize has no From<u32>.)
impl Answer for Done {
    ghost told = { said_done };

    fn tell(self) -> Told {
        match self {
            Done::Opened => told(0, 0),
            Done::Taken(place, start) => told(place, start as usize),
        }
    }
}

// A call's answer, or why it refuses.
pub fn tell<A: Answer>(answered: Result<A, Refusal>) -> Told
    ensures { result ≡ told_by A.told answered }
{
    match answered {
        Ok(answer) => answer.tell(),
        Err(refusal) => Told::from(refusal),
    }
}

// The part of a file that a number stands for.
fn named_part(which: usize) -> Option<Body>
    ensures { result ≡ named_part which }
{
    match which {
        0 => Some(Body::Partitions),
        1 => Some(Body::Tasks),
        2 => Some(Body::Runs),
        _ => None,
    }
}

// Where that part lies in an accepted file; the empty part where the number stands for none.
fn part_at(which: usize, contents: Contents) -> Stretch
    requires { Few contents }
    ensures { result ≡ part_at which contents }
{
    match named_part(which) {
        Some(body) => body_of(contents, body),
        None => Stretch { offset: 0, end: 0 },
    }
}

// Where that part lies in a file that is read, or why the file is refused.
// (No From: it takes a number beside what is read.)
pub fn tell_part(which: usize, read: Result<Contents, Refusal>) -> Told
    requires { IfOk read Few }
    ensures { result ≡ told_part which read }
{
    tell(read.map(|contents| part_at(which, contents)))
}

// What a request asks the desk for.
// (No From: three numbers wouldn't say what they are.)
pub fn to_request(time: u32, budget: u32, deadline: u32) -> Ask
    ensures { result ≡ Request (record { time = time; budget = budget; deadline = deadline }) }
{
    Ask::Request(Asked {
        time,
        budget,
        deadline,
    })
}
