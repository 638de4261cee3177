// The reader: the contents, the bodies loaded and judged, and a body as a part of the file.
#![tactic(auto)]

ghost use Rattle.std.specs.Prelude.{◌≡◌};
ghost use Rattle.file_read.specs.Reader.{Reads, HandsBack};

use load::{body_at, load_file};
use rules::Refusal;
use rules::limits::{PART_NUMBERS, RUN_NUMBERS, TASK_NUMBERS};

mod head; // head.rt: the contents, the first 16 bytes
pub mod load; // load.rt: the bodies as tables, judged

// What the first 16 bytes say.
// (The edition stays a number: a file gives it so, and a wrong one is refused with 2.)
#[derive(Clone, Copy)]
pub struct Contents {
    pub edition: usize,
    pub frame: usize,
    pub partitions: usize,
    pub tasks: usize,
    pub runs: usize,
}

// Where a body lies in a file: its first byte, and the one behind its last.
// (A type of its own, no Range: it is copied, as a Range is not.)
#[derive(Clone, Copy)]
pub struct Stretch {
    pub offset: usize,
    pub end: usize,
}

// One of a file's three tables. (The definitions speak of it; it says where a table lies and chooses no step.)
#[derive(Clone, Copy)]
pub enum Body {
    Partitions,
    Tasks,
    Runs,
}

pub fn read(file: &[u8]) -> Result<Contents, Refusal>
    ensures { Reads file.now result }
{
    let mut parts = [0u16; PART_NUMBERS];
    let mut tasks = [0u16; TASK_NUMBERS];
    let mut runs = [0u16; RUN_NUMBERS];
    load_file(file, &mut parts, &mut tasks, &mut runs)
}

// A body of an accepted file, as a part of the file itself. Of any other file it is the empty part.
pub fn section(file: &[u8], which: Body) -> &[u8]
    ensures { HandsBack file.now which result.now }
{
    let part = body_at(read(file), which);
    &file[part.offset..part.end]
}
