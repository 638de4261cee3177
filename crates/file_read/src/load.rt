// The bodies of a file, loaded into tables of numbers and judged there by the writer's rules.
ghost use Rattle.std.specs.Prelude.{◌≡◌, ◌*◌, length, Ok, IfOk};
ghost use Rattle.rules.specs.Limits.{longest, most_partitions, most_tasks, part_width, task_width, run_width};
ghost use Rattle.file_read.specs.Reader.{body_of, body_at, table_by, contents_of, read_of};
ghost use Rattle.file_read.specs.Inner.{Few, Inside, front, loaded_by};

use crate::head::contents;
use crate::{Body, Contents, Stretch};
use rules::Refusal;
use rules::limits::{HEAD_BYTES, NUMBER_BYTES, PART_WIDTH, RUN_WIDTH, TASK_WIDTH};

// Where a body lies in a file with these contents.
pub fn body_of(c: Contents, which: Body) -> Stretch
    requires { Few c }
    ensures { result ≡ body_of c which }
{
    let tasks_at = HEAD_BYTES + NUMBER_BYTES * (PART_WIDTH * c.partitions);
    let runs_at = tasks_at + NUMBER_BYTES * (TASK_WIDTH * c.tasks);
    let end = runs_at + NUMBER_BYTES * (RUN_WIDTH * c.runs);
    match which {
        Body::Partitions => Stretch {
            offset: HEAD_BYTES,
            end: tasks_at,
        },
        Body::Tasks => Stretch {
            offset: tasks_at,
            end: runs_at,
        },
        Body::Runs => Stretch {
            offset: runs_at,
            end,
        },
    }
}

// The same of what is read. Of a refused file it is the empty part at 0.
pub fn body_at(read: Result<Contents, Refusal>, which: Body) -> Stretch
    requires { IfOk read Few }
    ensures { result ≡ body_at read which }
{
    match read {
        Ok(contents) => body_of(contents, which),
        Err(_) => Stretch { offset: 0, end: 0 },
    }
}

// A body, at the start of a table.
#[tactic(auto, using(crate::proofs::Reader::loaded_body))]
fn load_body(file: &[u8], c: Contents, which: Body, table: &mut [u16])
    requires few { Few c }
    requires inside { Inside file.now c which }
    ensures { table.new ≡ front (table_by (Ok c) file.now which) table.old }
{
    let part = body_of(c, which);
    file_codec::load(&file[part.offset..part.end], table);
}

// What is read, where the tables of these contents are loaded.
fn judge_loaded(
    c: Contents,
    parts: &[u16],
    tasks: &[u16],
    runs: &[u16],
) -> Result<Contents, Refusal>
    requires few { Few c }
    requires lengths { (length parts.now ≡ part_width * most_partitions)
        × (length tasks.now ≡ task_width * most_tasks)
        × (length runs.now ≡ run_width * longest) }
    ensures { result ≡ loaded_by c parts.now tasks.now runs.now }
{
    let p = PART_WIDTH * c.partitions;
    let t = TASK_WIDTH * c.tasks;
    let r = RUN_WIDTH * c.runs;
    file_tables::judge_file(c.edition, c.frame, &parts[..p], &tasks[..t], &runs[..r])?;
    Ok(c)
}

// Reads a file: its tables are put at the start of the lent ones, which have room for any.
#[tactic(auto, using(crate::proofs::Reader::few, crate::proofs::Reader::none_loaded, crate::proofs::Reader::read_loaded, crate::proofs::Reader::read_refused))]
pub fn load_file(
    file: &[u8],
    parts: &mut [u16],
    tasks: &mut [u16],
    runs: &mut [u16],
) -> Result<Contents, Refusal>
    requires { (length parts.old ≡ part_width * most_partitions)
        × (length tasks.old ≡ task_width * most_tasks)
        × (length runs.old ≡ run_width * longest) }
    ensures value { result ≡ read_of file.now }
    ensures few { IfOk result Few }
    ensures parts_after { parts.new
        ≡ front (table_by (contents_of file.now) file.now Body.Partitions)
        parts.old }
    ensures tasks_after { tasks.new
        ≡ front (table_by (contents_of file.now) file.now Body.Tasks)
        tasks.old }
    ensures runs_after { runs.new
        ≡ front (table_by (contents_of file.now) file.now Body.Runs) runs.old }
{
    let c = contents(file)?;
    load_body(file, c, Body::Partitions, parts);
    load_body(file, c, Body::Tasks, tasks);
    load_body(file, c, Body::Runs, runs);
    judge_loaded(c, parts, tasks, runs)
}
