// The contents and the bodies of a file, each put into its own stretch of the output.
// (Slices, no Output: bytes at places of their own, no text. The edition is a number, as a file says it.)
ghost use Rattle.std.specs.Prelude.{◌≡◌, ◌++◌, ◌+◌, ◌*◌, ◌≤◌, length, take, drop};
ghost use Rattle.rules.specs.Limits.{head_bytes, number_bytes};
ghost use Rattle.file_codec.specs.Bytes.{bytes_of};
ghost use Rattle.file_codec.specs.Contents.{contents};
ghost use Rattle.file_write.specs.Writer.{file_of, size_for};
ghost use Rattle.file_write.specs.Inner.{Small};

use rules::limits::{HEAD_BYTES, NUMBER_BYTES, PART_WIDTH, RUN_WIDTH, TASK_WIDTH};

// The contents, the first 16 bytes, of tables of so many numbers.
// (`as`: each number fits, and a TryFrom would bring a refusal that can't come.)
fn put_head(edition: usize, frame: usize, p: usize, t: usize, r: usize, out: &mut [u8])
    requires { Small edition frame p t r × (head_bytes ≤ length out.old) }
    ensures { out.new ≡ bytes_of (contents edition frame p t r) ++ drop head_bytes out.old }
{
    let tasks = HEAD_BYTES + NUMBER_BYTES * p;
    let runs = tasks + NUMBER_BYTES * t;
    let head = [
        edition as u16,
        frame as u16,
        HEAD_BYTES as u16,
        (p / PART_WIDTH) as u16,
        tasks as u16,
        (t / TASK_WIDTH) as u16,
        runs as u16,
        (r / RUN_WIDTH) as u16,
    ];
    file_codec::put_all(&head, out);
}

// A body in its own stretch of the output: the part from its offset is lent on.
fn put_body(table: &[u16], out: &mut [u8], offset: usize)
    requires { offset + number_bytes * length table.now ≤ length out.old }
    ensures { out.new
        ≡ take offset out.old ++ (bytes_of table.now
        ++ drop (number_bytes * length table.now) (drop offset out.old)) }
{
    file_codec::put_all(table, &mut out[offset..]);
}

#[tactic(auto, using(crate::proofs::Writer::laid))]
pub fn put_file(
    edition: usize,
    frame: usize,
    parts: &[u16],
    tasks: &[u16],
    runs: &[u16],
    out: &mut [u8],
)
    requires small { Small edition frame (length parts.now) (length tasks.now) (length runs.now) }
    requires room { size_for parts.now tasks.now runs.now ≤ length out.old }
    ensures { out.new
        ≡ file_of edition frame parts.now tasks.now runs.now
        ++ drop (size_for parts.now tasks.now runs.now) out.old }
{
    let tasks_at = HEAD_BYTES + NUMBER_BYTES * parts.len();
    let runs_at = tasks_at + NUMBER_BYTES * tasks.len();
    put_head(edition, frame, parts.len(), tasks.len(), runs.len(), out);
    put_body(parts, out, HEAD_BYTES);
    put_body(tasks, out, tasks_at);
    put_body(runs, out, runs_at);
}
