// The lines of the listing, each put behind what the output has already.
#![tactic(auto)]

ghost use Rattle.std.specs.Prelude.{◌≡◌, ◌+◌, ◌≤◌, ◌<◌, ◌^◌};
ghost use Rattle.output.specs.Put.{Put};
ghost use Rattle.rules.specs.Limits.{longest_line};
ghost use Rattle.file_lines.specs.Lines.{frame_line, partition_line, task_words, pass_line, fail_line};

use output::Output;

pub fn put_frame(out: &mut Output<'_, u8>, frame: usize)
    requires { out.old.at < 2 ^ 40 }
    ensures same_reference { out.new.lent.ghost_name ≡ out.old.lent.ghost_name }
    ensures put { Put out.old.lent.now out.old.at (frame_line frame) out.new.at out.new.lent.now }
    ensures short { out.new.at ≤ out.old.at + longest_line }
{
    out.put_field(b"frame ", frame);
    out.put_all(b"\n");
}

// (Apart from share_plan's `put_short`: each promises its own text, and one function over texts would be no plainer.)
pub fn put_partition(
    out: &mut Output<'_, u8>,
    place: usize,
    wanted: usize,
    cycle: usize,
    least: usize,
)
    requires { out.old.at < 2 ^ 40 }
    ensures same_reference { out.new.lent.ghost_name ≡ out.old.lent.ghost_name }
    ensures put { Put out.old.lent.now out.old.at
        (partition_line place wanted cycle least) out.new.at out.new.lent.now }
    ensures short { out.new.at ≤ out.old.at + longest_line }
{
    out.put_field(b"partition ", place);
    out.put_field(b" wants ", wanted);
    out.put_field(b" in ", cycle);
    out.put_field(b" least ", least);
    out.put_all(b"\n");
}

// How a task's line begins.
fn put_task(out: &mut Output<'_, u8>, place: usize, partition: usize)
    requires { out.old.at < 2 ^ 40 }
    ensures same_reference { out.new.lent.ghost_name ≡ out.old.lent.ghost_name }
    ensures put { Put out.old.lent.now out.old.at (task_words place partition) out.new.at out.new.lent.now }
    ensures short { out.new.at ≤ out.old.at + 56 }
{
    out.put_field(b"task ", place);
    out.put_field(b" partition ", partition);
}

pub fn put_pass(out: &mut Output<'_, u8>, place: usize, partition: usize, point: usize, tick: usize)
    requires { out.old.at < 2 ^ 40 }
    ensures same_reference { out.new.lent.ghost_name ≡ out.old.lent.ghost_name }
    ensures put { Put out.old.lent.now out.old.at
        (pass_line place partition point tick) out.new.at out.new.lent.now }
    ensures short { out.new.at ≤ out.old.at + longest_line }
{
    put_task(out, place, partition);
    out.put_field(b" pass ", point);
    out.put_field(b" tick ", tick);
    out.put_all(b"\n");
}

pub fn put_fail(out: &mut Output<'_, u8>, place: usize, partition: usize)
    requires { out.old.at < 2 ^ 40 }
    ensures same_reference { out.new.lent.ghost_name ≡ out.old.lent.ghost_name }
    ensures put { Put out.old.lent.now out.old.at (fail_line place partition) out.new.at out.new.lent.now }
    ensures short { out.new.at ≤ out.old.at + longest_line }
{
    put_task(out, place, partition);
    out.put_all(b" fail\n");
}
