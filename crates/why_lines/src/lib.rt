// The lines of a task's page, each put behind what the output has.
#![tactic(auto)]

ghost use Rattle.std.specs.Prelude.{◌≡◌, ◌+◌, ◌++◌, ◌≤◌, ◌<◌, ◌^◌, length};
ghost use Rattle.output.specs.Put.{Put};
ghost use Rattle.output.specs.Decimal.{decimal};
ghost use Rattle.rules.specs.Limits.{longest_line};
ghost use Rattle.why_lines.specs.Lines.{padded, task_words, passes_line, fails_line, names_line, columns, window, mark, row_line, tick_words, spare_line, short_line};

use output::Output;

const COLUMN: usize = 8;

// What a task needs at a tick, and what it can be sure of there.
// (A type of its own: its numbers have another sense than those of others that are equal in form.)
#[derive(Clone, Copy)]
pub struct Size {
    pub tick: usize,
    pub needs: usize,
    pub has: usize,
}

// How many digits a number has.
// (`as`: usize has no From<u32>.)
fn digits(n: usize) -> usize
    ensures { result ≡ length (decimal n) }
{
    n.max(1).ilog10() as usize + 1
}

// A number that ends its column.
fn put_column(out: &mut Output<'_, u8>, n: usize)
    requires { out.old.at < 2 ^ 41 }
    ensures same_reference { out.new.lent.ghost_name ≡ out.old.lent.ghost_name }
    ensures put { Put out.old.lent.now out.old.at (padded n) out.new.at out.new.lent.now }
    ensures short { out.new.at ≤ out.old.at + 28 }
{
    let blanks = [b' '; COLUMN];
    let gap = COLUMN.saturating_sub(digits(n));
    out.put_field(&blanks[..gap], n);
}

// A task, and how it does.
fn put_task(out: &mut Output<'_, u8>, place: usize, partition: usize, verdict: &[u8])
    requires { (out.old.at < 2 ^ 40) × (length verdict.now < 2 ^ 6) }
    ensures same_reference { out.new.lent.ghost_name ≡ out.old.lent.ghost_name }
    ensures put { Put out.old.lent.now out.old.at
        (task_words place partition ++ verdict.now)
        out.new.at out.new.lent.now }
    ensures short { out.new.at ≤ out.old.at + longest_line }
{
    out.put_field(b"task ", place);
    out.put_field(b" partition ", partition);
    out.put_all(verdict);
}

// (Apart from `put_fails`: each promises its own line, and is one line over `put_task`.)
#[tactic(auto, unfolding(crate::specs::Lines::passes_line))]
pub fn put_passes(out: &mut Output<'_, u8>, place: usize, partition: usize)
    requires { out.old.at < 2 ^ 40 }
    ensures same_reference { out.new.lent.ghost_name ≡ out.old.lent.ghost_name }
    ensures put { Put out.old.lent.now out.old.at (passes_line place partition) out.new.at out.new.lent.now }
    ensures short { out.new.at ≤ out.old.at + longest_line }
{
    put_task(out, place, partition, b" passes\n");
}

#[tactic(auto, unfolding(crate::specs::Lines::fails_line))]
pub fn put_fails(out: &mut Output<'_, u8>, place: usize, partition: usize)
    requires { out.old.at < 2 ^ 40 }
    ensures same_reference { out.new.lent.ghost_name ≡ out.old.lent.ghost_name }
    ensures put { Put out.old.lent.now out.old.at (fails_line place partition) out.new.at out.new.lent.now }
    ensures short { out.new.at ≤ out.old.at + longest_line }
{
    put_task(out, place, partition, b" fails\n");
}

#[tactic(auto, unfolding(crate::specs::Lines::names_line))]
pub fn put_names(out: &mut Output<'_, u8>)
    requires { out.old.at < 2 ^ 40 }
    ensures same_reference { out.new.lent.ghost_name ≡ out.old.lent.ghost_name }
    ensures put { Put out.old.lent.now out.old.at names_line out.new.at out.new.lent.now }
    ensures short { out.new.at ≤ out.old.at + longest_line }
{
    out.put_all(b"   point   needs     has   short   worst stretch in wall ticks\n");
}

fn put_columns(out: &mut Output<'_, u8>, size: Size)
    requires { out.old.at < 2 ^ 40 }
    ensures same_reference { out.new.lent.ghost_name ≡ out.old.lent.ghost_name }
    ensures put { Put out.old.lent.now out.old.at
        (columns size.tick size.needs size.has)
        out.new.at out.new.lent.now }
    ensures short { out.new.at ≤ out.old.at + 112 }
{
    put_column(out, size.tick);
    put_column(out, size.needs);
    put_column(out, size.has);
    put_column(out, size.needs.saturating_sub(size.has));
}

// The wall ticks of the worst stretch, as many as the point says.
fn put_window(out: &mut Output<'_, u8>, start: usize, point: usize)
    requires { (out.old.at < 2 ^ 41) × (start < 2 ^ 32) × (point < 2 ^ 32) }
    ensures same_reference { out.new.lent.ghost_name ≡ out.old.lent.ghost_name }
    ensures put { Put out.old.lent.now out.old.at (window start point) out.new.at out.new.lent.now }
    ensures short { out.new.at ≤ out.old.at + 47 }
{
    out.put_field(b"   ", start);
    out.put_field(b" to ", (start + point).saturating_sub(1));
}

// How a point's line ends.
// (A bool: a fact of the line, no switch of steps.)
fn mark(tightest: bool) -> &'static [u8]
    ensures { (result.now ≡ mark tightest) × (length result.now < 2 ^ 5) }
{
    if tightest { b"  <- tightest\n" } else { b"\n" }
}

// A point's line.
pub fn put_row(out: &mut Output<'_, u8>, tightest: usize, size: Size, start: usize)
    requires { (out.old.at < 2 ^ 40)
        × (size.tick < 2 ^ 32)
        × (size.needs < 2 ^ 32)
        × (size.has < 2 ^ 32)
        × (start < 2 ^ 32) }
    ensures same_reference { out.new.lent.ghost_name ≡ out.old.lent.ghost_name }
    ensures put { Put out.old.lent.now out.old.at
        (row_line tightest size.tick size.needs size.has start)
        out.new.at out.new.lent.now }
    ensures short { out.new.at ≤ out.old.at + longest_line }
{
    put_columns(out, size);
    put_window(out, start, size.tick);
    out.put_all(mark(size.tick == tightest));
}

fn put_tick(out: &mut Output<'_, u8>, size: Size)
    requires { out.old.at < 2 ^ 40 }
    ensures same_reference { out.new.lent.ghost_name ≡ out.old.lent.ghost_name }
    ensures put { Put out.old.lent.now out.old.at
        (tick_words size.tick size.needs size.has)
        out.new.at out.new.lent.now }
    ensures short { out.new.at ≤ out.old.at + 98 }
{
    out.put_field(b"at tick ", size.tick);
    out.put_field(b" it needs ", size.needs);
    out.put_field(b" and can be sure of ", size.has);
}

// What is said of a task that passes at a tick.
pub fn put_spare(out: &mut Output<'_, u8>, size: Size)
    requires { (out.old.at < 2 ^ 40) × (size.tick < 2 ^ 16) × (size.needs < 2 ^ 33) × (size.has < 2 ^ 33) }
    ensures same_reference { out.new.lent.ghost_name ≡ out.old.lent.ghost_name }
    ensures put { Put out.old.lent.now out.old.at
        (spare_line size.tick size.needs size.has)
        out.new.at out.new.lent.now }
    ensures short { out.new.at ≤ out.old.at + longest_line }
{
    put_tick(out, size);
    out.put_field(b": ", size.has.saturating_sub(size.needs));
    out.put_all(b" to spare\n");
}

// What is said of a task that fails, and at which tick it does so by the least.
pub fn put_short(out: &mut Output<'_, u8>, size: Size, start: usize)
    requires { (out.old.at < 2 ^ 40)
        × (size.tick < 2 ^ 16)
        × (size.needs < 2 ^ 33)
        × (size.has < 2 ^ 33)
        × (start < 2 ^ 33) }
    ensures same_reference { out.new.lent.ghost_name ≡ out.old.lent.ghost_name }
    ensures put { Put out.old.lent.now out.old.at
        (short_line size.tick size.needs size.has start)
        out.new.at out.new.lent.now }
    ensures short { out.new.at ≤ out.old.at + longest_line }
{
    put_tick(out, size);
    out.put_field(b": ", size.needs.saturating_sub(size.has));
    out.put_field(b" short; the worst stretch starts at tick ", start);
    out.put_all(b"\n");
}
