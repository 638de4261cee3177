// The plan file of two tables, or the line of its refusal.
ghost use Rattle.std.specs.Prelude.{◌≡◌, ◌+◌, ◌≤◌, ◌<◌, ◌^◌, max, length};
ghost use Rattle.rules.specs.Limits.{longest};
ghost use Rattle.output.specs.Put.{Put};
ghost use Rattle.rules.specs.Limits.{longest_line};
ghost use Rattle.rules.specs.Filling.{left_by};
ghost use Rattle.file_write.specs.Writer.{file_of, write_of};
ghost use Rattle.file_runs.specs.Ticks.{runs_of};
ghost use Rattle.share_plan.specs.Answer.{checked_write, write_built_of, write_plan_of, plan_file, short_line, why_line, file_or_line};

use output::Output;
use rules::limits::{LONGEST, RUN_NUMBERS};
use rules::{Refusal, Terms};

// The file of a plan's ticks.
// (An edition stays a number: the file says it so.)
fn write_ticks(
    edition: usize,
    frame: usize,
    parts: &[u16],
    tasks: &[u16],
    plan: &[u16],
    out: &mut [u8],
) -> Result<usize, Refusal>
    requires { length plan.now ≤ longest }
    ensures { (result ≡ write_of edition frame parts.now tasks.now (runs_of plan.now)
        (length out.old))
        × (out.new ≡ left_by result (file_of edition frame parts.now tasks.now
        (runs_of plan.now)) out.old) }
{
    let mut runs = [0u16; RUN_NUMBERS];
    let n = file_runs::runs_of(plan, &mut runs);
    file_write::write(edition, frame, parts, tasks, &runs[..n], out)
}

// The same of a plan that serves by the edition's rule.
fn write_checked(
    terms: Terms,
    frame: usize,
    parts: &[u16],
    tasks: &[u16],
    plan: &[u16],
    out: &mut [u8],
) -> Result<usize, Refusal>
    requires { length plan.now ≤ longest }
    ensures { (result ≡ checked_write terms frame parts.now tasks.now plan.now
        (length out.old))
        × (out.new ≡ left_by result (file_of terms.edition frame parts.now tasks.now
        (runs_of plan.now)) out.old) }
{
    plan_check::check(terms, plan, parts)?;
    write_ticks(terms.edition, frame, parts, tasks, plan, out)
}

// The builder's plan as a file.
fn write_built(terms: Terms, parts: &[u16], tasks: &[u16], out: &mut [u8]) -> Result<usize, Refusal>
    ensures { (result ≡ write_built_of terms parts.now tasks.now (length out.old))
        × (out.new ≡ left_by result (plan_file terms parts.now tasks.now) out.old) }
{
    let mut plan = [0u16; LONGEST];
    let h = plan_build::build(terms, parts, &mut plan)?;
    write_checked(terms, h, parts, tasks, &plan[..h], out)
}

#[tactic(auto, unfolding(crate::specs::Answer::write_plan_of))]
fn write_plan(terms: Terms, parts: &[u16], tasks: &[u16], out: &mut [u8]) -> Result<usize, Refusal>
    ensures { (result ≡ write_plan_of terms parts.now tasks.now (length out.old))
        × (out.new ≡ left_by result (plan_file terms parts.now tasks.now) out.old) }
{
    tables::judge_tables(terms, LONGEST, parts, tasks)?;
    write_built(terms, parts, tasks, out)
}

// The line of 9, which says what is short.
// (Apart from file_lines' `put_partition`, as said there.)
fn put_short(out: &mut Output<'_, u8>, partition: usize, start: usize, held: usize, wanted: usize)
    requires { out.old.at < 2 ^ 40 }
    ensures same_reference { out.new.lent.ghost_name ≡ out.old.lent.ghost_name }
    ensures put { Put out.old.lent.now out.old.at (short_line partition start held wanted) out.new.at out.new.lent.now }
    ensures short { out.new.at ≤ out.old.at + longest_line }
{
    out.put_field(b"refused 9 partition ", partition);
    out.put_field(b" start ", start);
    out.put_field(b" held ", held);
    out.put_field(b" wanted ", wanted);
    out.put_all(b"\n");
}

// The line of a refusal.
#[tactic(auto, unfolding(crate::specs::Answer::why_line))]
fn put_why(out: &mut Output<'_, u8>, refusal: Refusal)
    requires { out.old.at < 2 ^ 40 }
    ensures same_reference { out.new.lent.ghost_name ≡ out.old.lent.ghost_name }
    ensures put { Put out.old.lent.now out.old.at (why_line refusal) out.new.at out.new.lent.now }
    ensures short { out.new.at ≤ out.old.at + longest_line }
{
    match refusal {
        Refusal::Shortfall {
            partition,
            start,
            held,
            wanted,
        } => put_short(out, partition, start, held, wanted),
        _ => out.put_refusal(refusal),
    }
}

// (A slice, no Output: it is a whole output, and nothing is asked of a place in it.)
pub fn put_file_or_line(terms: Terms, parts: &[u16], tasks: &[u16], out: &mut [u8]) -> usize
    ensures { Put out.old 0
        (file_or_line terms parts.now tasks.now (length out.old))
        result out.new
        × (result ≤ max longest_line (length out.old)) }
{
    let w = write_plan(terms, parts, tasks, out);
    match w {
        Ok(n) => n,
        Err(r) => {
            let mut out = Output::new(out);
            put_why(&mut out, r);
            out.at
        }
    }
}
