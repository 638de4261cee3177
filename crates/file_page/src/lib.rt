// The page of a plan that serves: its lines, put behind what the output has already.
#![tactic(auto)]

ghost use Rattle.std.specs.Prelude.{◌≡◌, ◌+◌, ◌*◌, ◌≤◌, ◌<◌, ◌^◌, length};
ghost use Rattle.rules.specs.Limits.{most_partitions, most_tasks, longest_line, longest_listing};
ghost use Rattle.rules.specs.Walk.{gathered};
ghost use Rattle.rules.specs.Table.{partitions, tasks};
ghost use Rattle.output.specs.Put.{Put};
ghost use Rattle.file_page.specs.Page.{part_line, task_line, page_of};
ghost use Rattle.file_page.specs.Inner.{GoodRecords, line_by};

use file_lines::{put_fail, put_frame, put_partition, put_pass};
use output::Output;
use rules::Rule;
use rules::limits::MOST_TASKS;
use task_all::Times;

// (`as` u16, here and in `put_tasks`: the number fits, and a TryFrom would bring a refusal that can't come.)
#[tactic(auto, unfolding(crate::specs::Page::part_line))]
fn put_part(rule: Rule, plan: &[u16], parts: &[u16], k: usize, out: &mut Output<'_, u8>)
    requires { (k < most_partitions) × (out.old.at < 2 ^ 40) }
    ensures same_reference { out.new.lent.ghost_name ≡ out.old.lent.ghost_name }
    ensures put { Put out.old.lent.now out.old.at
        (part_line rule plan.now parts.now k) out.new.at out.new.lent.now }
    ensures short { out.new.at ≤ out.old.at + longest_line }
{
    let m = rules::records::cycle(parts, k);
    let wanted = rules::records::wanted(rules::filed(1), parts, k);
    let least = plan_service::least_by(rule, plan, (k + 1) as u16, u32::from(m));
    put_partition(out, k + 1, wanted, usize::from(m), least);
}

// (Apart from `put_lines`: one function over both would take a closure that writes, and ask more of it than the loops say.)
fn put_parts(rule: Rule, plan: &[u16], parts: &[u16], out: &mut Output<'_, u8>)
    requires { (partitions parts.now ≤ most_partitions) × (out.old.at < 2 ^ 32) }
    ensures same_reference { out.new.lent.ghost_name ≡ out.old.lent.ghost_name }
    ensures put { Put out.old.lent.now out.old.at
        (gathered (part_line rule plan.now parts.now) (partitions parts.now))
        out.new.at out.new.lent.now }
    ensures short { out.new.at ≤ out.old.at + most_partitions * longest_line }
{
    for k in 0..rules::records::partitions(parts) {
        put_part(rule, plan, parts, k, out);
    }
}

// A task's line, by what was found for it.
#[tactic(auto, unfolding(crate::specs::Inner::line_by))]
fn put_task(table: &[u16], found: &[Option<Times>], j: usize, out: &mut Output<'_, u8>)
    requires { (j < most_tasks) × (out.old.at < 2 ^ 40) × (j < length found.now) }
    ensures same_reference { out.new.lent.ghost_name ≡ out.old.lent.ghost_name }
    ensures put { Put out.old.lent.now out.old.at
        (line_by table.now found.now j) out.new.at out.new.lent.now }
    ensures short { out.new.at ≤ out.old.at + longest_line }
{
    let partition = usize::from(rules::records::partition(table, j));
    match found[j] {
        Some(times) => put_pass(
            out,
            j + 1,
            partition,
            usize::from(times.point),
            usize::from(times.tick),
        ),
        None => put_fail(out, j + 1, partition),
    }
}

// All tasks' lines, in the table's order.
fn put_lines(table: &[u16], found: &[Option<Times>], out: &mut Output<'_, u8>)
    requires { (tasks table.now ≤ most_tasks) × (out.old.at < 2 ^ 32) × (most_tasks ≤ length found.now) }
    ensures same_reference { out.new.lent.ghost_name ≡ out.old.lent.ghost_name }
    ensures put { Put out.old.lent.now out.old.at
        (gathered (line_by table.now found.now) (tasks table.now)) out.new.at out.new.lent.now }
    ensures short { out.new.at ≤ out.old.at + most_tasks * longest_line }
{
    for j in 0..rules::records::tasks(table) {
        put_task(table, found, j, out);
    }
}

// The tasks' lines, in the table's order: all are judged first, partition by partition.
#[tactic(auto, using(crate::proofs::Lines::lines_are))]
fn put_tasks(rule: Rule, plan: &[u16], parts: &[u16], table: &[u16], out: &mut Output<'_, u8>)
    requires { GoodRecords parts.now table.now × (out.old.at < 2 ^ 32) }
    ensures same_reference { out.new.lent.ghost_name ≡ out.old.lent.ghost_name }
    ensures put { Put out.old.lent.now out.old.at
        (gathered (task_line rule plan.now table.now) (tasks table.now))
        out.new.at out.new.lent.now }
    ensures short { out.new.at ≤ out.old.at + most_tasks * longest_line }
{
    let mut found = [None; MOST_TASKS];
    let n = rules::records::partitions(parts);
    task_all::judge_all(rule, plan, table, n as u16, &mut found);
    put_lines(table, &found, out);
}

// The listing of a plan that serves: at most 1 + 16 + 128 lines.
// (A slice, no Output: it is a whole output, and nothing is asked of a place in it.)
pub fn put_page(
    rule: Rule,
    frame: usize,
    plan: &[u16],
    parts: &[u16],
    table: &[u16],
    out: &mut [u8],
) -> usize
    requires { GoodRecords parts.now table.now }
    ensures { Put out.old 0
        (page_of rule frame plan.now parts.now table.now) result out.new
        × (result ≤ longest_listing) }
{
    let mut out = Output::new(out);
    put_frame(&mut out, frame);
    put_parts(rule, plan, parts, &mut out);
    put_tasks(rule, plan, parts, table, &mut out);
    out.at
}
