// The page of a task of a plan file, as text: put behind what an output has, as far as there is room.
#![tactic(auto)]

ghost use Rattle.std.specs.Prelude.{◌≡◌, ◌+◌, ◌-◌, ◌*◌, ◌^◌, ◌≤◌, ◌<◌, length, Ok};
ghost use Rattle.rules.specs.Limits.{longest, longest_line, longest_why};
ghost use Rattle.rules.specs.Walk.{gathered};
ghost use Rattle.rules.specs.Table.{partition};
ghost use Rattle.rules.specs.Terms.{rule_of};
ghost use Rattle.output.specs.Put.{Put};
ghost use Rattle.why_page.specs.Why.{line_of, spare_of, short_of, pass_text, fail_text, most_numbers, tables_text, why_of, place_asked};
ghost use Rattle.why_page.specs.Inner.{InReach, Sized, Rowed, PagedSo};

use file_read::load::load_file;
use output::Output;
use rules::limits::{
    LONGEST, PART_NUMBERS, PART_WIDTH, ROW_WIDTH, RUN_NUMBERS, RUN_WIDTH, TASK_NUMBERS, TASK_WIDTH,
};
use share_words::numbers::numeral;
use task_demand::{TICKS, TaskLists};
use task_page::Paged;
use why_lines::Size;

// A page's numbers, at most: a row for each tick up to the longest deadline.
const MOST_NUMBERS: usize = ROW_WIDTH * LONGEST;

// The line of a row. (`as`, here and in `size_at`: usize has no From<u32>.)
#[tactic(auto, using(crate::proofs::Lines::line_is))]
fn put_line(out: &mut Output<'_, u8>, rows: &[u32], k: usize, tightest: usize)
    requires { (k < longest) × (out.old.at < 2 ^ 40) × (length rows.now ≡ most_numbers) }
    ensures same_reference { out.new.lent.ghost_name ≡ out.old.lent.ghost_name }
    ensures put { Put out.old.lent.now out.old.at (line_of tightest rows.now k) out.new.at out.new.lent.now }
    ensures short { out.new.at ≤ out.old.at + longest_line }
{
    let row = ROW_WIDTH * k;
    let size = Size {
        tick: rows[row] as usize,
        needs: rows[row + 1] as usize,
        has: rows[row + 2] as usize,
    };
    why_lines::put_row(out, tightest, size, rows[row + 3] as usize);
}

// The lines of the first n rows. (Apart from file_page's `put_parts`, as said there.)
fn put_lines(out: &mut Output<'_, u8>, rows: &[u32], n: usize, tightest: usize)
    requires { (n ≤ longest) × (out.old.at < 2 ^ 33) × (length rows.now ≡ most_numbers) }
    ensures same_reference { out.new.lent.ghost_name ≡ out.old.lent.ghost_name }
    ensures put { Put out.old.lent.now out.old.at
        (gathered (line_of tightest rows.now) n)
        out.new.at out.new.lent.now }
    ensures short { out.new.at ≤ out.old.at + longest_line * n }
{
    for k in 0..n {
        put_line(out, rows, k, tightest);
    }
}

// A task of an accepted file: its edition (the number that the file gives), plan and tables, and the task's place, from 1.
#[derive(Clone, Copy)]
struct Task<'a> {
    edition: usize,
    plan: &'a [u16],
    parts: &'a [u16],
    table: &'a [u16],
    place: usize,
}

// The partition that the task is in.
fn partition_of(task: Task<'_>) -> usize
    requires { 1 ≤ task.place }
    ensures { result ≡ partition task.entry.table.now (task.entry.place - 1) }
{
    usize::from(rules::records::partition(task.table, task.place - 1))
}

// What the task needs of t ticks, and what it can be sure of.
fn size_at(task: Task<'_>, t: usize) -> Size
    requires { (1 ≤ task.place) × InReach task.plan.now task.table.now (task.place - 1) t }
    ensures { Sized (rule_of task.entry.edition) task.entry.plan.now
        task.entry.table.now (task.entry.place - 1) t result.needs result.has
        × (result.tick ≡ t) }
{
    let i = task.place - 1;
    let rule = rules::rule_of(task.edition);
    let mut curve = [0; TICKS];
    let mut asks = [0; TICKS];
    task_demand::draw_task(rule, task.plan, task.table, i, &mut curve, &mut asks);
    let lists = TaskLists {
        curve: &curve,
        asks: &asks,
    };
    let needs = usize::from(rules::records::budget(task.table, i)) + lists.asks[t] as usize;
    let has = lists.curve[t] as usize;
    Size {
        tick: t,
        needs,
        has,
    }
}

// The sentence about a task that passes at a point.
#[tactic(auto, unfolding(crate::specs::Why::spare_of))]
fn put_spare(out: &mut Output<'_, u8>, task: Task<'_>, t: usize)
    requires { (1 ≤ task.place) × InReach task.plan.now task.table.now (task.place - 1) t × (out.old.at < 2 ^ 40) }
    ensures same_reference { out.new.lent.ghost_name ≡ out.old.lent.ghost_name }
    ensures put { Put out.old.lent.now out.old.at
        (spare_of (rule_of task.entry.edition) task.entry.plan.now task.entry.table.now (task.entry.place - 1) t)
        out.new.at out.new.lent.now }
    ensures short { out.new.at ≤ out.old.at + longest_line }
{
    let size = size_at(task, t);
    why_lines::put_spare(out, size);
}

// The sentence about a task that fails, its tightest point being t.
#[tactic(auto, using(crate::proofs::Lines::in_lists), unfolding(crate::specs::Why::short_of))]
fn put_short(out: &mut Output<'_, u8>, task: Task<'_>, t: usize)
    requires { (1 ≤ task.place) × InReach task.plan.now task.table.now (task.place - 1) t × (out.old.at < 2 ^ 40) }
    ensures same_reference { out.new.lent.ghost_name ≡ out.old.lent.ghost_name }
    ensures put { Put out.old.lent.now out.old.at
        (short_of (rule_of task.entry.edition) task.entry.plan.now task.entry.table.now (task.entry.place - 1) t)
        out.new.at out.new.lent.now }
    ensures short { out.new.at ≤ out.old.at + longest_line }
{
    let size = size_at(task, t);
    let rule = rules::rule_of(task.edition);
    let start = plan_service::worst_start(rule, task.plan, partition_of(task), t, size.has);
    why_lines::put_short(out, size, start);
}

fn put_passing(out: &mut Output<'_, u8>, task: Task<'_>, point: usize)
    requires { (1 ≤ task.place)
        × InReach task.plan.now task.table.now (task.place - 1) point
        × (out.old.at < 2 ^ 32) }
    ensures same_reference { out.new.lent.ghost_name ≡ out.old.lent.ghost_name }
    ensures put { Put out.old.lent.now out.old.at
        (pass_text (rule_of task.entry.edition) task.entry.plan.now task.entry.table.now task.entry.place point)
        out.new.at out.new.lent.now }
    ensures short { out.new.at ≤ out.old.at + longest_why }
{
    why_lines::put_passes(out, task.place, partition_of(task));
    put_spare(out, task, point);
}

fn put_failing(out: &mut Output<'_, u8>, task: Task<'_>, rows: &[u32], n: usize, tightest: usize)
    requires { (1 ≤ task.place)
        × Rowed (rule_of task.edition) task.plan.now task.table.now (task.place - 1) rows.now n tightest
        × (out.old.at < 2 ^ 32) }
    ensures same_reference { out.new.lent.ghost_name ≡ out.old.lent.ghost_name }
    ensures put { Put out.old.lent.now out.old.at
        (fail_text (rule_of task.entry.edition) task.entry.plan.now task.entry.table.now task.entry.place)
        out.new.at out.new.lent.now }
    ensures short { out.new.at ≤ out.old.at + longest_why }
{
    why_lines::put_fails(out, task.place, partition_of(task));
    why_lines::put_names(out);
    put_lines(out, rows, n, tightest);
    put_short(out, task, tightest);
}

// What the page says of the task, as text; a fail left its rows. (A struct for `rows`, `n`, `tightest` would be made once.)
#[tactic(auto, unfolding(crate::specs::Why::tables_text))]
fn put_paged(out: &mut Output<'_, u8>, task: Task<'_>, rows: &[u32], paged: Paged)
    requires { PagedSo task.edition task.plan.now task.parts.now task.table.now task.place rows.now (Ok paged)
        × (out.old.at < 2 ^ 32) }
    ensures same_reference { out.new.lent.ghost_name ≡ out.old.lent.ghost_name }
    ensures put { Put out.old.lent.now out.old.at
        (tables_text task.entry.edition task.entry.plan.now task.entry.parts.now task.entry.table.now task.entry.place)
        out.new.at out.new.lent.now }
    ensures short { out.new.at ≤ out.old.at + longest_why }
{
    match paged {
        Paged::Pass(point) => put_passing(out, task, point),
        Paged::Fail {
            rows: n,
            tightest,
            ..
        } => put_failing(out, task, rows, n, tightest),
    }
}

#[tactic(auto, unfolding(crate::specs::Why::tables_text))]
fn put_page(out: &mut Output<'_, u8>, task: Task<'_>)
    requires { out.old.at < 2 ^ 32 }
    ensures same_reference { out.new.lent.ghost_name ≡ out.old.lent.ghost_name }
    ensures put { Put out.old.lent.now out.old.at
        (tables_text task.entry.edition task.entry.plan.now task.entry.parts.now task.entry.table.now task.entry.place)
        out.new.at out.new.lent.now }
    ensures short { out.new.at ≤ out.old.at + longest_why }
{
    let mut rows = [0u32; MOST_NUMBERS];
    let terms = rules::filed(task.edition);
    match task_page::page(
        terms, task.plan, task.parts, task.table, task.place, &mut rows,
    ) {
        Ok(paged) => put_paged(out, task, &rows, paged),
        Err(r) => out.put_refusal(r),
    }
}

// Of a file's bytes.
#[tactic(auto, unfolding(crate::specs::Why::why_of))]
fn put_file(out: &mut Output<'_, u8>, file: &[u8], place: usize)
    requires { out.old.at < 2 ^ 32 }
    ensures same_reference { out.new.lent.ghost_name ≡ out.old.lent.ghost_name }
    ensures put { Put out.old.lent.now out.old.at (why_of file.now place) out.new.at out.new.lent.now }
    ensures short { out.new.at ≤ out.old.at + longest_why }
{
    let mut parts = [0u16; PART_NUMBERS];
    let mut tasks = [0u16; TASK_NUMBERS];
    let mut runs = [0u16; RUN_NUMBERS];
    match load_file(file, &mut parts, &mut tasks, &mut runs) {
        Ok(c) => {
            let mut plan = [0u16; LONGEST];
            file_runs::ticks_of(&runs[..RUN_WIDTH * c.runs], &mut plan);
            let task = Task {
                edition: c.edition,
                plan: &plan[..c.frame],
                parts: &parts[..PART_WIDTH * c.partitions],
                table: &tasks[..TASK_WIDTH * c.tasks],
                place,
            };
            put_page(out, task);
        }
        Err(r) => out.put_refusal(r),
    }
}

// Puts the page of a task, by its place from 1, of a file's bytes at the start of the output, as far as there is room. The
// answer is its length.
pub fn compose(file: &[u8], place: usize, out: &mut [u8]) -> usize
    ensures { Put out.old 0 (why_of file.now place) result out.new
        × (result ≤ longest_why) }
{
    let mut out = Output::new(out);
    put_file(&mut out, file, place);
    out.at
}

// The place that a program is asked for, of so many words with its own name, `word` being the one behind that: 0, which is
// no task's, where it is no number or not the only one.
// A number, no Option: the definition has it so, and the page refuses 0 as any place that no task has.
#[tactic(auto, unfolding(crate::specs::Why::place_asked))]
pub fn place_asked(words: usize, word: &[u8]) -> usize
    ensures { result ≡ place_asked words word.now }
{
    if words != 2 {
        return 0;
    }
    numeral(word).map_or(0, usize::from)
}
