// The supplier's page: why a task fails. For each scheduling point what the task needs there, what it can be sure of, and
// where the worst stretch of so many ticks starts; and the point at which it falls short by the least.
#![tactic(auto)]

ghost use Rattle.std.specs.Prelude.{◌≡◌, ◌&&◌, [], ◌∷◌, ◌+◌, ◌^◌, ◌≤◌, ◌<◌, leb, length};
ghost use Rattle.rules.specs.Limits.{longest};
ghost use Rattle.rules.specs.Walk.{pick, count, first_least};
ghost use Rattle.rules.specs.Table.{deadline};
ghost use Rattle.theory.specs.Task.{task_point};
ghost use Rattle.output.specs.Put.{Put};
ghost use Rattle.task_demand.specs.Inner.{Judgeable};
ghost use Rattle.task_points.specs.Inner.{point_at};
ghost use Rattle.task_verdict.specs.Verdict.{pass_at};
ghost use Rattle.task_page.specs.Page.{row_at, rows_of, fail_of, paged_by, page_left, Pages};
ghost use Rattle.task_page.specs.Inner.{point_in, short_in, Ready};

use output::Output;
use plan_service::worst_start;
use rules::limits::ROW_WIDTH;
use rules::{Refusal, Rule, Terms};
use task_demand::{TICKS, TaskLists};
use task_points::point_at;

// What is said of a task: it passes at a point, or it fails, with so many rows, the point with the smallest shortage and
// that shortage.
#[derive(Clone, Copy)]
pub enum Paged {
    Pass(usize),
    Fail {
        rows: usize,
        tightest: usize,
        shortage: usize,
    },
}

// By the list: how many scheduling points a task with deadline d has.
fn points_in(lists: &TaskLists<'_>, d: u16) -> usize
    requires { d < length lists.now.asks.now }
    ensures { (result ≤ d) × (result ≡ count (point_in lists.now.asks.now d) (d + 1)) }
{
    let end = usize::from(d);
    let mut n = 0;
    for t in 1..end + 1 {
        n += usize::from(point_at(lists, end, t));
    }
    n
}

// By the lists: what is short at t, of a task with budget c.
// (`as`, here and in `put_point`: usize has no From<u32>.)
fn short_in(lists: &TaskLists<'_>, c: u16, t: usize) -> usize
    requires { (t < length lists.now.curve.now) × (t < length lists.now.asks.now) }
    ensures { result ≡ short_in lists.now.curve.now lists.now.asks.now c t }
{
    let needs = usize::from(c) + lists.asks[t] as usize;
    needs.saturating_sub(lists.curve[t] as usize)
}

// Of a point and a lower tick the tighter point: on equals the lower.
fn tighter(lists: &TaskLists<'_>, c: u16, d: usize, t: usize, best: usize) -> usize
    requires { (t ≤ d) × (best ≤ d) × (d < length lists.now.curve.now) × (d < length lists.now.asks.now) }
    ensures { result ≡ pick (point_at lists.now.asks.now d t
        && leb (short_in lists.now.curve.now lists.now.asks.now c t)
        (short_in lists.now.curve.now lists.now.asks.now c best)) t best }
{
    if point_at(lists, d, t) {
        if short_in(lists, c, t) <= short_in(lists, c, best) {
            return t;
        }
    }
    best
}

// By the lists: the scheduling point with the smallest shortage, the lowest on equals, so points are tried from the deadline
// down.
fn tightest_in(lists: &TaskLists<'_>, c: u16, d: u16) -> usize
    requires { (1 ≤ d) × (d < length lists.now.curve.now) × (d < length lists.now.asks.now) }
    ensures { (result ≤ d) × (result ≡ first_least (point_in lists.now.asks.now d)
        (short_in lists.now.curve.now lists.now.asks.now c) (d + 1)) }
{
    let end = usize::from(d);
    let mut best = end;
    for t in (1..end).rev() {
        best = tighter(lists, c, end, t, best);
    }
    best
}

// A row's four numbers.
// (`as`: each number fits, and a TryFrom would bring a refusal that can't come.)
fn put_row(rows: &mut Output<'_, u32>, point: usize, demand: usize, least: usize, start: usize)
    requires { (rows.old.at < 2 ^ 32) × (point < 2 ^ 32) × (demand < 2 ^ 32) × (least < 2 ^ 32) × (start < 2 ^ 32) }
    ensures same_reference { rows.new.lent.ghost_name ≡ rows.old.lent.ghost_name }
    ensures put { Put rows.old.lent.now rows.old.at
        (point ∷ demand ∷ least ∷ start ∷ []) rows.new.at rows.new.lent.now }
{
    rows.put_all(&[point as u32, demand as u32, least as u32, start as u32]);
}

// The row of task i at tick t, where that is a scheduling point.
fn put_point(
    rule: Rule,
    plan: &[u16],
    tasks: &[u16],
    i: usize,
    lists: &TaskLists<'_>,
    t: usize,
    rows: &mut Output<'_, u32>,
)
    requires ready { Ready rule plan.now tasks.now i lists.now.curve.now lists.now.asks.now }
    requires in_reach { (1 ≤ t) × (t ≤ deadline tasks.now i) × (rows.old.at < 2 ^ 32) }
    ensures same_reference { rows.new.lent.ghost_name ≡ rows.old.lent.ghost_name }
    ensures put { Put rows.old.lent.now rows.old.at
        (row_at rule plan.now tasks.now i t) rows.new.at rows.new.lent.now }
{
    let d = usize::from(rules::records::deadline(tasks, i));
    if point_at(lists, d, t) {
        let p = usize::from(rules::records::partition(tasks, i));
        let c = usize::from(rules::records::budget(tasks, i));
        let needs = c + lists.asks[t] as usize;
        let has = lists.curve[t] as usize;
        let start = worst_start(rule, plan, p, t, has);
        put_row(rows, t, needs, has, start);
    }
}

// All rows of task i, in rising order of the points.
fn put_rows(
    rule: Rule,
    plan: &[u16],
    tasks: &[u16],
    i: usize,
    lists: &TaskLists<'_>,
    rows: &mut Output<'_, u32>,
)
    requires ready { Ready rule plan.now tasks.now i lists.now.curve.now lists.now.asks.now }
    requires low { rows.old.at < 2 ^ 31 }
    ensures same_reference { rows.new.lent.ghost_name ≡ rows.old.lent.ghost_name }
    ensures put { Put rows.old.lent.now rows.old.at
        (rows_of rule plan.now tasks.now i) rows.new.at rows.new.lent.now }
{
    let d = usize::from(rules::records::deadline(tasks, i));
    for t in 1..d + 1 {
        put_point(rule, plan, tasks, i, lists, t, rows);
    }
}

// Of task i, which fails, by its lists.
fn put_fail(
    rule: Rule,
    plan: &[u16],
    tasks: &[u16],
    i: usize,
    lists: &TaskLists<'_>,
    rows: &mut [u32],
) -> Result<Paged, Refusal>
    requires { Ready rule plan.now tasks.now i lists.now.curve.now lists.now.asks.now }
    ensures { (result ≡ fail_of rule plan.now tasks.now i (length rows.old))
        × (rows.new ≡ page_left result (rows_of rule plan.now tasks.now i) rows.old) }
{
    let c = rules::records::budget(tasks, i);
    let d = rules::records::deadline(tasks, i);
    let n = points_in(lists, d);
    if rows.len() < ROW_WIDTH * n {
        return Err(Refusal::Output);
    }
    put_rows(rule, plan, tasks, i, lists, &mut Output::new(rows));
    let tightest = tightest_in(lists, c, d);
    let shortage = short_in(lists, c, tightest);
    Ok(Paged::Fail {
        rows: n,
        tightest,
        shortage,
    })
}

// Of task i, in tables whose records are good: its lists are drawn once, for the verdict and for the page.
fn page_of(
    rule: Rule,
    plan: &[u16],
    tasks: &[u16],
    i: usize,
    rows: &mut [u32],
) -> Result<Paged, Refusal>
    requires { (length plan.now ≤ longest) × Judgeable tasks.now i }
    ensures { (result ≡ paged_by (pass_at (deadline tasks.now i) (task_point rule plan.now tasks.now i))
        (fail_of rule plan.now tasks.now i (length rows.old)))
        × (rows.new ≡ page_left result (rows_of rule plan.now tasks.now i) rows.old) }
{
    let mut curve = [0; TICKS];
    let mut asks = [0; TICKS];
    task_demand::draw_task(rule, plan, tasks, i, &mut curve, &mut asks);
    let lists = TaskLists {
        curve: &curve,
        asks: &asks,
    };
    let c = rules::records::budget(tasks, i);
    let d = rules::records::deadline(tasks, i);
    match task_points::point_in(&lists, c, d) {
        Some(point) => Ok(Paged::Pass(point)),
        None => put_fail(rule, plan, tasks, i, &lists, rows),
    }
}

// The page of the task at a place, counted from 1: four numbers a row, at the start of the list. A pass leaves the list as
// it was.
pub fn page(
    terms: Terms,
    plan: &[u16],
    parts: &[u16],
    table: &[u16],
    place: usize,
    rows: &mut [u32],
) -> Result<Paged, Refusal>
    ensures { Pages terms plan.now parts.now table.now place
        rows.old rows.new result }
{
    task_verdict::answerable(terms, plan, parts, table, place)?;
    let rule = rules::rule_of(terms.edition);
    page_of(rule, plan, table, place - 1, rows)
}
