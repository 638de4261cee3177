// The point and the tick of every task of a table, partition by partition: one curve for each partition that has tasks, and
// what its tasks ask, kept up from task to task.
#![tactic(auto)]

ghost use Rattle.std.specs.Prelude.{◌≡◌, ◌≤◌, ◌<◌, length};
ghost use Rattle.rules.specs.Limits.{longest, most_tasks};
ghost use Rattle.rules.specs.Walk.{largest, Every};
ghost use Rattle.rules.specs.Table.{deadline, tasks, good_task};
ghost use Rattle.task_all.specs.Inner.{deadline_in, times_by, times_of, marked, FoundAs, JudgedIn, JudgeableAll, NoTick};

use plan_curve::draw;
use rules::Rule;
use task_demand::{TICKS, TaskLists, ask_task};
use task_plain::tick_in;
use task_points::point_in;

// Where a task passes: its scheduling point and its tick. (No deadline is longer than 16 bits say; so a listing's stack stays.)
// (A type of its own: its numbers have another sense than those of others that are equal in form.)
#[derive(Clone, Copy)]
pub struct Times {
    pub point: u16,
    pub tick: u16,
}

// The deadline of task j, where it is of partition p, else 0.
// (0, no Option, here and in `longest_deadline`: the definitions have it, and no good task has that deadline.)
fn deadline_in(table: &[u16], p: u16, j: usize) -> usize
    ensures { result ≡ deadline_in table.now p j }
{
    if rules::records::partition(table, j) == p {
        return usize::from(rules::records::deadline(table, j));
    }
    0
}

// The longest deadline of p's tasks, 0 where it has none.
fn longest_deadline(table: &[u16], p: u16) -> usize
    ensures { result ≡ largest (deadline_in table.now p) (tasks table.now) }
{
    let mut d = 0;
    for j in 0..rules::records::tasks(table) {
        d = deadline_in(table, p, j).max(d);
    }
    d
}

// By the lists: where task j passes.
fn times_in(lists: &TaskLists<'_>, table: &[u16], j: usize) -> Option<Times>
    requires { (deadline table.now j ≤ longest)
        × (longest < length lists.now.curve.now) × (longest < length lists.now.asks.now) }
    ensures { result ≡ times_by lists.now.curve.now lists.now.asks.now table.now j }
{
    let c = rules::records::budget(table, j);
    let d = rules::records::deadline(table, j);
    let point = point_in(lists, c, d)?;
    let tick = tick_in(lists, c, d)?;
    Some(Times {
        point: point as u16,
        tick: tick as u16,
    })
}

// By the lists: what is found for task j, where it is of partition p, at its place.
fn judge_task(lists: &TaskLists<'_>, table: &[u16], p: u16, j: usize, found: &mut [Option<Times>])
    requires { (deadline table.now j ≤ longest) × (j < length found.old)
        × (longest < length lists.now.curve.now) × (longest < length lists.now.asks.now) }
    ensures { found.new ≡ marked table.now p j
        (times_by lists.now.curve.now lists.now.asks.now table.now j) found.old }
{
    if rules::records::partition(table, j) == p {
        found[j] = times_in(lists, table, j);
    }
}

// All of p's tasks, where it has any.
fn judge_partition(rule: Rule, plan: &[u16], table: &[u16], p: u16, found: &mut [Option<Times>])
    requires { JudgeableAll table.now × (tasks table.now ≤ length found.old) }
    ensures { JudgedIn rule plan.now table.now p found.old found.new }
{
    let d = longest_deadline(table, p);
    if d == 0 {
        return;
    }
    let mut curve = [0; TICKS];
    let mut asks = [0; TICKS];
    draw(rule, plan, usize::from(p), &mut curve, d + 1);
    for j in 0..rules::records::tasks(table) {
        let lists = TaskLists {
            curve: &curve,
            asks: &asks,
        };
        judge_task(&lists, table, p, j, found);
        ask_task(table, p, j, &mut asks, d + 1);
    }
}

// What is found for every task, at the task's place: its point and its tick, or that it fails.
pub fn judge_all(rule: Rule, plan: &[u16], table: &[u16], parts: u16, found: &mut [Option<Times>])
    requires { (tasks table.now ≤ most_tasks) × Every (good_task parts table.now) (tasks table.now)
        × (tasks table.now ≤ length found.old) }
    ensures found { FoundAs (times_of rule plan.now table.now) (tasks table.now) found.old found.new }
    ensures no_tick { NoTick rule plan.now table.now found.new }
{
    for p in 0..parts {
        judge_partition(rule, plan, table, p + 1, found);
    }
}
