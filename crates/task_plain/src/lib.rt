// The plain engine, to be followed with a pencil: every tick from 1 to the deadline is tried, in turn.
#![tactic(auto)]

ghost use Rattle.std.specs.Prelude.{◌≡◌, ◌+◌, ◌<◌, length};
ghost use Rattle.rules.specs.Walk.{first};
ghost use Rattle.theory.specs.Task.{task_tick};
ghost use Rattle.rules.specs.Table.{deadline};
ghost use Rattle.task_demand.specs.Inner.{Judgeable, in_time};
ghost use Rattle.task_plain.specs.Inner.{tick_fits};

use rules::Rule;
use task_demand::{TICKS, TaskLists, draw_task, fits};

// By the lists: the smallest tick that holds, of a task with budget c and deadline d.
// (A loop of its own, apart from `earliest`: this engine is there to be held against the other.)
pub fn tick_in(lists: &TaskLists<'_>, c: u16, d: u16) -> Option<usize>
    requires { (d < length lists.now.curve.now) × (d < length lists.now.asks.now) }
    ensures { result ≡ in_time d (first (tick_fits lists.now.curve.now lists.now.asks.now c) (d + 1)) }
{
    for t in 1..usize::from(d) + 1 {
        if fits(lists, c, t) {
            return Some(t);
        }
    }
    None
}

// The smallest tick that holds. (Apart from `first_point`: one function over both would take the search as a closure over two
// lent lists, and be no plainer.)
pub fn first_tick(rule: Rule, plan: &[u16], tasks: &[u16], i: usize) -> Option<usize>
    requires { Judgeable tasks.now i }
    ensures { result ≡ in_time (deadline tasks.now i) (task_tick rule plan.now tasks.now i) }
{
    let mut curve = [0; TICKS];
    let mut asks = [0; TICKS];
    draw_task(rule, plan, tasks, i, &mut curve, &mut asks);
    let lists = TaskLists {
        curve: &curve,
        asks: &asks,
    };
    let c = rules::records::budget(tasks, i);
    let d = rules::records::deadline(tasks, i);
    tick_in(&lists, c, d)
}
