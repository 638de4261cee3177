// The engine over scheduling points: the smallest of them that holds.
#![tactic(auto)]

ghost use Rattle.std.specs.Prelude.{◌≡◌, ◌+◌, ◌≤◌, ◌<◌, length};
ghost use Rattle.rules.specs.Walk.{first};
ghost use Rattle.theory.specs.Task.{task_point};
ghost use Rattle.rules.specs.Table.{deadline};
ghost use Rattle.task_demand.specs.Inner.{Judgeable, in_time};
ghost use Rattle.task_points.specs.Inner.{point_at, point_fits};

use rules::Rule;
use task_demand::{TICKS, TaskLists, draw_task, earliest, fits};

// Whether t is a scheduling point, of a task with deadline d: t is d itself, or a multiple of a higher task's period. Behind
// these alone more is asked.
#[tactic(auto, unfolding(crate::specs::Inner::point_at))]
pub fn point_at(lists: &TaskLists<'_>, d: usize, t: usize) -> bool
    requires { (t ≤ d) × (d < length lists.now.asks.now) }
    ensures { result ≡ point_at lists.now.asks.now d t }
{
    t == d || lists.asks[t] < lists.asks[t + 1]
}

// Whether t is a scheduling point, and holds; few ticks hold, so that is looked at first.
fn point_fits(lists: &TaskLists<'_>, c: u16, d: usize, t: usize) -> bool
    requires { (1 ≤ t) × (t ≤ d) × (d < length lists.now.curve.now) × (d < length lists.now.asks.now) }
    ensures { result ≡ point_fits lists.now.curve.now lists.now.asks.now c d t }
{
    fits(lists, c, t) && point_at(lists, d, t)
}

// By the lists: the smallest scheduling point that holds, of a task with budget c and deadline d.
pub fn point_in(lists: &TaskLists<'_>, c: u16, d: u16) -> Option<usize>
    requires { (d < length lists.now.curve.now) × (d < length lists.now.asks.now) }
    ensures { result ≡ in_time d (first (point_fits lists.now.curve.now lists.now.asks.now c d) (d + 1)) }
{
    earliest(d, |t| point_fits(lists, c, usize::from(d), t))
}

// The smallest scheduling point that holds.
// (Apart from `first_tick`, as said there.)
pub fn first_point(rule: Rule, plan: &[u16], tasks: &[u16], i: usize) -> Option<usize>
    requires { Judgeable tasks.now i }
    ensures { result ≡ in_time (deadline tasks.now i) (task_point rule plan.now tasks.now i) }
{
    let mut curve = [0; TICKS];
    let mut asks = [0; TICKS];
    draw_task(rule, plan, tasks, i, &mut curve, &mut asks);
    let lists = TaskLists {
        curve: &curve,
        asks: &asks,
    };
    let c = rules::records::budget(tasks, i);
    let d = rules::records::deadline(tasks, i);
    point_in(&lists, c, d)
}
