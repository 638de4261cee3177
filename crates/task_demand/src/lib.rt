// What tasks ask of the ticks that serve their partition, in lists by the number of ticks: number t of the curve is least(t),
// number t of the asks is what the higher tasks of the partition ask of t ticks. With the task's own budget that is its
// demand.
#![tactic(auto)]

ghost use Rattle.std.specs.Prelude.{◌≡◌, ◌+◌, ◌^◌, ◌≤◌, ◌<◌, length};
ghost use Rattle.rules.specs.Inner.{AsNamed};
ghost use Rattle.rules.specs.Limits.{longest};
ghost use Rattle.rules.specs.Table.{partition};
ghost use Rattle.task_demand.specs.Inner.{Added, with_task, with_asked, all_asked, Small, SmallFrom, Zeros, InOrder, Judgeable, fits_at, Drawn, TriesTo, Earliest};

use rules::Rule;
use rules::limits::LONGEST;

pub const TICKS: usize = LONGEST + 1; // numbers of a list, for 0 to 4,096 ticks

// The lists of a task: of so many ticks its partition's curve, and what is asked of them.
#[derive(Clone, Copy)]
pub struct TaskLists<'a> {
    pub curve: &'a [u32],
    pub asks: &'a [u32],
}

// A number added to those from b to e - 1.
// (`as`: the number fits, and a TryFrom would bring a refusal that can't come.)
fn add_row(asks: &mut [u32], b: usize, e: usize, all: usize)
    requires { (b ≤ e) × (e ≤ length asks.old) × (all < 2 ^ 31) × SmallFrom b asks.old }
    ensures { Added all b e asks.old asks.new }
{
    for t in b..e {
        asks[t] += all as u32;
    }
}

// A task of budget c: "c times t/T, rounded up" is added to number t, for the first n. That is one c more from behind each
// multiple of T up to the next, so that nothing is divided.
// (A while, and t goes on to the row's end: `step_by` takes up to twice the time where periods are of a tick or two.)
fn add_task(asks: &mut [u32], n: usize, c: u16, period: u16)
    requires { (0 < period) × (c ≤ period) × (period ≤ longest) × (0 < n) × (n ≤ longest + 1)
        × (n ≤ length asks.old) × Small asks.old }
    ensures { AsNamed (with_task c period asks.old) n asks.old asks.new }
{
    let step = usize::from(period);
    let mut all = 0;
    let mut t = 1;
    while t < n {
        all += usize::from(c);
        let e = (t + step).min(n);
        add_row(asks, t, e, all);
        t = e;
    }
}

// What task j asks is added to the first n numbers, where it is of partition p.
pub fn ask_task(tasks: &[u16], p: u16, j: usize, asks: &mut [u32], n: usize)
    requires { InOrder tasks.now j × (0 < n) × (n ≤ longest + 1) × (n ≤ length asks.old) × Small asks.old }
    ensures { AsNamed (with_asked tasks.now p j asks.old) n
        asks.old asks.new }
{
    if rules::records::partition(tasks, j) == p {
        let c = rules::records::budget(tasks, j);
        let period = rules::records::period(tasks, j);
        add_task(asks, n, c, period);
    }
}

// What the higher tasks of the partition of i ask, in the first n numbers of a list of zeros.
fn ask_rivals(tasks: &[u16], i: usize, asks: &mut [u32], n: usize)
    requires { Judgeable tasks.now i × (0 < n) × (n ≤ longest + 1) × (n ≤ length asks.old) × Zeros asks.old }
    ensures { AsNamed (all_asked tasks.now (partition tasks.now i) i) n
        asks.old asks.new }
{
    let p = rules::records::partition(tasks, i);
    for j in 0..i {
        ask_task(tasks, p, j, asks, n);
    }
}

// The lists for task i, up to its deadline: its partition's curve, and what the higher tasks ask. They are lent: to hand out
// 32 kB costs ten times a short verdict.
pub fn draw_task(
    rule: Rule,
    plan: &[u16],
    tasks: &[u16],
    i: usize,
    curve: &mut [u32],
    asks: &mut [u32],
)
    requires { Judgeable tasks.now i × Zeros asks.old
        × (longest < length curve.old) × (longest < length asks.old) }
    ensures { Drawn rule plan.now tasks.now i curve.new asks.new }
{
    let n = usize::from(rules::records::deadline(tasks, i)) + 1;
    let p = usize::from(rules::records::partition(tasks, i));
    plan_curve::draw(rule, plan, p, curve, n);
    ask_rivals(tasks, i, asks, n);
}

// Whether demand(t) is at most least(t), of a task with budget c.
// (`as`: usize has no From<u32>.)
pub fn fits(lists: &TaskLists<'_>, c: u16, t: usize) -> bool
    requires { (t < length lists.now.curve.now) × (t < length lists.now.asks.now) }
    ensures { result ≡ fits_at lists.now.curve.now lists.now.asks.now c t }
{
    usize::from(c) + lists.asks[t] as usize <= lists.curve[t] as usize
}

// The lowest tick from 1 to d that passes a test.
#[tactic(auto, unfolding(crate::specs::Inner::TriesTo, crate::specs::Inner::Earliest))]
pub fn earliest<G: Fn(usize) -> bool>(d: u16, passes: G) -> Option<usize>
    requires { TriesTo (G.pre passes) d }
    ensures { Earliest (G.post passes) d result }
{
    for t in 1..usize::from(d) + 1 {
        if passes(t) {
            return Some(t);
        }
    }
    None
}
