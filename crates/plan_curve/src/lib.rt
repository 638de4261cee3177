// The curve of least service: least(0) .. least(n) of one partition, worked out together. A worst stretch can be taken to
// start at the frame's first tick or right behind a run of ticks that serve the partition, so each of these starts is walked
// once, for all lengths.
#![tactic(auto)]

ghost use Rattle.std.specs.Prelude.{◌≡◌, true, ◌+◌, ◌-◌, ◌%◌, ◌^◌, ◌≤◌, ◌<◌, length};
ghost use Rattle.rules.specs.Inner.{AsNamed};
ghost use Rattle.theory.specs.Plan.{held, least};
ghost use Rattle.plan_curve.specs.Curve.{DrawsCurve, start_tried};
ghost use Rattle.plan_curve.specs.Inner.{most, lower_at, lower_from, LoweredOn, Framed, Repeats};

use plan_service::{serves_at, service_at};
use rules::{Refusal, Rule};

const FEW: usize = 64; // numbers; a frame within the limits has fewer divisors

// Whether stretches from tick s on are tried: it is the frame's first tick, or stands right behind ticks that serve p.
#[tactic(auto, unfolding(crate::specs::Curve::start_tried))]
fn start_tried(rule: Rule, plan: &[u16], p: usize, s: usize) -> bool
    requires { s < length plan.now }
    ensures { result ≡ start_tried rule plan.now p s }
{
    if s == 0 {
        return true;
    }
    if service_at(rule, plan, s) == p {
        return false;
    }
    service_at(rule, plan, s - 1) == p
}

// How many of t ticks of a plan with f can serve p at most; of an empty one every tick is idle.
// (0 is how many, as in the definition: no Option.)
#[tactic(auto, unfolding(crate::specs::Inner::most))]
fn most(f: usize, p: usize, t: usize) -> usize
    ensures { (result ≤ t) × (result ≡ most f p t) }
{
    if f == 0 {
        return if p == 0 { t } else { 0 };
    }
    t
}

// The first n numbers before any start is tried.
// (`as`, here and in `lower_row`: the number fits, and a TryFrom would bring a refusal that can't come.)
fn begin(f: usize, p: usize, list: &mut [u32], n: usize)
    requires { (n ≤ 2 ^ 32) × (n ≤ length list.old) }
    ensures { AsNamed (most f p) n list.old list.new }
{
    for t in 0..n {
        list[t] = most(f, p, t) as u32;
    }
}

// Numbers b to e - 1 lowered to what as many ticks from tick s on hold: those that enter stand in a row in the frame, from
// place `at` on. h is what b ticks hold, the answer what e hold.
fn lower_row(
    rule: Rule,
    plan: &[u16],
    p: usize,
    s: usize,
    at: usize,
    list: &mut [u32],
    b: usize,
    e: usize,
    h: usize,
) -> usize
    requires { (at ≡ (s + b) % length plan.now) × (b ≤ e) × (e ≤ 2 ^ 32) × (e ≤ length list.old)
        × (at + (e - b) ≤ length plan.now) × (h ≡ held rule plan.now p b s) }
    ensures { (result ≡ held rule plan.now p e s)
        × LoweredOn rule plan.now p s b e list.old list.new }
{
    let mut all = h;
    for t in b..e {
        list[t] = list[t].min(all as u32);
        all += usize::from(serves_at(rule, plan, p, at + (t - b)));
    }
    all
}

// Each of the first n numbers, no more than the frame has ticks and one, lowered to what as many ticks from tick s on hold:
// up to the frame's end, and on from its start.
fn lower_from(rule: Rule, plan: &[u16], p: usize, s: usize, list: &mut [u32], n: usize)
    requires { (s < length plan.now) × (n ≤ length plan.now + 1) × (n ≤ 2 ^ 32) × (n ≤ length list.old) }
    ensures { AsNamed (lower_from rule plan.now p s list.old) n
        list.old list.new }
{
    let e = n.min(plan.len() - s);
    let h = lower_row(rule, plan, p, s, s, list, 0, e, 0);
    if e < n {
        lower_row(rule, plan, p, s, 0, list, e, n, h);
    }
}

// The same, where a worst stretch may start at s.
#[tactic(auto, unfolding(crate::specs::Inner::lower_at))]
fn lower_at(rule: Rule, plan: &[u16], p: usize, s: usize, list: &mut [u32], n: usize)
    requires { (s < length plan.now) × (n ≤ length plan.now + 1) × (n ≤ 2 ^ 32) × (n ≤ length list.old) }
    ensures { AsNamed (lower_at rule plan.now p s list.old) n
        list.old list.new }
{
    if start_tried(rule, plan, p, s) {
        lower_from(rule, plan, p, s, list, n);
    }
}

// Within a frame and one tick: least(0) .. least(n - 1), into the first n numbers of the list.
fn draw_frame(rule: Rule, plan: &[u16], p: usize, list: &mut [u32], n: usize)
    requires { Framed (length plan.now) n × (n ≤ 2 ^ 32) × (n ≤ length list.old) }
    ensures { AsNamed (least rule plan.now p) n list.old list.new }
{
    let f = plan.len();
    begin(f, p, list, n);
    for s in 0..f {
        lower_at(rule, plan, p, s, list, n);
    }
}

// How many of n numbers are drawn within a frame of f and one tick; of an empty plan all.
fn within_frame(f: usize, n: usize) -> usize
    requires { f < 2 ^ 63 }
    ensures { (result ≤ n) × Framed f result × (result < n → (0 < f) × (result ≡ f + 1)) }
{
    if f == 0 {
        return n;
    }
    n.min(f + 1)
}

// least(0) .. least(n - 1): a frame more holds as much more as a frame holds, whatever its start.
fn draw_frames(rule: Rule, plan: &[u16], p: usize, list: &mut [u32], n: usize)
    requires { (n ≤ 2 ^ 32) × (n ≤ length list.old) }
    ensures { AsNamed (least rule plan.now p) n list.old list.new }
{
    let f = plan.len();
    let k = within_frame(f, n);
    draw_frame(rule, plan, p, list, k);
    for t in k..n {
        list[t] = list[t - f] + list[f];
    }
}

// Whether the ticks that serve p repeat after m ticks, as often as these go into the frame, and the first m serve p alike by
// themselves, where the last of them stands before the first. Only a yes promises something.
fn repeats(rule: Rule, plan: &[u16], p: usize, m: usize) -> bool
    requires { (0 < m) × (m ≤ length plan.now) }
    ensures { result ≡ true → Repeats rule plan.now p m }
{
    if plan.len() % m != 0 {
        return false;
    }
    if serves_at(rule, &plan[..m], p, 0) != serves_at(rule, plan, p, 0) {
        return false;
    }
    for k in 0..plan.len() - m {
        if serves_at(rule, plan, p, k + m) != serves_at(rule, plan, p, k) {
            return false;
        }
    }
    true
}

// The fewest ticks after which those that serve p repeat, the frame itself at most; promised is that they do.
// (No Option: the frame itself is one, so there is always an answer.)
fn shortest(rule: Rule, plan: &[u16], p: usize) -> usize
    ensures { (result ≤ length plan.now) × Repeats rule plan.now p result }
{
    let f = plan.len();
    for m in 1..=f / 2 {
        if repeats(rule, plan, p, m) {
            return m;
        }
    }
    f
}

// The ticks to take for the frame: a few numbers are drawn sooner than a shorter frame is found.
fn frame_for(rule: Rule, plan: &[u16], p: usize, n: usize) -> usize
    ensures { (result ≤ length plan.now) × Repeats rule plan.now p result }
{
    if n < FEW {
        return plan.len();
    }
    shortest(rule, plan, p)
}

// least(0) .. least(n - 1), into the first n numbers of the list. The ticks that serve p repeat after m, so the plan's first
// m ticks have the same curve.
pub fn draw(rule: Rule, plan: &[u16], p: usize, list: &mut [u32], n: usize)
    requires { (n ≤ 2 ^ 32) × (n ≤ length list.old) }
    ensures { AsNamed (least rule plan.now p) n list.old list.new }
{
    let m = frame_for(rule, plan, p, n);
    draw_frames(rule, &plan[..m], p, list, n);
}

// least(0) .. least(n) of partition p by an edition, at the start of the list.
// (An edition stays a number: C gives it so, and a wrong one is refused with 2. `as`: usize has no From<u32>.)
#[tactic(auto, unfolding(crate::specs::Curve::curve_of))]
pub fn curve(
    edition: usize,
    plan: &[u16],
    p: u16,
    n: u32,
    list: &mut [u32],
) -> Result<usize, Refusal>
    ensures { DrawsCurve edition plan.now p n list.old list.new result }
{
    let rule = Rule::try_from(edition)?;
    let needed = (n as usize) + 1;
    if list.len() < needed {
        return Err(Refusal::Output);
    }
    draw(rule, plan, usize::from(p), list, needed);
    Ok(needed)
}
