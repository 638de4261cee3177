// The service of a plan, by a rule of which owned ticks serve: what a stretch holds, and the least over all stretches.
#![tactic(auto)]

ghost use Rattle.std.specs.Prelude.{◌≡◌, ◌+◌, ◌%◌, ◌^◌, ◌≤◌, ◌<◌, eqb, length};
ghost use Rattle.theory.specs.Plan.{service, held, HeldIs, least, LeastIs, worst_start};
ghost use Rattle.plan_service.specs.Inner.{Counted};

use rules::{Refusal, Rule};

// The partition that the tick at a place of the frame serves, or 0 for none.
// (0, no Option, as the definition has it; a match, here and in `serves_at`, no closure: the theorems are over a `Rule`.)
pub fn service_at(rule: Rule, plan: &[u16], at: usize) -> usize
    requires { at < length plan.now }
    ensures { result ≡ service rule plan.now at }
{
    let owner = usize::from(plan[at]);
    match rule {
        Rule::Own => owner,
        Rule::Switching => {
            let behind = rules::numbers::before(at, plan.len());
            if usize::from(plan[behind]) == owner {
                return owner;
            }
            0
        }
    }
}

// Whether the tick at a place of the frame serves p. Most ticks are another's, and the tick before such a one isn't looked
// at.
pub fn serves_at(rule: Rule, plan: &[u16], p: usize, at: usize) -> bool
    requires { at < length plan.now }
    ensures { result ≡ eqb (service rule plan.now at) p }
{
    match rule {
        Rule::Own => service_at(rule, plan, at) == p,
        Rule::Switching => {
            if usize::from(plan[at]) != p && p != 0 {
                return false;
            }
            service_at(rule, plan, at) == p
        }
    }
}

// How many of the n ticks from place a of the frame on serve p, up to the frame's end at most, in a row.
fn walked(rule: Rule, plan: &[u16], p: usize, n: usize, a: usize) -> usize
    requires { a + n ≤ length plan.now }
    ensures { (result ≤ n) × (result ≡ held rule plan.now p n a) }
{
    let mut h = 0;
    for k in 0..n {
        h += usize::from(serves_at(rule, plan, p, a + k));
    }
    h
}

// The same from tick s on, across the frame's end too: at most a frame of ticks.
fn joined(rule: Rule, plan: &[u16], p: usize, n: usize, s: usize) -> usize
    requires { (0 < length plan.now) × (n ≤ length plan.now) }
    ensures { (result ≤ n) × (result ≡ held rule plan.now p n s) }
{
    let a = s % plan.len();
    let left = plan.len() - a;
    if n <= left {
        return walked(rule, plan, p, n, a);
    }
    walked(rule, plan, p, left, a) + walked(rule, plan, p, n - left, 0)
}

// The same of any number of ticks, in a plan that has some: whole frames are counted once.
fn counted(rule: Rule, plan: &[u16], p: usize, n: usize, s: usize) -> usize
    requires { 0 < length plan.now }
    ensures { result ≡ held rule plan.now p n s }
{
    let f = plan.len();
    if n < f {
        return joined(rule, plan, p, n, s);
    }
    let over = n % f;
    let h = joined(rule, plan, p, over, s);
    let frame = h + joined(rule, plan, p, f - over, s % f + over);
    n / f * frame + h
}

// The same of any plan: of an empty one every tick is idle.
// (0 is how many, as in the definition: no Option.)
fn held_from(rule: Rule, plan: &[u16], p: usize, n: usize, s: usize) -> usize
    ensures { result ≡ held rule plan.now p n s }
{
    if plan.len() == 0 {
        return if p == 0 { n } else { 0 };
    }
    counted(rule, plan, p, n, s)
}

// What a stretch holds by an edition, of numbers as a caller has them: the ticks that serve p among the n from tick s on.
// (An edition stays a number, here and in `least`: C gives it so, and a wrong one is refused with 2.)
// (`as`, here and in `least_by`: usize has no From<u32>.)
pub fn held(edition: usize, plan: &[u16], p: u16, s: u32, n: u32) -> Result<usize, Refusal>
    ensures { HeldIs edition plan.now p s n result }
{
    let rule = Rule::try_from(edition)?;
    Ok(held_from(rule, plan, usize::from(p), n as usize, s as usize))
}

// A stretch on the walk over starts: how many of its ticks serve some partition, and the place in the frame of the tick
// behind it, which enters next. Its length stands there for the contracts alone.
// (A type of its own: its numbers have another sense than those of others that are equal in form.)
#[derive(Clone, Copy)]
pub struct Stretch {
    pub length: usize,
    pub held: usize,
    pub enters: usize,
}

// The place of tick t in the frame (of an empty plan t itself).
fn place(plan: &[u16], t: usize) -> usize
    ensures { result ≡ t % length plan.now }
{
    if plan.len() == 0 {
        return t;
    }
    t % plan.len()
}

// The stretch of n ticks from tick s on, counted; both are of 32 bits, as callers have them, so that no sum can wrap.
pub fn stretch_from(rule: Rule, plan: &[u16], p: usize, n: usize, s: usize) -> Stretch
    requires { (n < 2 ^ 32) × (s < 2 ^ 32) }
    ensures { (result.length ≡ n) × Counted rule plan.now p s result }
{
    Stretch {
        length: n,
        held: held_from(rule, plan, p, n, s),
        enters: place(plan, s + n),
    }
}

// The stretch that starts behind tick s: the tick that enters is added, the tick that leaves is taken off.
pub fn next_stretch(rule: Rule, plan: &[u16], p: usize, s: usize, stretch: Stretch) -> Stretch
    requires { (stretch.length < 2 ^ 32) × (s < length plan.now) × Counted rule plan.now p s stretch }
    ensures { (result.length ≡ stretch.length) × Counted rule plan.now p (s + 1) result }
{
    let enters = stretch.enters;
    let next = rules::numbers::after(enters, plan.len());
    let more = usize::from(serves_at(rule, plan, p, enters));
    let less = usize::from(serves_at(rule, plan, p, s));
    Stretch {
        held: stretch.held + more - less,
        enters: next,
        ..stretch
    }
}

// The smallest number of ticks that serve p in any t consecutive ticks: one stretch is counted, the others follow from it.
// (Apart from `worst_start`, which ends at the first start that holds so few: this one goes on to the end.)
pub fn least_by(rule: Rule, plan: &[u16], p: u16, t: u32) -> usize
    ensures { result ≡ least rule plan.now p t }
{
    let owner = usize::from(p);
    let f = plan.len();
    let mut stretch = stretch_from(rule, plan, owner, t as usize, 0);
    let mut best = stretch.held;
    for s in 0..f {
        best = best.min(stretch.held);
        stretch = next_stretch(rule, plan, owner, s, stretch);
    }
    best
}

// The lowest start from which t ticks hold no more than `low`, which is the least; an empty plan's is its tick 0.
// (A number in every case, as in the definition: no Option.)
pub fn worst_start(rule: Rule, plan: &[u16], p: usize, t: usize, low: usize) -> usize
    requires { (t < 2 ^ 32) × (low ≡ least rule plan.now p t) }
    ensures { (result ≤ length plan.now) × (result ≡ worst_start rule plan.now p t) }
{
    let mut stretch = stretch_from(rule, plan, p, t, 0);
    for s in 0..plan.len() {
        if stretch.held == low {
            return s;
        }
        stretch = next_stretch(rule, plan, p, s, stretch);
    }
    plan.len()
}

// The least number by an edition.
pub fn least(edition: usize, plan: &[u16], p: u16, t: u32) -> Result<usize, Refusal>
    ensures { LeastIs edition plan.now p t result }
{
    let rule = Rule::try_from(edition)?;
    Ok(least_by(rule, plan, p, t))
}
