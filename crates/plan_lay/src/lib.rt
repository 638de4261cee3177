// The harmonic rule's plan, laid into the caller's output turn by turn.
#![tactic(auto)]

ghost use Rattle.std.specs.Prelude.{◌≡◌, ◌+◌, ◌≤◌, ◌<◌, length, set, eqb};
ghost use Rattle.rules.specs.Walk.{pick, only};
ghost use Rattle.rules.specs.Table.{partitions};
ghost use Rattle.rules.specs.Terms.{wanted};
ghost use Rattle.rules.specs.Inner.{AsNamed};
ghost use Rattle.theory.specs.Harmonic.{give, turn, planned};
ghost use Rattle.plan_lay.specs.Inner.{tick_of, given_tick, Layable};
ghost use Rattle.theory.specs.Inner.{idle};

use order::taken;
use rules::Terms;

mod order; // order.rt: by rising cycle, equal cycles by place

// The first h ticks made idle.
fn clear(out: &mut [u16], h: usize)
    requires { h ≤ length out.old }
    ensures { AsNamed idle h out.old out.new }
{
    out[..h].fill(0);
}

// One tick with `seen` idle ticks before it in its cycle: p gets it where it is idle and they are fewer than q.
// The answer: the idle ticks up to it.
#[tactic(auto, unfolding(rules::specs::Walk::only))]
fn give_tick(out: &mut [u16], t: usize, p: u16, q: usize, seen: usize) -> usize
    requires { (t < length out.old) × (seen ≤ t) }
    ensures { (result ≡ seen + only (eqb (tick_of out.old t) 0) 1)
        × (out.new ≡ set out.old t (given_tick p q seen (tick_of out.old t))) }
{
    if out[t] != 0 {
        return seen;
    }
    if q <= seen {
        return seen + 1;
    }
    out[t] = p;
    seen + 1
}

// What was seen in the cycle: nothing where a new one begins.
fn seen_from(at: usize, seen: usize) -> usize
    ensures { result ≡ pick (eqb at 0) 0 seen }
{
    if at == 0 { 0 } else { seen }
}

// In each cycle of m, counted from tick 0, p gets the q earliest idle ticks.
fn give(out: &mut [u16], h: usize, p: u16, q: usize, m: usize)
    requires { (h ≤ length out.old) × (0 < m) }
    ensures { AsNamed (give p q m (tick_of out.old)) h out.old out.new }
{
    let mut seen = 0;
    let mut at = 0;
    for t in 0..h {
        let met = give_tick(out, t, p, q, seen);
        at = rules::numbers::after(at, m);
        seen = seen_from(at, met);
    }
}

// The turn of the partition that is taken after r others.
// (`as`: the place fits, and a TryFrom would bring a refusal that can't come.)
fn turn(terms: Terms, parts: &[u16], out: &mut [u16], h: usize, r: usize)
    requires { Layable parts.now × (r < partitions parts.now) × (h ≤ length out.old) }
    ensures { AsNamed
        (turn (wanted terms parts.now) parts.now r (tick_of out.old)) h
        out.old out.new }
{
    let k = taken(parts, r);
    let q = rules::records::wanted(terms, parts, k);
    let m = usize::from(rules::records::cycle(parts, k));
    give(out, h, (k + 1) as u16, q, m);
}

// The whole plan, in the first h ticks.
pub fn lay(terms: Terms, parts: &[u16], out: &mut [u16], h: usize)
    requires { Layable parts.now × (h ≤ length out.old) }
    ensures { AsNamed
        (planned (wanted terms parts.now) parts.now (partitions parts.now)) h
        out.old out.new }
{
    clear(out, h);
    for r in 0..rules::records::partitions(parts) {
        turn(terms, parts, out, h, r);
    }
}
