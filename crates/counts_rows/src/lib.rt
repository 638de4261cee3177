// The list row by row: one partition's numbers, its count before each tick from 0 to F; filled, held against the plan, and
// looked up.
#![tactic(auto)]

ghost use Rattle.std.specs.Prelude.{◌≡◌, ◌+◌, ◌-◌, ◌*◌, ◌^◌, ◌≤◌, ◌<◌, length};
ghost use Rattle.rules.specs.Walk.{some, fails};
ghost use Rattle.rules.specs.Limits.{longest};
ghost use Rattle.rules.specs.Inner.{AsNamed};
ghost use Rattle.rules.specs.declared.Rule.TheVariants.{Own};
ghost use Rattle.theory.specs.Plan.{held};
ghost use Rattle.counts.specs.Counts.{row_width, count_at, agrees_at};
ghost use Rattle.counts.specs.Inner.{differs_at, Recounted, Kept};

// Where p's numbers begin, in a list that has them.
fn row_at(f: usize, p: usize) -> usize
    requires { (0 < p) × (p * (f + 1) < 2 ^ 63) }
    ensures { (result ≡ (p - 1) * (f + 1)) × (result + (f + 1) ≡ p * (f + 1)) }
{
    (p - 1) * (f + 1)
}

// p's count before the tick behind k, from that before k.
fn count_on(plan: &[u16], p: usize, k: usize, h: usize) -> usize
    requires { (k < length plan.now) × (h ≤ k) × (h ≡ held Own plan.now p k 0) }
    ensures { (result ≤ k + 1) × (result ≡ held Own plan.now p (k + 1) 0) }
{
    h + usize::from(usize::from(plan[k]) == p)
}

// p's numbers, counted from the plan; none are kept for idle.
// (`as`: a count fits, and a TryFrom would bring a refusal that can't come.)
pub fn fill_row(plan: &[u16], list: &mut [u16], p: usize)
    requires { (length plan.now ≤ longest) × (p * row_width plan.now ≤ length list.old) }
    ensures { Recounted plan.now p list.old list.new }
{
    if p == 0 {
        return;
    }
    let f = plan.len();
    let row = row_at(f, p);
    let mut h = 0;
    for k in 0..f {
        list[row + k] = h as u16;
        h = count_on(plan, p, k, h);
    }
    list[row + f] = h as u16;
}

// Every partition's.
pub fn fill_rows(plan: &[u16], list: &mut [u16], parts: usize)
    requires { (length plan.now ≤ longest) × (parts * row_width plan.now ≤ length list.old) }
    ensures { AsNamed (count_at plan.now) (parts * row_width plan.now)
        list.old list.new }
{
    for p in 0..parts {
        fill_row(plan, list, p + 1);
    }
}

// Whether one of p's numbers isn't the plan's.
// (Apart from `fill_row`, which writes and doesn't end early: the step that both share is `count_on`.)
#[tactic(auto, using(counts::proofs::Agree::agrees_here, counts::proofs::Agree::differs_last, rules::proofs::First::first_more))]
fn row_differs(plan: &[u16], list: &[u16], p: usize) -> bool
    requires { (0 < p) × (p * row_width plan.now ≤ length list.now) }
    ensures { result ≡ some (differs_at plan.now list.now p) (row_width plan.now) }
{
    let f = plan.len();
    let row = row_at(f, p);
    let mut h = 0;
    for k in 0..f {
        if usize::from(list[row + k]) != h {
            return true;
        }
        h = count_on(plan, p, k, h);
    }
    usize::from(list[row + f]) != h
}

// Whether one of any partition's.
#[tactic(auto, using(counts::proofs::Agree::rows_agree, counts::proofs::Agree::rows_differ, counts::proofs::Agree::all_agree))]
pub fn differs(plan: &[u16], list: &[u16], parts: usize) -> bool
    requires { parts * row_width plan.now ≤ length list.now }
    ensures { result ≡ some (fails (agrees_at plan.now list.now))
        (parts * row_width plan.now) }
{
    for p in 0..parts {
        if row_differs(plan, list, p + 1) {
            return true;
        }
    }
    false
}

// p's count before tick k, read from a list that has p's.
#[tactic(auto, using(counts::proofs::Look::look_at))]
fn count_before(plan: &[u16], list: &[u16], p: usize, k: usize) -> usize
    requires { Kept plan.now list.now p × (k ≤ length plan.now) }
    ensures { result ≡ held Own plan.now p k 0 }
{
    usize::from(list[row_at(plan.len(), p) + k])
}

// What a stretch holds, from two or three of p's numbers, for callers that know them to be the plan's.
#[tactic(auto, using(counts::proofs::Look::within, counts::proofs::Look::across, counts::proofs::Look::upto))]
pub fn look_up(plan: &[u16], list: &[u16], p: usize, s: usize, n: usize) -> usize
    requires { Kept plan.now list.now p × (s < length plan.now) × (n ≤ length plan.now) }
    ensures { result ≡ held Own plan.now p n s }
{
    let f = plan.len();
    let before = count_before(plan, list, p, s);
    if s + n <= f {
        return count_before(plan, list, p, s + n) - before;
    }
    count_before(plan, list, p, f) - before + count_before(plan, list, p, s + n - f)
}
