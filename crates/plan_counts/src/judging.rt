// What tells against a call over running counts, in one order: 3, 6, 8, 8 with place 0, 12, 20, 26.
ghost use Rattle.std.specs.Prelude.{◌≡◌};
ghost use Rattle.counts.specs.Counts.{unless_good, plan_judged, list_judged, counts_judged, good_name, good_stretch};
ghost use Rattle.counts.specs.Inner.{Sized};

use counts_rows::differs;
use rules::Refusal;
use rules::records::partitions;

// Refused where a test fails: a bool has no `ok_or`.
pub fn unless_good(good: bool, refusal: Refusal) -> Result<(), Refusal>
    ensures { result ≡ unless_good good refusal }
{
    if good { Ok(()) } else { Err(refusal) }
}

// Whether p is a partition of the table; there are no numbers for idle.
#[tactic(auto, unfolding(counts::specs::Counts::good_name))]
pub fn good_name(parts: usize, p: usize) -> bool
    ensures { result ≡ good_name parts p }
{
    1 <= p && p <= parts
}

// Whether a stretch starts in a frame of f ticks and is no longer.
#[tactic(auto, unfolding(counts::specs::Counts::good_stretch))]
pub fn good_stretch(f: usize, s: usize, n: usize) -> bool
    ensures { result ≡ good_stretch f s n }
{
    s < f && n <= f
}

// 3, 6 and 8: the ticks are walked only where the frame is within its limits.
#[tactic(auto, using(tables::proofs::Chain::found_err, tables::proofs::Chain::found_ok), unfolding(counts::specs::Counts::plan_judged))]
pub fn judge_plan(plan: &[u16], parts: &[u16]) -> Result<(), Refusal>
    ensures { result ≡ plan_judged plan.now parts.now }
{
    tables::judge_partitions(rules::filed(1), plan.len(), parts)?;
    tables::judge_ticks(plan, parts)
}

// 12 and 20.
// (`enough` is a bool, here and in `judge_call`: a fact that is handed on, no switch of steps.)
#[tactic(auto, unfolding(counts::specs::Counts::list_judged))]
fn judge_list(plan: &[u16], parts: &[u16], list: &[u16], enough: bool) -> Result<(), Refusal>
    requires { Sized plan.now parts.now }
    ensures { result ≡ list_judged plan.now parts.now list.now enough }
{
    let n = partitions(parts);
    if list.len() < n * (plan.len() + 1) || !enough {
        return Err(Refusal::Output);
    }
    if differs(plan, list, n) {
        return Err(Refusal::Counts);
    }
    Ok(())
}

// All of them: `named` is what is found of the partition or owner named, `within` of the tick or stretch, and `enough` says
// whether the call's other output is long enough. The list is walked only where its length is known to be small.
#[tactic(auto, using(tables::proofs::Chain::found_err, tables::proofs::Chain::found_ok), unfolding(counts::specs::Counts::counts_judged))]
pub fn judge_call(
    plan: &[u16],
    parts: &[u16],
    list: &[u16],
    named: Result<(), Refusal>,
    enough: bool,
    within: Result<(), Refusal>,
) -> Result<(), Refusal>
    ensures { result ≡ counts_judged plan.now parts.now list.now named enough within }
{
    judge_plan(plan, parts)?;
    named?;
    judge_list(plan, parts, list, enough)?;
    within
}
