// The running counts kept beside a plan: filled from it, asked for any stretch, and changed with it.
#![tactic(auto)]

ghost use Rattle.std.specs.Prelude.{◌≡◌, List, ℕ, ◌*◌, ◌^◌, ◌≤◌, ◌<◌, length, get_or, set};
ghost use Rattle.rules.specs.Limits.{longest};
ghost use Rattle.counts.specs.Counts.{row_width, fill_of, FillsCounts, HoldsOne, many_of, HoldsMany, change_of, Changes};
ghost use Rattle.counts.specs.Inner.{Recounted};

use counts_rows::{fill_row, fill_rows, look_up};
use judging::{good_name, good_stretch, judge_call, judge_plan, unless_good};
use questions::{answer_all, judge_names, judge_stretches, questions};
use rules::Refusal;
use rules::limits::QUESTION_WIDTH;
use rules::records::partitions;

mod judging; // judging.rt: the one chain of refusals, 3, 6, 8, 8 with place 0, 12, 20 and 26
mod questions; // questions.rt: many questions in one lent list

// The plan's counts, written into the first numbers of the list.
#[tactic(auto, using(tables::proofs::Chain::found_err, tables::proofs::Chain::found_ok), unfolding(counts::specs::Counts::fill_of))]
pub fn fill(plan: &[u16], parts: &[u16], list: &mut [u16]) -> Result<usize, Refusal>
    ensures { FillsCounts plan.now parts.now list.old list.new result }
{
    judge_plan(plan, parts)?;
    let n = partitions(parts);
    let needed = n * (plan.len() + 1);
    if list.len() < needed {
        return Err(Refusal::Output);
    }
    fill_rows(plan, list, n);
    Ok(needed)
}

// What a stretch holds, from two or three numbers of the list: p's ticks among the n from tick s on.
#[tactic(auto, using(tables::proofs::Chain::found_err, tables::proofs::Chain::found_ok, counts::proofs::Asking::one_looks), unfolding(counts::specs::Counts::held_of))]
pub fn held(
    plan: &[u16],
    parts: &[u16],
    list: &[u16],
    p: usize,
    s: usize,
    n: usize,
) -> Result<usize, Refusal>
    ensures { HoldsOne plan.now parts.now list.now p s n result }
{
    let named = unless_good(good_name(partitions(parts), p), Refusal::Asked(0));
    let within = unless_good(good_stretch(plan.len(), s, n), Refusal::Beyond(0));
    judge_call(plan, parts, list, named, true, within)?;
    Ok(look_up(plan, list, p, s, n))
}

// What many stretches hold: the list is judged once, then each answer is two or three numbers of it.
#[tactic(auto, using(tables::proofs::Chain::found_err, tables::proofs::Chain::found_ok), unfolding(counts::specs::Counts::many_of))]
pub fn held_many(
    plan: &[u16],
    parts: &[u16],
    list: &[u16],
    asked: &[u16],
    answers: &mut [u16],
) -> Result<usize, Refusal>
    ensures { HoldsMany plan.now parts.now list.now asked.now
        answers.old answers.new result }
{
    if asked.len() % QUESTION_WIDTH != 0 {
        return Err(Refusal::Limits);
    }
    let n = questions(asked);
    let named = judge_names(asked, partitions(parts));
    let within = judge_stretches(asked, plan.len());
    judge_call(plan, parts, list, named, n <= answers.len(), within)?;
    answer_all(plan, list, asked, answers, n);
    Ok(n)
}

// The tick given to its new owner, and both owners' numbers counted again.
// (`as`: the owner fits, and a TryFrom would bring a refusal that can't come.)
fn give(plan: &mut [u16], list: &mut [u16], tick: usize, owner: usize)
    requires { (tick < length plan.old) × (length plan.old ≤ longest) × (owner < 2 ^ 16)
        × (owner * row_width plan.old ≤ length list.old)
        × (get_or plan.old tick 0 * row_width plan.old ≤ length list.old) }
    ensures { (plan.new ≡ set plan.old tick owner)
        × ((between : List ℕ)
        × Recounted plan.new (get_or plan.old tick 0) list.old between
        × Recounted plan.new owner between list.new) }
{
    let old = usize::from(plan[tick]);
    plan[tick] = owner as u16;
    fill_row(plan, list, old);
    fill_row(plan, list, owner);
}

// One tick's owner, changed in plan and list.
#[tactic(auto, using(tables::proofs::Chain::found_err, tables::proofs::Chain::found_ok), unfolding(counts::specs::Counts::change_of))]
pub fn change(
    plan: &mut [u16],
    parts: &[u16],
    list: &mut [u16],
    tick: usize,
    owner: usize,
) -> Result<(), Refusal>
    ensures { Changes plan.old parts.now list.old tick owner
        plan.new list.new result }
{
    let named = unless_good(owner <= partitions(parts), Refusal::Asked(0));
    let within = unless_good(tick < plan.len(), Refusal::Beyond(0));
    judge_call(plan, parts, list, named, true, within)?;
    give(plan, list, tick, owner);
    Ok(())
}
