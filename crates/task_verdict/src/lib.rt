// The verdict: whether a task passes, by either engine. One that passes meets its deadline in every legal run.
#![tactic(auto)]

ghost use Rattle.std.specs.Prelude.{◌≡◌, ◌-◌};
ghost use Rattle.rules.specs.Terms.{rule_in, wanted};
ghost use Rattle.task_verdict.specs.Verdict.{place_of, answerable_of, Judges, JudgesPlainly};
ghost use Rattle.task_verdict.specs.Inner.{Asked, Found};

use rules::{Refusal, Rule, Terms};

// What is found for a place counted from 1, in tables whose records are good.
fn at_place(
    terms: Terms,
    plan: &[u16],
    parts: &[u16],
    table: &[u16],
    place: usize,
) -> Result<(), Refusal>
    ensures { result ≡ place_of (rule_in terms) (wanted terms parts.now) plan.now parts.now
        table.now place }
{
    if place < 1 {
        return Err(Refusal::Task(0));
    }
    if rules::records::tasks(table) < place {
        return Err(Refusal::Task(0));
    }
    plan_check::check_plan(terms, plan, parts)
}

// Whether a verdict is given for a place, or why it is refused.
pub fn answerable(
    terms: Terms,
    plan: &[u16],
    parts: &[u16],
    table: &[u16],
    place: usize,
) -> Result<(), Refusal>
    ensures { result ≡ answerable_of terms plan.now parts.now table.now place }
{
    tables::judge_tables(terms, plan.len(), parts, table)?;
    at_place(terms, plan, parts, table, place)
}

// What an engine finds for the task at a place, counted from 1, by the rule of the edition.
fn judge<E: Fn(Rule, usize) -> Option<usize>>(
    terms: Terms,
    plan: &[u16],
    parts: &[u16],
    table: &[u16],
    place: usize,
    engine: E,
) -> Result<Option<usize>, Refusal>
    requires { Asked table.now (E.pre engine (rule_in terms)) }
    ensures { Found (answerable_of terms plan.now parts.now table.now place)
        (E.post engine (rule_in terms) (place - 1)) result }
{
    answerable(terms, plan, parts, table, place)?;
    let rule = rules::rule_of(terms.edition);
    Ok(engine(rule, place - 1))
}

// Whether the task at a place, counted from 1, passes: by its scheduling points.
pub fn verdict(
    terms: Terms,
    plan: &[u16],
    parts: &[u16],
    table: &[u16],
    place: usize,
) -> Result<Option<usize>, Refusal>
    ensures { Judges terms plan.now parts.now table.now place result }
{
    judge(terms, plan, parts, table, place, |rule, i| {
        task_points::first_point(rule, plan, table, i)
    })
}

// The same by the plain engine, tick by tick.
// (Apart from `verdict`: C calls both, and each is `judge` with its own engine.)
pub fn plain(
    terms: Terms,
    plan: &[u16],
    parts: &[u16],
    table: &[u16],
    place: usize,
) -> Result<Option<usize>, Refusal>
    ensures { JudgesPlainly terms plan.now parts.now table.now place result }
{
    judge(terms, plan, parts, table, place, |rule, i| {
        task_plain::first_tick(rule, plan, table, i)
    })
}
