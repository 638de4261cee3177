// The builder: the harmonic rule's plan, written into the caller's ticks.
#![tactic(auto)]

ghost use Rattle.std.specs.Prelude.{◌≡◌, ◌≤◌};
ghost use Rattle.rules.specs.Limits.{most_granule, most_partitions};
ghost use Rattle.rules.specs.Table.{partitions};
ghost use Rattle.rules.specs.Terms.{wanted};
ghost use Rattle.plan_build.specs.Build.{laid_of, build_of, Builds};

use rules::limits::LONGEST;
use rules::{Refusal, Terms};
use table::{all_wanted, frame, unharmonic};

mod table; // table.rt: what a table asks for

// The answer for a good table and an output of so many ticks.
#[tactic(auto, unfolding(crate::specs::Build::laid_of))]
fn lay_answer(terms: Terms, parts: &[u16], room: usize) -> Result<usize, Refusal>
    requires { (terms.granule ≤ most_granule) × (partitions parts.now ≤ most_partitions) }
    ensures { result ≡ laid_of (wanted terms parts.now) parts.now room }
{
    if unharmonic(parts) {
        return Err(Refusal::Unharmonic);
    }
    let h = frame(parts);
    if h < all_wanted(terms, parts, h) {
        return Err(Refusal::Want);
    }
    if room < h {
        return Err(Refusal::Output);
    }
    Ok(h)
}

// The answer for an output of so many ticks.
#[tactic(auto, unfolding(crate::specs::Build::build_of))]
fn build_answer(terms: Terms, parts: &[u16], room: usize) -> Result<usize, Refusal>
    ensures { result ≡ build_of terms parts.now room }
{
    tables::judge_partitions(terms, LONGEST, parts)?;
    lay_answer(terms, parts, room)
}

// The harmonic rule's plan, written into the first ticks of `out`.
pub fn build(terms: Terms, parts: &[u16], out: &mut [u16]) -> Result<usize, Refusal>
    ensures { Builds terms parts.now out.old out.new result }
{
    let h = build_answer(terms, parts, out.len())?;
    plan_lay::lay(terms, parts, out, h);
    Ok(h)
}
