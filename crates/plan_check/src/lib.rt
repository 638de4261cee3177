// The checker: whether every stretch of a plan holds what each partition wants.
#![tactic(auto)]

ghost use Rattle.std.specs.Prelude.{◌≡◌};
ghost use Rattle.rules.specs.Terms.{rule_in, wanted};
ghost use Rattle.plan_check.specs.Check.{scan_of, plan_check_of, Checks};

use rules::{Refusal, Rule, Terms};

// Refusal 9 alone: the lowest partition's lowest start whose stretch holds too little. It is public for a caller
// whose plan is judged already, as the listing's is by the reader. (Document 01 names the form: two loops, left by a label.)
pub fn scan(rule: Rule, terms: Terms, plan: &[u16], parts: &[u16]) -> Result<(), Refusal>
    ensures { result ≡ scan_of rule (wanted terms parts.now) plan.now parts.now }
{
    let mut found = Ok(());
    'scan: for k in 0..rules::records::partitions(parts) {
        let m = usize::from(rules::records::cycle(parts, k));
        let q = rules::records::wanted(terms, parts, k);
        let mut stretch = plan_service::stretch_from(rule, plan, k + 1, m, 0);
        for s in 0..plan.len() {
            if stretch.held < q {
                found = Err(Refusal::Shortfall {
                    partition: k + 1,
                    start: s,
                    held: stretch.held,
                    wanted: q,
                });
                break 'scan;
            }
            stretch = plan_service::next_stretch(rule, plan, k + 1, s, stretch);
        }
    }
    found
}

// Refusals 8 and 9, of tables whose numbers are within their limits.
#[tactic(auto, unfolding(crate::specs::Check::plan_check_of))]
pub fn check_plan(terms: Terms, plan: &[u16], parts: &[u16]) -> Result<(), Refusal>
    ensures { result ≡ plan_check_of (rule_in terms) (wanted terms parts.now) plan.now parts.now }
{
    tables::judge_ticks(plan, parts)?;
    scan(rules::rule_of(terms.edition), terms, plan, parts)
}

// Whether the plan serves the table.
#[tactic(auto, unfolding(crate::specs::Check::check_of))]
pub fn check(terms: Terms, plan: &[u16], parts: &[u16]) -> Result<(), Refusal>
    ensures { Checks terms plan.now parts.now result }
{
    tables::judge_partitions(terms, plan.len(), parts)?;
    check_plan(terms, plan, parts)
}
