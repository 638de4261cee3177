// A plan as runs and as ticks.
#![tactic(auto)]

ghost use Rattle.std.specs.Prelude.{◌≡◌, [], ◌∷◌, ◌+◌, ◌≤◌, ◌<◌, ◌^◌, replicate, eqb};
ghost use Rattle.rules.specs.Walk.{pick};
ghost use Rattle.output.specs.Put.{Put};
ghost use Rattle.file_runs.specs.Ticks.{ticks_put, runs_put};

use output::Output;
use rules::limits::{LONGEST, RUN_NUMBERS};

// The ticks of one run.
fn put_ticks(out: &mut Output<'_, u16>, owner: u16, n: usize)
    requires { (out.old.at < 2 ^ 40) × (n < 2 ^ 16) }
    ensures same_reference { out.new.lent.ghost_name ≡ out.old.lent.ghost_name }
    ensures put { Put out.old.lent.now out.old.at (replicate n owner) out.new.at out.new.lent.now }
    ensures long { out.new.at ≡ out.old.at + n }
{
    for _ in 0..n {
        out.put(owner);
    }
}

// The ticks of a table of runs, as far as there is room. The answer is how many there are.
// (0 is how many, here and in `runs_of`, no Option: `ticks_put` and `runs_put` have none there.)
pub fn ticks_of(runs: &[u16], out: &mut [u16]) -> usize
    ensures { Put out.old 0 (ticks_put runs.now) result out.new }
{
    if RUN_NUMBERS < runs.len() {
        return 0;
    }
    let mut ticks = Output::new(out);
    for k in 0..file_tables::runs(runs) {
        let long = usize::from(file_tables::run_length(runs, k));
        put_ticks(&mut ticks, file_tables::run_owner(runs, k), long);
    }
    ticks.at
}

// The length of the run that goes on, with the tick t behind it.
fn next_long(owner: u16, long: u16, t: u16) -> u16
    requires { long < 65535 }
    ensures { (result ≡ pick (eqb t owner) (long + 1) 1) × (1 ≤ result) × (result ≤ long + 1) }
{
    if t == owner {
        return long + 1;
    }
    1
}

fn put_run(out: &mut Output<'_, u16>, owner: u16, long: u16)
    requires { out.old.at < 2 ^ 40 }
    ensures same_reference { out.new.lent.ghost_name ≡ out.old.lent.ghost_name }
    ensures put { Put out.old.lent.now out.old.at (owner ∷ long ∷ []) out.new.at out.new.lent.now }
{
    out.put_all(&[owner, long]);
}

// The run that the tick t ends, if it ends one.
fn put_ended(out: &mut Output<'_, u16>, owner: u16, long: u16, t: u16)
    requires { out.old.at < 2 ^ 40 }
    ensures same_reference { out.new.lent.ghost_name ≡ out.old.lent.ghost_name }
    ensures put { Put out.old.lent.now out.old.at
        (pick (eqb t owner) [] (owner ∷ long ∷ [])) out.new.at out.new.lent.now }
    ensures short { out.new.at ≤ out.old.at + 2 }
{
    if t != owner {
        put_run(out, owner, long);
    }
}

// The runs of a plan's ticks, as far as there is room. The answer is how many numbers they have.
pub fn runs_of(plan: &[u16], out: &mut [u16]) -> usize
    ensures { Put out.old 0 (runs_put plan.now) result out.new }
{
    let n = plan.len();
    if LONGEST < n {
        return 0;
    }
    if n < 1 {
        return 0;
    }
    let mut runs = Output::new(out);
    let mut owner = plan[0];
    let mut long = 1u16;
    for k in 1..n {
        let t = plan[k];
        put_ended(&mut runs, owner, long, t);
        long = next_long(owner, long, t);
        owner = t;
    }
    put_run(&mut runs, owner, long);
    runs.at
}
