// The listing of a plan file: read and judged once, its plan checked once for all its tasks.
#![tactic(auto)]

ghost use Rattle.std.specs.Prelude.{◌≡◌, ◌≤◌, length};
ghost use Rattle.rules.specs.Limits.{longest_listing};
ghost use Rattle.rules.specs.Terms.{filed, rule_of, wanted};
ghost use Rattle.plan_check.specs.Check.{scan_of, check_of};
ghost use Rattle.file_runs.specs.Ticks.{ticks_of};
ghost use Rattle.output.specs.Put.{Put};
ghost use Rattle.file_listing.specs.Listing.{tables_lines, listing_of, Lists};
ghost use Rattle.file_page.specs.Inner.{GoodRecords};
ghost use Rattle.file_listing.specs.Inner.{Listable};

use file_read::load::load_file;
use output::Output;
use rules::Refusal;
use rules::limits::{
    LONGEST, LONGEST_LISTING, PART_NUMBERS, PART_WIDTH, RUN_NUMBERS, RUN_WIDTH, TASK_NUMBERS,
    TASK_WIDTH,
};

// The file's tables are judged already: of the plan only 9 is left.
// (A slice, no Output, here and in `put_tables`: it is a whole output. The edition is a number, as the file gives it.)
#[tactic(auto, unfolding(crate::specs::Listing::tables_lines))]
fn put_checked(
    edition: usize,
    frame: usize,
    plan: &[u16],
    parts: &[u16],
    table: &[u16],
    out: &mut [u8],
) -> usize
    requires good_records { GoodRecords parts.now table.now }
    requires judged { check_of (filed edition) plan.now parts.now
        ≡ scan_of (rule_of edition) (wanted (filed edition) parts.now) plan.now parts.now }
    ensures { Put out.old 0
        (tables_lines edition frame plan.now parts.now table.now) result out.new
        × (result ≤ longest_listing) }
{
    let rule = rules::rule_of(edition);
    match plan_check::scan(rule, rules::filed(edition), plan, parts) {
        Ok(()) => file_page::put_page(rule, frame, plan, parts, table, out),
        Err(r) => output::put_refusal(out, r),
    }
}

// The tables of an accepted file: its runs as ticks.
fn put_tables(
    edition: usize,
    frame: usize,
    parts: &[u16],
    table: &[u16],
    runs: &[u16],
    out: &mut [u8],
) -> usize
    requires { Listable edition frame parts.now table.now runs.now }
    ensures { Put out.old 0
        (tables_lines edition frame (ticks_of runs.now) parts.now table.now)
        result out.new
        × (result ≤ longest_listing) }
{
    let mut plan = [0u16; LONGEST];
    file_runs::ticks_of(runs, &mut plan);
    put_checked(edition, frame, &plan[..frame], parts, table, out)
}

// Puts the listing of a file's bytes at the start of the output, as far as there is room. The answer is its length.
pub fn compose(file: &[u8], out: &mut [u8]) -> usize
    ensures { Put out.old 0 (listing_of file.now) result out.new
        × (result ≤ longest_listing) }
{
    let mut parts = [0u16; PART_NUMBERS];
    let mut tasks = [0u16; TASK_NUMBERS];
    let mut runs = [0u16; RUN_NUMBERS];
    match load_file(file, &mut parts, &mut tasks, &mut runs) {
        Ok(c) => {
            let p = PART_WIDTH * c.partitions;
            let t = TASK_WIDTH * c.tasks;
            let r = RUN_WIDTH * c.runs;
            put_tables(
                c.edition,
                c.frame,
                &parts[..p],
                &tasks[..t],
                &runs[..r],
                out,
            )
        }
        Err(r) => output::put_refusal(out, r),
    }
}

// The listing of a file's bytes, at the start of the output. An output of LONGEST_LISTING bytes is long enough for any.
pub fn listing(file: &[u8], out: &mut [u8]) -> Result<usize, Refusal>
    ensures lists { Lists file.now out.old out.new result }
    ensures fits { length (listing_of file.now) ≤ longest_listing }
{
    let mut page = [0u8; LONGEST_LISTING];
    let n = compose(file, &mut page);
    if out.len() < n {
        return Err(Refusal::Output);
    }
    Output::new(out).put_all(&page[..n]);
    Ok(n)
}
