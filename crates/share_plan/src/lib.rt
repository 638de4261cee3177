// From a share table as text to the bytes of its plan file, in the edition asked for, or to one line that says why there is none.
#![tactic(auto)]

ghost use Rattle.std.specs.Prelude.{◌≡◌, ◌≤◌, [], Err, max, length};
ghost use Rattle.output.specs.Put.{Put};
ghost use Rattle.rules.specs.Limits.{longest_line};
ghost use Rattle.share_plan.specs.Answer.{Plans, answer_by, edition_asked};

use output::put_refusal;
use plan_file::put_file_or_line;
use rules::limits::{PART_NUMBERS, TASK_NUMBERS};
use rules::{Refusal, Terms};
use share_line::expected::put_expected;
use share_text::Unread;

mod plan_file; // plan_file.rt: the plan file of two tables, or the line of its refusal

// The line that says why there is nothing to plan, at the start of `out`. The answer is its length.
// (A slice, no Output: it is a whole output, and nothing is asked of a place in it.)
fn put_unread(out: &mut [u8], unread: Unread) -> usize
    ensures { Put out.old 0 (answer_by (Err unread) []) result out.new
        × (result ≤ longest_line) }
{
    match unread {
        Unread::Expected(e) => put_expected(out, e.line, e.what),
        Unread::Refused(r) => put_refusal(out, r),
    }
}

// Puts what the program writes at the start of `out`, as far as there is room. The answer is its length.
// (An edition stays a number: the file says it so, and a wrong one is refused with 2.)
pub fn plan(edition: usize, text: &[u8], out: &mut [u8]) -> usize
    ensures plans { Plans edition text.now out.old out.new result }
    ensures fits { result ≤ max longest_line (length out.old) }
{
    if !rules::good_edition(edition) {
        return put_unread(out, Unread::Refused(Refusal::Edition));
    }
    let mut parts = [0u16; PART_NUMBERS];
    let mut tasks = [0u16; TASK_NUMBERS];
    let read = share_text::read(text, &mut parts, &mut tasks);
    match read {
        Ok(n) => {
            let terms = Terms {
                edition,
                granule: n.granule,
            };
            put_file_or_line(terms, &parts[..n.partitions], &tasks[..n.tasks], out)
        }
        Err(unread) => put_unread(out, unread),
    }
}

// One more than any number that a word says.
const NO_NUMBER: usize = u16::MAX as usize + 1;

// The edition that a program of so many words, its own name among them, is asked for by the one behind its name; a number that is
// no edition where that word says no number, or where there are more.
// (A number, no Option, as the contract has it: the planner refuses with 2 what is no edition.)
#[tactic(auto, unfolding(crate::specs::Answer::edition_asked))]
pub fn edition_asked(words: usize, word: &[u8]) -> usize
    ensures { result ≡ edition_asked words word.now }
{
    match words {
        1 => 1,
        2 => share_words::numbers::numeral(word).map_or(NO_NUMBER, usize::from),
        _ => 0,
    }
}
