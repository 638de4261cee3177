// The numbers of each kind: gathered, counted, and held to the lent tables' room.
ghost use Rattle.std.specs.Prelude.{◌≡◌, ◌≤◌, length};
ghost use Rattle.std.proofs.lemmas.List.Edits.{sets};
ghost use Rattle.share_text.specs.Table.{part_in, task_in, records_of, longest_text, numbers_of, sized_of, read_text_of};

use crate::lines::{first_wrong, next_line, row_at};
use crate::{LONGEST_TEXT, Numbers, Unread};
use output::Output;
use rules::Refusal;
use share_line::Row;

// The granule that a line gives, or 1, and how many numbers the partitions and the tasks have: these are put into their
// tables, as far as there is room.
// (A while: each line says where the next one begins.)
pub fn gather(text: &[u8], parts: &mut [u16], tasks: &mut [u16]) -> Numbers
    requires { length text.now ≤ longest_text }
    ensures { (result ≡ numbers_of text.now)
        × (parts.new ≡ sets parts.old 0 (records_of part_in text.now))
        × (tasks.new ≡ sets tasks.old 0 (records_of task_in text.now)) }
{
    let mut granule = None;
    let mut p = Output::new(parts);
    let mut q = Output::new(tasks);
    let mut at = 0;
    while at < text.len() {
        let row = row_at(text, at);
        at = next_line(text, at);
        match row {
            Ok(Row::Granule(g)) => granule = granule.or(Some(g)),
            Ok(Row::Partition { cycle, num, den }) => p.put_all(&[cycle, num, den]),
            Ok(
                Row::Task {
                    partition,
                    budget,
                    deadline,
                    period,
                },
            ) => q.put_all(&[partition, budget, deadline, period]),
            Ok(Row::Nothing) => {}
            Err(_) => {}
        }
    }
    Numbers {
        granule: usize::from(granule.unwrap_or(1)),
        partitions: p.at,
        tasks: q.at,
    }
}

// The same, where the lent tables have room for so many numbers.
#[tactic(auto, unfolding(crate::specs::Table::sized_of))]
fn sized(text: &[u8], parts: usize, tasks: usize) -> Result<Numbers, Refusal>
    requires { length text.now ≤ longest_text }
    ensures { result ≡ sized_of text.now parts tasks }
{
    let numbers = gather(text, &mut [], &mut []);
    if parts < numbers.partitions {
        return Err(Refusal::Limits);
    }
    if tasks < numbers.tasks {
        return Err(Refusal::Limits);
    }
    Ok(numbers)
}

// What `read` answers, for lent tables of so many numbers.
#[tactic(auto, unfolding(crate::specs::Table::read_text_of))]
pub fn read_of(text: &[u8], parts: usize, tasks: usize) -> Result<Numbers, Unread>
    ensures { result ≡ read_text_of text.now parts tasks }
{
    if LONGEST_TEXT < text.len() {
        return Err(Unread::Refused(Refusal::Limits));
    }
    first_wrong(text)?;
    Ok(sized(text, parts, tasks)?)
}
