// The record that a line says, or what was expected in it first.
ghost use Rattle.std.specs.Prelude.{◌≡◌, ◌||◌};
ghost use Rattle.share_line.specs.Rows.{granule_row, part_row, task_row, record_of, row_of, closes, is_wrong, what_of};
ghost use Rattle.share_line.specs.Inner.{BeginsWithNumber, BeginsWithSlash, Ends, Judged};

use crate::{Row, What};
use share_words::numbers::first_number;
use share_words::words::{Comment, after_word, begins_with, find_stop, no_word};

// The number that words begin with, and what stands behind it.
fn number(l: &[u8]) -> Result<(u16, &[u8]), What>
    ensures { BeginsWithNumber l.now result }
{
    let n = first_number(l).ok_or(What::Number)?;
    Ok((n, after_word(l)))
}

// What stands behind the slash that words begin with.
fn slash(l: &[u8]) -> Result<&[u8], What>
    ensures { BeginsWithSlash l.now result }
{
    if begins_with(l, b"/") {
        return Ok(after_word(l));
    }
    Err(What::Slash)
}

fn end(l: &[u8]) -> Result<(), What>
    ensures { Ends l.now result }
{
    if no_word(l) {
        return Ok(());
    }
    Err(What::End)
}

// `G`, behind the word `granule`.
#[tactic(auto, unfolding(crate::specs::Rows::granule_row))]
fn granule_row(l: &[u8]) -> Result<Row, What>
    ensures { result ≡ granule_row l.now }
{
    let (granule, l) = number(l)?;
    end(l)?;
    Ok(Row::Granule(granule))
}

// `CYCLE NUM/DEN`, behind the word `partition`.
#[tactic(auto, unfolding(crate::specs::Rows::part_row))]
fn part_row(l: &[u8]) -> Result<Row, What>
    ensures { result ≡ part_row l.now }
{
    let (cycle, l) = number(l)?;
    let (num, l) = number(l)?;
    let l = slash(l)?;
    let (den, l) = number(l)?;
    end(l)?;
    Ok(Row::Partition { cycle, num, den })
}

// `PARTITION C D T`, behind the word `task`.
#[tactic(auto, unfolding(crate::specs::Rows::task_row))]
fn task_row(l: &[u8]) -> Result<Row, What>
    ensures { result ≡ task_row l.now }
{
    let (partition, l) = number(l)?;
    let (budget, l) = number(l)?;
    let (deadline, l) = number(l)?;
    let (period, l) = number(l)?;
    end(l)?;
    Ok(Row::Task {
        partition,
        budget,
        deadline,
        period,
    })
}

// A line of words: none, or the record that its first word names.
#[tactic(auto, unfolding(crate::specs::Rows::record_of))]
fn record_of(l: &[u8]) -> Result<Row, What>
    ensures { result ≡ record_of l.now }
{
    if no_word(l) {
        return Ok(Row::Nothing);
    }
    if begins_with(l, b"granule") {
        return granule_row(after_word(l));
    }
    if begins_with(l, b"partition") {
        return part_row(after_word(l));
    }
    if begins_with(l, b"task") {
        return task_row(after_word(l));
    }
    Err(What::Record)
}

#[tactic(auto, unfolding(crate::specs::Rows::row_of))]
pub fn row_of(line: &[u8]) -> Result<Row, What>
    ensures { result ≡ row_of line.now }
{
    let e = find_stop::<Comment>(line);
    record_of(&line[..e])
}

// Whether a granule comes too late behind this row: so it was before it, or the row closes it.
// (`closed` is a bool, here and below: a fact that goes along from row to row, no switch of steps.)
pub fn closed_behind(closed: bool, row: Result<Row, What>) -> bool
    ensures { result ≡ closes row || closed }
{
    match row {
        Ok(Row::Granule(_)) | Ok(Row::Partition { .. }) => true,
        Ok(Row::Nothing) | Ok(Row::Task { .. }) | Err(_) => closed,
    }
}

// Whether a row can't be read, or gives the granule behind one that closes it.
pub fn is_wrong(closed: bool, row: Result<Row, What>) -> bool
    ensures { result ≡ is_wrong closed row }
{
    match row {
        Ok(Row::Granule(_)) => closed,
        Ok(_) => false,
        Err(_) => true,
    }
}

// What was expected in a wrong row.
// (Apart from `is_wrong`: one tests a row, the other says what is told of it.)
pub fn what_of(row: Result<Row, What>) -> What
    ensures { result ≡ what_of row }
{
    match row {
        Ok(Row::Granule(_)) => What::EarlyGranule,
        Ok(_) => What::End,
        Err(what) => what,
    }
}

// A row behind others: whether a granule comes too late behind it, or what was expected in it, where it is wrong.
pub fn judged(closed: bool, row: Result<Row, What>) -> Result<bool, What>
    ensures { Judged closed row result }
{
    if is_wrong(closed, row) {
        return Err(what_of(row));
    }
    Ok(closed_behind(closed, row))
}
