// Many questions in one lent list, each a partition, a start and a length: what tells against them, and their answers.
ghost use Rattle.std.specs.Prelude.{◌≡◌, ◌≤◌, ◌<◌, length};
ghost use Rattle.rules.specs.Inner.{AsNamed};
ghost use Rattle.rules.specs.declared.Refusal.TheVariants.{Asked, Beyond};
ghost use Rattle.tables.specs.Tables.{lowest};
ghost use Rattle.counts.specs.Counts.{asked, start, span, questions, names_one, within_frame, answer_at};
ghost use Rattle.counts.specs.Inner.{Answerable};

use crate::judging::{good_name, good_stretch};
use counts_rows::look_up;
use rules::Refusal;
use rules::limits::QUESTION_WIDTH;
use tables::lowest;

// A question's three numbers.
// (A type of its own: its numbers have another sense than those of others that are equal in form.)
#[derive(Clone, Copy)]
struct Question {
    asked: usize,
    start: usize,
    span: usize,
}

fn question_at(table: &[u16], k: usize) -> Question
    requires { k < questions table.now }
    ensures { (result.asked ≡ asked table.now k) × (result.start ≡ start table.now k) × (result.span ≡ span table.now k) }
{
    Question {
        asked: usize::from(table[QUESTION_WIDTH * k]),
        start: usize::from(table[QUESTION_WIDTH * k + 1]),
        span: usize::from(table[QUESTION_WIDTH * k + 2]),
    }
}

// (C lends the questions flat, so they stay flat: this is one line over them, under its definition's name.)
pub fn questions(table: &[u16]) -> usize
    ensures { result ≡ questions table.now }
{
    table.len() / QUESTION_WIDTH
}

// The lowest question that names no partition of the table: 8 with place 0.
pub fn judge_names(table: &[u16], parts: usize) -> Result<(), Refusal>
    ensures { result ≡ lowest Asked (names_one parts table.now) (questions table.now) }
{
    lowest(
        questions(table),
        |k| good_name(parts, question_at(table, k).asked),
    )
    .map_err(Refusal::Asked)
}

// The lowest question that starts outside a frame of f ticks or is longer: 26.
pub fn judge_stretches(table: &[u16], f: usize) -> Result<(), Refusal>
    ensures { result ≡ lowest Beyond (within_frame f table.now) (questions table.now) }
{
    lowest(questions(table), |k| {
        let stretch = question_at(table, k);
        good_stretch(f, stretch.start, stretch.span)
    })
    .map_err(Refusal::Beyond)
}

// The answers to the first n questions, for a caller that knows the list to be the plan's.
// (`as`: a count fits, and a TryFrom would bring a refusal that can't come.)
pub fn answer_all(plan: &[u16], list: &[u16], table: &[u16], answers: &mut [u16], n: usize)
    requires { Answerable plan.now list.now table.now n × (n ≤ length answers.old) }
    ensures { AsNamed (answer_at plan.now table.now) n
        answers.old answers.new }
{
    for k in 0..n {
        let q = question_at(table, k);
        answers[k] = look_up(plan, list, q.asked, q.start, q.span) as u16;
    }
}
