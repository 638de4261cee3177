// The rules that every call shares: limits, tables behind accessors, the terms of a call, and why it refuses.
#![tactic(auto)]

ghost use Rattle.std.specs.Prelude.{◌≡◌};
ghost use Rattle.rules.specs.Refusals.{told, telling, placed, questioned, binding_kind, binding_job};
ghost use Rattle.rules.specs.declared.Refusal.TheVariants.{NoPlace};
ghost use Rattle.rules.specs.Terms.{good_edition, rule_of, rule_given, filed};

use limits::NEWEST_EDITION;

pub mod limits; // limits.rt: every limit and width by name
pub mod numbers; // numbers.rt: the places after and before in a round
pub mod records; // records.rt: the tables behind accessors, and ticks wanted

// Which deadline binds the room of a place: the request's own, or that of a listed job, counted from 0 after dropping.
// (No Option, here and in `Explanation`: `TickBreaks` and `NoPlaceNowhere` have the cases by name.)
#[derive(Clone, Copy)]
pub enum Binding {
    Own,
    Listed(usize),
}

// Why no place has room: there is none at all, or the roomiest one, its room and what binds it.
#[derive(Clone, Copy)]
pub enum Explanation {
    Nowhere,
    Roomiest {
        place: usize,
        room: usize,
        binding: Binding,
    },
}

// Why a call refuses: document 01's table, from 1 to 18, and 20, 21 and 26 of document 02, by which 19 is gone.
#[derive(Clone, Copy)]
pub enum Refusal {
    Short,
    Edition,
    Limits,
    Offset,
    Length,
    Partition(usize),
    Task(usize),
    Tick(usize),
    Asked(usize),
    Shortfall {
        partition: usize,
        start: usize,
        held: usize,
        wanted: usize,
    },
    Unharmonic,
    Want,
    Output,
    Rules,
    Numbers,
    Past,
    Busy,
    Full,
    NoPlace(Explanation),
    Counts,
    Granule,
    Beyond(usize),
}

// A refusal as the paper tells it: its number, and what is returned beside it.
// (Numbers, no enum, here and where one is made below: C is told a number and five values, by the documents' tables.)
#[repr(C)]
#[derive(Clone, Copy)]
pub struct Told {
    pub number: usize,
    pub first: usize,
    pub second: usize,
    pub third: usize,
    pub fourth: usize,
    pub fifth: usize,
}

// Which of the ticks that a partition owns serve it: all of them, or all but switch ticks.
#[derive(Clone, Copy)]
pub enum Rule {
    Own,
    Switching,
}

// The terms of a call: what is given with it besides its tables and its plan.
// (An edition stays a number, here and below: C and files give it so, and a wrong one is refused with 2.)
// (A type of its own: its numbers have another sense than those of others that are equal in form.)
#[derive(Clone, Copy)]
pub struct Terms {
    pub edition: usize,
    pub granule: usize,
}

// (Apart from tables' `good_granule`: a range each, under the definitions' names; one function would be no plainer.)
#[tactic(auto, unfolding(crate::specs::Terms::good_edition))]
pub fn good_edition(edition: usize) -> bool
    ensures { result ≡ good_edition edition }
{
    1 <= edition && edition <= NEWEST_EDITION
}

// Which owned ticks serve, by an edition.
// (The definition has a rule for every number, so no Result; `try_from` is for one that isn't judged yet.)
pub fn rule_of(edition: usize) -> Rule
    ensures { result ≡ rule_of edition }
{
    if edition == 1 {
        return Rule::Own;
    }
    Rule::Switching
}

// The rule by which an edition's ticks serve, or 2 of a number that is no edition.
impl TryFrom<usize> for Rule {
    type Error = Refusal;

    ghost try_from_gives = { λ edition r. r ≡ rule_given edition };

    fn try_from(edition: usize) -> Result<Self, Refusal> {
        if !good_edition(edition) {
            return Err(Refusal::Edition);
        }
        Ok(rule_of(edition))
    }
}

// The terms of a file, which has an edition and no granule.
// (No From: a number alone wouldn't say that it is an edition.)
pub fn filed(edition: usize) -> Terms
    ensures { result ≡ filed edition }
{
    Terms {
        edition,
        granule: 1,
    }
}

impl From<Refusal> for Told {
    ghost from_gives = { λ r t. t ≡ told r };

    fn from(r: Refusal) -> Told {
        match r {
            Refusal::Short => numbered(1, 0),
            Refusal::Edition => numbered(2, 0),
            Refusal::Limits => numbered(3, 0),
            Refusal::Offset => numbered(4, 0),
            Refusal::Length => numbered(5, 0),
            Refusal::Partition(place) => numbered(6, place),
            Refusal::Task(place) => numbered(7, place),
            Refusal::Tick(place) => numbered(8, place),
            Refusal::Asked(question) => questioned(8, question),
            Refusal::Shortfall {
                partition,
                start,
                held,
                wanted,
            } => telling(9, partition, start, held, wanted),
            Refusal::Unharmonic => numbered(10, 0),
            Refusal::Want => numbered(11, 0),
            Refusal::Output => numbered(12, 0),
            Refusal::Rules => numbered(13, 0),
            Refusal::Numbers => numbered(14, 0),
            Refusal::Past => numbered(15, 0),
            Refusal::Busy => numbered(16, 0),
            Refusal::Full => numbered(17, 0),
            Refusal::NoPlace(why) => explained(why),
            Refusal::Counts => numbered(20, 0),
            Refusal::Granule => numbered(21, 0),
            Refusal::Beyond(question) => questioned(26, question),
        }
    }
}

fn telling(number: usize, first: usize, second: usize, third: usize, fourth: usize) -> Told
    ensures { result ≡ telling number first second third fourth }
{
    Told {
        number,
        first,
        second,
        third,
        fourth,
        fifth: 0,
    }
}

fn numbered(number: usize, place: usize) -> Told
    ensures { result ≡ placed number place }
{
    telling(number, place, 0, 0, 0)
}

// What binds the room of a place: 1 the request's own deadline, 2 a listed job's, with that job.
fn bound(place: usize, room: usize, binding: Binding) -> Told
    ensures { result ≡ telling 18 place room (binding_kind binding) (binding_job binding) }
{
    match binding {
        Binding::Own => telling(18, place, room, 1, 0),
        Binding::Listed(job) => telling(18, place, room, 2, job),
    }
}

// Why there is no place: zeros where none has any room.
// (No From: a `Told` is made of a refusal, and this is a part of one.)
fn explained(why: Explanation) -> Told
    ensures { result ≡ told (NoPlace why) }
{
    match why {
        Explanation::Nowhere => numbered(18, 0),
        Explanation::Roomiest {
            place,
            room,
            binding,
        } => bound(place, room, binding),
    }
}

// Of a question that a call was given, by its place from 1; 0 where the call is one question itself.
fn questioned(number: usize, question: usize) -> Told
    ensures { result ≡ questioned number question }
{
    telling(number, 0, question, 0, 0)
}
