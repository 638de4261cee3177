// What is decided at the end of the reading pass, refusals 13 to 18 in their order, and what that makes of the record
// and of the table.
ghost use Rattle.std.specs.Prelude.{◌≡◌};
ghost use Rattle.desk_engine.specs.Deciding.{rest_of, open_effect, keep_effect, drop_effect, take_effect};
ghost use Rattle.desk_engine.specs.Deciding.{request_effect, effect_by, effect_of};

use desk::{Desk, Done};
use desk_reading::scan::{Scan, right_end};
use desk_reading::searching::{Searching, behind_by, explanation, new_job, search_end};
use desk_records::numbers::{ALL_PLACES, FAR, numbers_ok};
use desk_records::records::no_job;
use desk_writing::fit::Fit;
use desk_writing::shift::Shift;
use rules::Refusal;

// The answer, the record at exit, how many jobs are dropped, and what each writing pass begins with that is made.
#[derive(Clone, Copy)]
pub struct Effect {
    pub answer: Result<Done, Refusal>,
    pub desk: Desk,
    pub drop: usize,
    pub shift: Option<Shift>,
    pub fit: Option<Fit>,
}

// The jobs left: those listed, without those dropped.
fn rest_of(k: Desk, q: Searching) -> u32
    ensures { result ≡ rest_of k q }
{
    k.count.saturating_sub(q.gone)
}

// Opening: every listed job's x is worked out.
fn open_effect(k: Desk) -> Effect
    ensures { result ≡ open_effect k }
{
    Effect {
        answer: Ok(Done::Opened),
        desk: Desk { clock: 0, ..k },
        drop: 0,
        shift: None,
        fit: Some(Fit {
            wait: ALL_PLACES.saturating_sub(k.count),
            behind: FAR,
        }),
    }
}

// A refusal that changes nothing, in a table of any length.
fn keep_effect(why: Refusal, k: Desk) -> Effect
    ensures { result ≡ keep_effect why k }
{
    Effect {
        answer: Err(why),
        desk: k,
        drop: 0,
        shift: None,
        fit: None,
    }
}

// A refusal that sets the clock and drops the finished jobs.
// (No Option for `carry`: no job is put down, so it is an empty one. `as`, here and in `take_effect`: usize has no From<u32>.)
fn drop_effect(why: Refusal, k: Desk, left: Searching) -> Effect
    ensures { result ≡ drop_effect why k left }
{
    let rest = rest_of(k, left);
    Effect {
        answer: Err(why),
        desk: Desk {
            clock: left.time,
            count: rest,
        },
        drop: left.gone as usize,
        shift: Some(Shift {
            before: rest,
            put: 0,
            end: 0,
            carry: no_job(),
        }),
        fit: None,
    }
}

// The new job taken in: later jobs move, and x is worked out from it towards the front.
fn take_effect(k: Desk, q: Searching) -> Effect
    ensures { result ≡ take_effect k q }
{
    let rest = rest_of(k, q);
    let taken = Desk {
        clock: q.time,
        count: rest.saturating_add(1),
    };
    Effect {
        answer: Ok(Done::Taken(q.place as usize, q.start)),
        desk: taken,
        drop: q.gone as usize,
        shift: Some(Shift {
            before: q.place,
            put: rest.saturating_sub(q.place).saturating_add(1),
            end: 0,
            carry: new_job(q),
        }),
        fit: Some(Fit {
            wait: ALL_PLACES.saturating_sub(q.place.saturating_add(1)),
            behind: behind_by(q),
        }),
    }
}

// Of a request, on a table that keeps the rules.
fn request_effect(k: Desk, q: Searching) -> Effect
    ensures { result ≡ request_effect k q }
{
    if !numbers_ok(q.time, q.budget, q.deadline) {
        return keep_effect(Refusal::Numbers, k);
    }
    if q.time < k.clock {
        return keep_effect(Refusal::Past, k);
    }
    if q.busy {
        return drop_effect(Refusal::Busy, k, q);
    }
    if ALL_PLACES <= rest_of(k, q) {
        return drop_effect(Refusal::Full, k, q);
    }
    if search_end(q) {
        return take_effect(k, q);
    }
    drop_effect(Refusal::NoPlace(explanation(q)), k, q)
}

// Of any call on such a table.
// (`opening` is a bool beside the state, here and in `effect_of`, as desk_reading's `Scan` says.)
fn effect_by(k: Desk, opening: bool, q: Searching) -> Effect
    ensures { result ≡ effect_by k opening q }
{
    if opening {
        return open_effect(k);
    }
    request_effect(k, q)
}

// What is decided, and so done.
#[tactic(auto, unfolding(crate::specs::Deciding::effect_of))]
pub fn effect_of(k: Desk, opening: bool, read: Option<Scan>) -> Effect
    ensures { result ≡ effect_of k opening read }
{
    if let Some(s) = read {
        if right_end(opening, s) {
            return effect_by(k, opening, s.searching);
        }
    }
    keep_effect(Refusal::Rules, k)
}
