// The roomiest place that the search has come past, and the deadline that binds it: what 18 tells.
ghost use Rattle.std.specs.Prelude.{◌≡◌, ◌-◌, ltb};
ghost use Rattle.desk.specs.Table.{start, flex};
ghost use Rattle.desk_reading.specs.Best.{no_best, outdone, bound_at, best_with, tight, sought_at, binding_of, explained};

use desk::Job;
use rules::{Binding, Explanation};

// What binds the room of a place: the request's own deadline, or a listed job's. The first such job is sought from the
// place on, the next one to look at being told until it is found.
#[derive(Clone, Copy)]
pub enum Bound {
    ByRequest,
    Seeking(u32),
    ByJob(u32),
}

// The lowest with its room, once a place has been gone past, and what binds it.
#[derive(Clone, Copy)]
pub struct Best {
    pub place: u32,
    pub room: u32,
    pub bound: Bound,
}

pub fn no_best() -> Best
    ensures { result ≡ no_best }
{
    Best {
        place: 0,
        room: 0,
        bound: Bound::ByRequest,
    }
}

// Whether the next place, with so much room, is better. Place 0 is the first: the place tells it, so that no Option makes
// the state of each turn larger.
fn is_outdone(b: Best, place: u32, room: u32) -> bool
    ensures { result ≡ outdone b place room }
{
    place == 0 || b.room < room
}

// What binds a place's room before any job is looked at for it.
// (`listed` is a bool, here and in `best_with`: a fact that is handed on, no switch of steps.)
fn bound_at(place: u32, listed: bool) -> Bound
    ensures { result ≡ bound_at place listed }
{
    if listed {
        return Bound::Seeking(place);
    }
    Bound::ByRequest
}

// The better of the place so far and the next one.
pub fn best_with(b: Best, place: u32, room: u32, listed: bool) -> Best
    ensures { result ≡ best_with b place room listed }
{
    if is_outdone(b, place, room) {
        return Best {
            place,
            room,
            bound: bound_at(place, listed),
        };
    }
    b
}

// Whether j's own deadline, and no later job's, is what its x comes from.
fn is_tight(j: Job) -> bool
    ensures { result ≡ tight j }
{
    j.flex == j.deadline.saturating_sub(j.start).saturating_sub(j.budget)
}

// The job that binds, sought at one more job: a move beyond x breaks that job's own deadline or pushes the next one
// beyond its x.
pub fn sought_at(b: Best, j: Job) -> Best
    ensures { result ≡ sought_at b j }
{
    match b.bound {
        Bound::Seeking(k) if is_tight(j) => Best {
            bound: Bound::ByJob(k),
            ..b
        },
        Bound::Seeking(k) => Best {
            bound: Bound::Seeking(k.saturating_add(1)),
            ..b
        },
        _ => b,
    }
}

// Whether the room at j is bound by its x and not by the deadline d.
pub fn listed_binds(d: u32, j: Job) -> bool
    ensures { result ≡ ltb (flex j) (d - start j) }
{
    j.flex < d.saturating_sub(j.start)
}

// (No From, here and in `explain`: their names say what is made, `into` would not. `as`: usize has no From<u32>.)
fn binding_of(b: Bound) -> Binding
    ensures { result ≡ binding_of b }
{
    match b {
        Bound::ByRequest => Binding::Own,
        Bound::Seeking(k) | Bound::ByJob(k) => Binding::Listed(k as usize),
    }
}

pub fn explain(b: Best) -> Explanation
    ensures { result ≡ explained b }
{
    Explanation::Roomiest {
        place: b.place as usize,
        room: b.room as usize,
        binding: binding_of(b.bound),
    }
}
