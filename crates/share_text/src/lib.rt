// A share table as text: a line for each partition and each task, and one for the granule where it is given.
#![tactic(auto)]

ghost use Rattle.std.specs.Prelude.{◌≡◌};
ghost use Rattle.share_text.specs.Table.{ReadsText};
ghost use Rattle.share_text.specs.declared.Unread.TheVariants as unread;

use rules::Refusal;
use share_line::What;
use tables::{gather, read_of};

mod lines; // lines.rt: the lines of a text in order, and the first that is wrong
mod tables; // tables.rt: the numbers of each kind

pub const LONGEST_TEXT: usize = 65536; // in bytes

// The granule, and how many numbers each table has.
// (A type of its own: its numbers have another sense than those of others that are equal in form.)
#[derive(Clone, Copy, PartialEq, Eq)]
pub struct Numbers {
    pub granule: usize,
    pub partitions: usize,
    pub tasks: usize,
}

// The first wrong line, from 1, and what was expected there.
#[derive(Clone, Copy, PartialEq, Eq)]
pub struct Expected {
    pub line: usize,
    pub what: What,
}

// Why a text is not read.
#[derive(Clone, Copy)]
pub enum Unread {
    Expected(Expected),
    Refused(Refusal),
}

impl From<Expected> for Unread {
    ghost from_gives = { λ e u. u ≡ unread.Expected e };

    fn from(expected: Expected) -> Unread {
        Unread::Expected(expected)
    }
}

impl From<Refusal> for Unread {
    ghost from_gives = { λ r u. u ≡ unread.Refused r };

    fn from(refusal: Refusal) -> Unread {
        Unread::Refused(refusal)
    }
}

// The table's records, put into the lent tables where all of them fit.
#[tactic(auto, using(crate::proofs::Order::read_short))]
pub fn read(text: &[u8], parts: &mut [u16], tasks: &mut [u16]) -> Result<Numbers, Unread>
    ensures { ReadsText text.now parts.old tasks.old
        parts.new tasks.new result }
{
    let numbers = read_of(text, parts.len(), tasks.len())?;
    gather(text, parts, tasks);
    Ok(numbers)
}
