// The flat tables behind accessors: only these functions know how many numbers a record has.
ghost use Rattle.std.specs.Prelude.{◌≡◌, ◌*◌, ◌^◌, ◌<◌, get_or};
ghost use Rattle.rules.specs.Walk.{round_up};
ghost use Rattle.rules.specs.Table.{field_at, cycle, num, den, partitions, partition, budget, deadline, period, tasks, WantsIs};
ghost use Rattle.rules.specs.Terms.{wanted};

use crate::Terms;
use crate::limits::{PART_WIDTH, TASK_WIDTH};

// What stands at a place of a table, or 0 past its end.
// (0, no Option, here and in `field_at`, `up_to_granule` and `wants`: the definitions have it.)
pub fn entry(table: &[u16], k: usize) -> u16
    ensures { result ≡ get_or table.now k 0 }
{
    table.get(k).copied().unwrap_or(0)
}

// A field of the record at place k, in a table whose records are `width` numbers wide, or 0 past its end.
// A record has two numbers at least, so none begins behind the table's half; it has under eight, so a place up
// to there stays within 64 bits.
pub fn field_at(table: &[u16], width: usize, k: usize, field: usize) -> u16
    requires { (1 < width) × (width < 8) × (field < width) }
    ensures { result ≡ field_at width table.now k field }
{
    if table.len() / 2 < k {
        return 0;
    }
    entry(table, width * k + field)
}

// (C lends flat tables of u16, so they stay flat: an accessor is one line over them, under its definition's name.)
pub fn partitions(parts: &[u16]) -> usize
    ensures { result ≡ partitions parts.now }
{
    parts.len() / PART_WIDTH
}

pub fn cycle(parts: &[u16], k: usize) -> u16
    ensures { result ≡ cycle parts.now k }
{
    field_at(parts, PART_WIDTH, k, 0)
}

pub fn num(parts: &[u16], k: usize) -> u16
    ensures { result ≡ num parts.now k }
{
    field_at(parts, PART_WIDTH, k, 1)
}

pub fn den(parts: &[u16], k: usize) -> u16
    ensures { result ≡ den parts.now k }
{
    field_at(parts, PART_WIDTH, k, 2)
}

pub fn tasks(table: &[u16]) -> usize
    ensures { result ≡ tasks table.now }
{
    table.len() / TASK_WIDTH
}

pub fn partition(table: &[u16], j: usize) -> u16
    ensures { result ≡ partition table.now j }
{
    field_at(table, TASK_WIDTH, j, 0)
}

pub fn budget(table: &[u16], j: usize) -> u16
    ensures { result ≡ budget table.now j }
{
    field_at(table, TASK_WIDTH, j, 1)
}

pub fn deadline(table: &[u16], j: usize) -> u16
    ensures { result ≡ deadline table.now j }
{
    field_at(table, TASK_WIDTH, j, 2)
}

pub fn period(table: &[u16], j: usize) -> u16
    ensures { result ≡ period table.now j }
{
    field_at(table, TASK_WIDTH, j, 3)
}

// The smallest multiple of the granule that is at least x (0 where the granule is 0).
fn up_to_granule(granule: usize, x: usize) -> usize
    requires { x < 2 ^ 33 }
    ensures { result ≡ round_up x granule * granule }
{
    if granule == 0 {
        return 0;
    }
    let over = x % granule;
    if over == 0 {
        return x;
    }
    x - over + granule
}

// The smallest multiple of the granule that is at least num·m/den (0 where den or the granule is 0).
pub fn wants(granule: usize, m: u16, num: u16, den: u16) -> usize
    ensures { WantsIs granule m num den result }
{
    if den == 0 {
        return 0;
    }
    up_to_granule(
        granule,
        (usize::from(num) * usize::from(m) + (usize::from(den) - 1)) / usize::from(den),
    )
}

// What the partition at place k wants.
pub fn wanted(terms: Terms, parts: &[u16], k: usize) -> usize
    ensures { result ≡ wanted terms parts.now k }
{
    wants(terms.granule, cycle(parts, k), num(parts, k), den(parts, k))
}
