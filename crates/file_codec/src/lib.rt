// The plan file's numbers of two bytes, read and put.
#![tactic(auto)]

ghost use Rattle.std.specs.Prelude.{◌≡◌, ◌++◌, ◌+◌, ◌*◌, ◌/◌, ◌%◌, ◌≤◌, ◌<◌, min, length, get_or, set, drop};
ghost use Rattle.rules.specs.Limits.{number_bytes};
ghost use Rattle.file_codec.specs.Bytes.{nums_of, bytes_of};
ghost use Rattle.file_codec.specs.Inner.{over};

use rules::limits::NUMBER_BYTES;

// The number at place k of a body, or 0 past its end.
// (0, no Option, as the contract's `get_or` has it.)
#[tactic(auto, using(crate::proofs::Bytes::nums_of_at, crate::proofs::Bytes::nums_past))]
pub fn number(body: &[u8], k: usize) -> u16
    ensures { result ≡ get_or (nums_of body.now) k 0 }
{
    let n = body.len() / NUMBER_BYTES;
    if k < n {
        return u16::from_be_bytes([body[NUMBER_BYTES * k], body[NUMBER_BYTES * k + 1]]);
    }
    0
}

// The numbers of a body, as many as there are and as the table has room for.
pub fn load(body: &[u8], table: &mut [u16])
    ensures { table.new
        ≡ over (nums_of body.now)
        (min (length table.old) (length body.now / number_bytes)) table.old }
{
    for k in 0..table.len().min(body.len() / NUMBER_BYTES) {
        table[k] = number(body, k);
    }
}

fn put(out: &mut [u8], at: usize, x: u16)
    requires { at + 1 < length out.old }
    ensures { out.new ≡ set (set out.old at (x / 256)) (at + 1) (x % 256) }
{
    out[at..at + NUMBER_BYTES].copy_from_slice(&x.to_be_bytes());
}

// The bytes of a table at the start of the output; those behind them are left alone.
// (A slice, no Output: these are bytes at places of their own, no text.)
#[tactic(auto, using(crate::proofs::Bytes::put_more, crate::proofs::Bytes::put_done))]
pub fn put_all(table: &[u16], out: &mut [u8])
    requires { number_bytes * length table.now ≤ length out.old }
    ensures { out.new
        ≡ bytes_of table.now
        ++ drop (number_bytes * length table.now) out.old }
{
    for (k, x) in table.iter().enumerate() {
        put(out, NUMBER_BYTES * k, *x);
    }
}
