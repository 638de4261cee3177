// What the programs share: their input, their words and what they write, over std's streams.
#![tactic(auto)]

ghost use Rattle.std.specs.Prelude.{◌≡◌, ◌≤◌, true, false, length, take, IfSome};
ghost use Rattle.std.specs.Io.KnownBytes.{Consumes, Appends};

use std::env::{Env, FillError};
use std::io::{Read, Write};

// N zeros. Whoever lends them as room sees their length alone, however large N is.
pub fn zeros<const N: usize>() -> [u8; N]
    ensures { length result ≡ N }
{
    [0; N]
}

// What was read: how many bytes, and whether that ended with a read that failed. A Result would leave out one of the two, and
// both are wanted: what came in is planned or listed even where a read failed behind it.
#[derive(Clone, Copy)]
pub struct Taken {
    pub count: usize,
    pub failed: bool,
}

// Reads until `buf` is full, the input ends or a read fails, in pieces of any sizes, and puts the bytes at the start of `buf`:
// the first ones of what was left of the input. Where no read failed, those are all, or as many as there is room for.
// (A while: each turn reads as many bytes as come.)
pub fn read_full<R: Read>(input: &mut R, buf: &mut [u8]) -> Taken
    ensures bound { result.count ≤ length buf.new }
    ensures bytes { Consumes (R.remaining input.old) (R.remaining input.new) (take result.count buf.new) }
    ensures whole { result.failed ≡ false → IfSome (R.remaining input.old)
        (λ b. take result.count buf.new ≡ take (length buf.new) b) }
{
    let mut done = 0;
    while done < buf.len() {
        match input.read(&mut buf[done..]) {
            Ok(0) => {
                return Taken {
                    count: done,
                    failed: false,
                };
            }
            Ok(n) => done += n,
            Err(_) => {
                return Taken {
                    count: done,
                    failed: true,
                };
            }
        }
    }
    Taken {
        count: done,
        failed: false,
    }
}

// Writes the answer, or says on standard error that it could not. The answer is whether it was written whole.
// (A bool: a failure is said at once, and no error is left to hand on.)
pub fn write_or_say<W: Write, E: Write>(output: &mut W, said: &mut E, answer: &[u8]) -> bool
    ensures { result ≡ true → Appends (W.contents output.old) (W.contents output.new) answer.now }
{
    if output.write_all(answer).is_ok() {
        return true;
    }
    let _ = said.write_all(b"a write failed\n");
    false
}

// How many words the program was started with, its own name among them.
pub fn word_count(rt: &HostRuntime) -> usize {
    (0..usize::MAX)
        .find(|&i| matches!(rt.arg(i, &mut []), Err(FillError::NotPresent)))
        .unwrap_or(usize::MAX)
}

// Word i, its own name being word 0, read into `buf`; none where there is no such word, or where it is longer than `buf`.
pub fn word<'a>(rt: &HostRuntime, i: usize, buf: &'a mut [u8]) -> Option<&'a [u8]>
    ensures { IfSome result (λ w. length w.now ≤ length buf.old) }
{
    let n = rt.arg(i, buf).ok()?;
    Some(&buf[..n])
}
