// Reads a plan file from standard input and writes the page of one of its tasks, which a word names by its number from 1.
#![tactic(auto)]

ghost use Rattle.std.specs.Prelude.{◌≡◌, List, ℕ, ◌≤◌, ◌<◌, true, length, take, IfSome};
ghost use Rattle.std.specs.Io.KnownBytes.{Appends};
ghost use Rattle.rules.specs.Limits.{longest_file, longest_why};
ghost use Rattle.why_page.specs.Why.{why_of};

use rules::limits::{LONGEST_FILE, LONGEST_WHY};
use std::io::{Read, Write};

// The longest number in bytes; a longer word is none.
const WORD: usize = 5;

// One byte more than a file may have, so that a longer one is seen.
const ROOM: usize = LONGEST_FILE + 1;

// The longest page in bytes.
const PAGE: usize = LONGEST_WHY;

// Of whatever came in, b, `file` has the first n bytes: all of it, or as many as there is room for.
// Then the page of b's task is put at the start of `out`, and the answer is its length.
fn why_input(file: &[u8], n: usize, place: usize, out: &mut [u8]) -> usize
    requires { (n ≤ length file.now)
        × (longest_file < length file.now)
        × (longest_why ≤ length out.old) }
    ensures text { (b : List ℕ) → take n file.now ≡ take (length file.now) b
        → take result out.new ≡ why_of b place }
    ensures bound { result ≤ length out.new }
{
    why_page::compose(&file[..n], place, out)
}

// Pages what comes in, in pieces of any sizes, and writes that. The answer is whether no read and no write failed: then the page of
// the task of all that the input had was written, and nothing else.
// (A bool: a failed write was said at once, and no error is left to hand on.)
fn page_all<R: Read, W: Write, E: Write>(
    place: usize,
    input: &mut R,
    output: &mut W,
    said: &mut E,
) -> bool
    ensures { result ≡ true → IfSome (R.remaining input.old)
        (λ b. Appends (W.contents output.old) (W.contents output.new) (why_of b place)) }
{
    let mut file = [0u8; ROOM];
    let taken = streams::read_full(input, &mut file);
    let mut out = streams::zeros::<PAGE>();
    let k = why_input(&file, taken.count, place, &mut out);
    let written = streams::write_or_say(output, said, &out[..k]);
    written && !taken.failed
}

// The task that the program was started for.
fn place_given(rt: &HostRuntime) -> usize {
    let mut word = [0u8; WORD];
    let word = streams::word(rt, 1, &mut word).unwrap_or(&[]);
    why_page::place_asked(streams::word_count(rt), word)
}

// (Apart from the other programs' `main`: each hands its own streams on.)
fn main(rt: HostRuntime) {
    let place = place_given(&rt);
    page_all(place, &mut rt.stdin(), &mut rt.stdout(), &mut rt.stderr());
}
