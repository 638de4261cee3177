// Reads a share table from standard input and writes its plan file, or one line that says why there is none. A word is the
// file's edition, 1 where there is none.
#![tactic(auto)]

ghost use Rattle.std.specs.Prelude.{◌≡◌, List, ℕ, ◌≤◌, ◌<◌, true, length, take, IfSome};
ghost use Rattle.std.specs.Io.KnownBytes.{Appends};
ghost use Rattle.rules.specs.Limits.{longest_file};
ghost use Rattle.share_text.specs.Table.{longest_text};
ghost use Rattle.share_plan.specs.Answer.{answer_of};

use rules::limits::LONGEST_FILE;
use share_text::LONGEST_TEXT;
use std::io::{Read, Write};

// The longest edition in bytes; a longer word is none.
const WORD: usize = 5;

// One byte more than a text may have, so that a longer one is seen.
const READ: usize = LONGEST_TEXT + 1;

// Of whatever came in, t, `text` has the first n bytes: all of it, or as many as there is room for.
// Then what is answered to t is put at the start of `out`, which has room for any file; the result is its length.
// (An edition stays a number: the planner refuses with 2 what is no edition.)
fn plan_input(edition: usize, text: &[u8], n: usize, out: &mut [u8]) -> usize
    requires { (n ≤ length text.now)
        × (longest_text < length text.now)
        × (longest_file ≤ length out.old) }
    ensures answer { (t : List ℕ) → take n text.now ≡ take (length text.now) t
        → take result out.new ≡ answer_of edition t longest_file }
    ensures bound { result ≤ length out.new }
{
    share_plan::plan(edition, &text[..n], out)
}

// Plans what comes in, in pieces of any sizes, and writes what is answered. The answer is whether no read and no write failed: then
// what is answered to all that the input had was written, and nothing else.
// (A bool: a failed write was said at once, and no error is left to hand on.)
fn plan_all<R: Read, W: Write, E: Write>(
    edition: usize,
    input: &mut R,
    output: &mut W,
    said: &mut E,
) -> bool
    ensures { result ≡ true → IfSome (R.remaining input.old)
        (λ t. Appends (W.contents output.old) (W.contents output.new) (answer_of edition t longest_file)) }
{
    let mut text = [0u8; READ];
    let taken = streams::read_full(input, &mut text);
    let mut out = [0u8; LONGEST_FILE];
    let k = plan_input(edition, &text, taken.count, &mut out);
    let written = streams::write_or_say(output, said, &out[..k]);
    written && !taken.failed
}

// The edition that the program was started with.
// (Apart from the program why's `place_given`: each has its own word.)
fn edition_given(rt: &HostRuntime) -> usize {
    let mut word = [0u8; WORD];
    let word = streams::word(rt, 1, &mut word).unwrap_or(&[]);
    share_plan::edition_asked(streams::word_count(rt), word)
}

// (Apart from the other programs' `main`: each hands its own streams on.)
fn main(rt: HostRuntime) {
    let edition = edition_given(&rt);
    plan_all(edition, &mut rt.stdin(), &mut rt.stdout(), &mut rt.stderr());
}
