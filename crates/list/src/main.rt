// Reads a plan file from standard input and writes its listing to standard output.
#![tactic(auto)]

ghost use Rattle.std.specs.Prelude.{◌≡◌, List, ℕ, ◌≤◌, ◌<◌, true, length, take, IfSome};
ghost use Rattle.std.specs.Io.KnownBytes.{Appends};
ghost use Rattle.rules.specs.Limits.{longest_file, longest_listing};
ghost use Rattle.file_listing.specs.Listing.{listing_of};

use rules::limits::{LONGEST_FILE, LONGEST_LISTING};
use std::io::{Read, Write};

// One byte more than a file may have, so that a longer one is seen.
const ROOM: usize = LONGEST_FILE + 1;

// Of whatever came in, b, `file` has the first n bytes: all of it, or as many as there is room for.
// Then b's listing is put at the start of `out`, and the answer is its length.
fn list_input(file: &[u8], n: usize, out: &mut [u8]) -> usize
    requires { (n ≤ length file.now)
        × (longest_file < length file.now)
        × (longest_listing ≤ length out.old) }
    ensures text { (b : List ℕ) → take n file.now ≡ take (length file.now) b
        → take result out.new ≡ listing_of b }
    ensures bound { result ≤ length out.new }
{
    file_listing::compose(&file[..n], out)
}

// Lists what comes in, in pieces of any sizes, and writes the listing. The answer is whether no read and no write failed: then the
// listing of all that the input had was written, and nothing else.
// (A bool: a failed write was said at once, and no error is left to hand on.)
fn list_all<R: Read, W: Write, E: Write>(input: &mut R, output: &mut W, said: &mut E) -> bool
    ensures { result ≡ true → IfSome (R.remaining input.old)
        (λ b. Appends (W.contents output.old) (W.contents output.new) (listing_of b)) }
{
    let mut file = [0u8; ROOM];
    let taken = streams::read_full(input, &mut file);
    let mut out = [0u8; LONGEST_LISTING];
    let k = list_input(&file, taken.count, &mut out);
    let written = streams::write_or_say(output, said, &out[..k]);
    written && !taken.failed
}

fn main(rt: HostRuntime) {
    list_all(&mut rt.stdin(), &mut rt.stdout(), &mut rt.stderr());
}
