// The line that says what was expected where.
ghost use Rattle.std.specs.Prelude.{◌≡◌, ◌+◌, ◌≤◌, ◌<◌, ◌^◌};
ghost use Rattle.output.specs.Put.{Put};
ghost use Rattle.rules.specs.Limits.{longest_line};
ghost use Rattle.share_line.specs.Expected.{what_text, expected_line};

use crate::What;
use output::Output;

// (A match, no closure: a text for each case.)
fn put_what(out: &mut Output<'_, u8>, what: What)
    requires { out.old.at < 2 ^ 50 }
    ensures same_reference { out.new.lent.ghost_name ≡ out.old.lent.ghost_name }
    ensures put { Put out.old.lent.now out.old.at (what_text what) out.new.at out.new.lent.now }
    ensures short { out.new.at ≤ out.old.at + 64 }
{
    match what {
        What::Record => out.put_all(b"`granule`, `partition` or `task`\n"),
        What::Number => out.put_all(b"a number from 0 to 65535\n"),
        What::Slash => out.put_all(b"`/`\n"),
        What::End => out.put_all(b"the end of the line\n"),
        What::EarlyGranule => out.put_all(b"`granule` once, before the partitions\n"),
    }
}

// At the start of the output; the answer is its length.
// (A slice, no Output: it is a whole output, and nothing is asked of a place in it.)
pub fn put_expected(out: &mut [u8], line: usize, what: What) -> usize
    ensures { Put out.old 0 (expected_line line what) result out.new
        × (result ≤ longest_line) }
{
    let mut out = Output::new(out);
    out.put_field(b"line ", line);
    out.put_all(b": expected ");
    put_what(&mut out, what);
    out.at
}
