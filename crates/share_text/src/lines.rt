// The lines of a text in order, and the first that is wrong.
ghost use Rattle.std.specs.Prelude.{◌≡◌, ◌≤◌, ◌<◌, length, drop};
ghost use Rattle.share_line.specs.Rows.{row_of};
ghost use Rattle.share_text.specs.Table.{line_of, after_line, seen_of};

use crate::Expected;
use share_line::rows::{judged, row_of};
use share_line::{Row, What};
use share_words::words::{Line, find_stop};

// The row of the line that begins at a place.
pub fn row_at(text: &[u8], at: usize) -> Result<Row, What>
    requires { at ≤ length text.now }
    ensures { result ≡ row_of (line_of (drop at text.now)) }
{
    let rest = &text[at..];
    let e = find_stop::<Line>(rest);
    row_of(&rest[..e])
}

// Where the next line begins, or the end.
// (The end, no Option: the definition leaves no text there, and the walk over the lines ends.)
pub fn next_line(text: &[u8], at: usize) -> usize
    requires { at < length text.now }
    ensures { (at < result) × (result ≤ length text.now)
        × (drop result text.now ≡ after_line (drop at text.now)) }
{
    let rest = &text[at..];
    let e = find_stop::<Line>(rest);
    if e < rest.len() {
        return at + (e + 1);
    }
    text.len()
}

// (A while: each line says where the next one begins.)
pub fn first_wrong(text: &[u8]) -> Result<(), Expected>
    ensures { result ≡ seen_of text.now }
{
    let mut closed = false;
    let mut at = 0;
    let mut line = 1;
    while at < text.len() {
        let row = row_at(text, at);
        closed = judged(closed, row).map_err(|what| Expected { line, what })?;
        at = next_line(text, at);
        line += 1;
    }
    Ok(())
}
