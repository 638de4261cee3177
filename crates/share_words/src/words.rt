// The words of a line.
ghost use Rattle.std.specs.Prelude.{◌≡◌, ◌≤◌, ℕ, Bool, length, bytes_eq};
ghost use Rattle.share_words.specs.Words.{blank, solid, ends_word, comment, newline, found, width, trimmed, word_of, ends_at, rest_of};

#[tactic(auto, unfolding(crate::specs::Words::blank))]
fn is_blank(b: u8) -> bool
    ensures { result ≡ blank b }
{
    matches!(b, b' ' | b'\t' | b'\r')
}

#[tactic(auto, unfolding(crate::specs::Words::ends_word))]
fn ends_word(b: u8) -> bool
    ensures { result ≡ ends_word b }
{
    is_blank(b) || b == b'/'
}

// Where a search stops: a unit struct for each of the tests.
pub trait Stops {
    ghost stops: { ℕ → Bool };

    fn stops(b: u8) -> bool
        ensures { result ≡ stops b };
}

// At a byte that is no blank.
#[derive(Clone, Copy)]
pub struct Solid;

impl Stops for Solid {
    ghost stops = { solid };

    #[tactic(auto, unfolding(crate::specs::Words::solid))]
    fn stops(b: u8) -> bool {
        !is_blank(b)
    }
}

// At a byte that ends a word.
#[derive(Clone, Copy)]
pub struct Break;

impl Stops for Break {
    ghost stops = { ends_word };

    fn stops(b: u8) -> bool {
        ends_word(b)
    }
}

// At `#`.
#[derive(Clone, Copy)]
pub struct Comment;

impl Stops for Comment {
    ghost stops = { comment };

    #[tactic(auto, unfolding(crate::specs::Words::comment))]
    fn stops(b: u8) -> bool {
        b == b'#'
    }
}

// At a newline.
#[derive(Clone, Copy)]
pub struct Line;

impl Stops for Line {
    ghost stops = { newline };

    #[tactic(auto, unfolding(crate::specs::Words::newline))]
    fn stops(b: u8) -> bool {
        b == b'\n'
    }
}

// The first place at which the search stops, or the end: every caller cuts there, so that None would only be turned back.
pub fn find_stop<S: Stops>(l: &[u8]) -> usize
    ensures { (result ≤ length l.now) × (result ≡ found S.stops l.now) }
{
    for (k, b) in l.iter().enumerate() {
        if S::stops(*b) {
            return k;
        }
    }
    l.len()
}

// The same of any test that may be asked of each byte, one that holds values too, for callers who bring theirs.
// (Apart from `find_stop`: that is what the programs run, its test is a type's, and nothing is asked of a caller.)
pub fn find<S: Fn(u8) -> bool>(l: &[u8], stops: S) -> usize
    requires { S.IsAlwaysCallable stops }
    ensures bound { result ≤ length l.now }
    ensures place { (test : ℕ → Bool) → ((b : ℕ) (r : Bool) → S.post stops b r → r ≡ test b)
        → result ≡ found test l.now }
{
    for (k, b) in l.iter().enumerate() {
        if stops(*b) {
            return k;
        }
    }
    l.len()
}

// How long the word is that a line begins with.
// (0 is a length, that of no word: no Option.)
fn width(l: &[u8]) -> usize
    ensures { (result ≤ length l.now) × (result ≡ width l.now) }
{
    if l.is_empty() {
        return 0;
    }
    if l[0] == b'/' {
        return 1;
    }
    find_stop::<Break>(l)
}

// The line from its first word on.
fn trimmed(l: &[u8]) -> &[u8]
    ensures { result.now ≡ trimmed l.now }
{
    &l[find_stop::<Solid>(l)..]
}

#[tactic(auto, unfolding(crate::specs::Words::word_of))]
pub fn first_word(l: &[u8]) -> &[u8]
    ensures { result.now ≡ word_of l.now }
{
    let t = trimmed(l);
    &t[..width(t)]
}

pub fn after_word(l: &[u8]) -> &[u8]
    ensures { result.now ≡ rest_of l.now }
{
    let t = trimmed(l);
    &t[width(t)..]
}

// Whether the first word is this one.
pub fn begins_with(l: &[u8], word: &[u8]) -> bool
    ensures { result ≡ bytes_eq (word_of l.now) word.now }
{
    first_word(l) == word
}

// Whether no word is left.
pub fn no_word(l: &[u8]) -> bool
    ensures { result ≡ ends_at l.now 0 }
{
    first_word(l).is_empty()
}

#[cfg(test)]
mod tests {
    use super::*;

    // A closure that holds the byte that it looks for, as no type's test can.
    #[test]
    fn finds_what_a_closure_asks_for(rt: HostRuntime) {
        for (byte, place) in [(b'p', 0), (b'/', 7), (b'#', 10), (b'\n', 12)] {
            assert_eq!(rt; find(b"part 12/16#x", |b| b == byte), place, "for {byte}");
        }
    }
}
