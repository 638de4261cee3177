// What a word says as a number.
ghost use Rattle.std.specs.Prelude.{◌≡◌};
ghost use Rattle.share_words.specs.Words.{word_of, numeral};

use crate::words::first_word;

pub fn numeral(w: &[u8]) -> Option<u16>
    ensures { result ≡ numeral w.now }
{
    if w.is_empty() {
        return None;
    }
    let mut v: u16 = 0;
    for b in w {
        if !b.is_ascii_digit() {
            return None;
        }
        v = v.checked_mul(10)?.checked_add(u16::from(b - b'0'))?;
    }
    Some(v)
}

pub fn first_number(l: &[u8]) -> Option<u16>
    ensures { result ≡ numeral (word_of l.now) }
{
    numeral(first_word(l))
}
