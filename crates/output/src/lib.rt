// What is put into a lent output, as far as there is room: numbers, text, decimals, and the line of a refusal.
#![tactic(auto)]

ghost use Rattle.std.specs.Prelude.{◌≡◌, ◌++◌, [], ◌∷◌, ◌+◌, ◌≤◌, ◌<◌, ◌^◌, length, set};
ghost use Rattle.output.specs.Inner.{byte};
ghost use Rattle.output.specs.Put.{Put};
ghost use Rattle.output.specs.Text.{bytes};
ghost use Rattle.output.specs.Decimal.{decimal};
ghost use Rattle.output.specs.Refused.{refused_line};
ghost use Rattle.rules.specs.Limits.{longest_line};

use rules::{Refusal, Told};

// A lent output, filled from its start on, and the place behind what was put: what finds no room is counted all the same.
#[derive(Drop)]
pub struct Output<'a, T> {
    pub lent: &'a mut [T],
    pub at: usize,
}

impl<'a, T: Copy> Output<'a, T> {
    pub fn new(lent: &'a mut [T]) -> Output<'a, T>
        ensures same_reference { result.lent.ghost_name ≡ lent.entry.ghost_name }
        ensures empty { (result.at ≡ 0) × (result.lent.now ≡ lent.old) }
    {
        Output { lent, at: 0 }
    }

    // One number or byte.
    pub fn put(&mut self, x: T)
        requires { self.old.at < 2 ^ 62 }
        ensures same_reference { self.new.lent.ghost_name ≡ self.old.lent.ghost_name }
        ensures put { Put self.old.lent.now self.old.at (x ∷ []) self.new.at self.new.lent.now }
    {
        if self.at < self.lent.len() {
            self.lent[self.at] = x;
        }
        self.at += 1;
    }

    // All of them, in order.
    pub fn put_all(&mut self, xs: &[T])
        requires { (self.old.at < 2 ^ 60) × (length xs.now < 2 ^ 32) }
        ensures same_reference { self.new.lent.ghost_name ≡ self.old.lent.ghost_name }
        ensures put { Put self.old.lent.now self.old.at xs.now self.new.at self.new.lent.now }
    {
        for x in xs {
            self.put(*x);
        }
    }
}

// (`as`: a digit fits, and a TryFrom would bring a refusal that can't come.)
fn digit(n: usize) -> u8
    requires { n < 10 }
    ensures { result ≡ byte "0" + n }
{
    b'0' + n as u8
}

impl<'a> Output<'a, u8> {
    // The digits of n, most significant first: those of n / 10, and then the last.
    fn put_decimal(&mut self, n: usize)
        requires { self.old.at < 2 ^ 60 }
        ensures same_reference { self.new.lent.ghost_name ≡ self.old.lent.ghost_name }
        ensures put { Put self.old.lent.now self.old.at (decimal n) self.new.at self.new.lent.now }
    {
        if n < 10 {
            self.put(digit(n));
            return;
        }
        self.put_decimal(n / 10);
        self.put(digit(n % 10));
    }

    // A text, and a number behind it.
    pub fn put_field(&mut self, text: &[u8], n: usize)
        requires { (self.old.at < 2 ^ 50) × (length text.now < 2 ^ 32) }
        ensures same_reference { self.new.lent.ghost_name ≡ self.old.lent.ghost_name }
        ensures put { Put self.old.lent.now self.old.at (text.now ++ decimal n) self.new.at self.new.lent.now }
        ensures short { self.new.at ≤ self.old.at + length text.now + 20 }
    {
        self.put_all(text);
        self.put_decimal(n);
    }

    // A refusal's line.
    pub fn put_refusal(&mut self, refusal: Refusal)
        requires { self.old.at < 2 ^ 40 }
        ensures same_reference { self.new.lent.ghost_name ≡ self.old.lent.ghost_name }
        ensures put { Put self.old.lent.now self.old.at (refused_line refusal) self.new.at self.new.lent.now }
        ensures short { self.new.at ≤ self.old.at + longest_line }
    {
        self.put_field(b"refused ", Told::from(refusal).number);
        self.put_all(b"\n");
    }
}

// A refusal's line, at the start of the output; the answer is its length.
// (A slice, no Output: it is a whole output, and nothing is asked of a place in it.)
pub fn put_refusal(out: &mut [u8], refusal: Refusal) -> usize
    ensures { Put out.old 0 (refused_line refusal) result out.new
        × (result ≤ longest_line) }
{
    let mut out = Output::new(out);
    out.put_refusal(refusal);
    out.at
}
