// What a table asks for: cycles of which one divides the other, the frame, and the ticks that all want in it.
ghost use Rattle.std.specs.Prelude.{◌≡◌, ◌%◌, ◌^◌, ◌≤◌, ◌<◌, eqb};
ghost use Rattle.rules.specs.Walk.{fails};
ghost use Rattle.rules.specs.Limits.{most_granule, most_partitions};
ghost use Rattle.rules.specs.Table.{partitions};
ghost use Rattle.rules.specs.Terms.{wanted};
ghost use Rattle.theory.specs.Harmonic.{pairs, frame, all_wanted};
ghost use Rattle.plan_build.specs.Build.{unharmonic};
ghost use Rattle.plan_build.specs.Inner.{clashes};
ghost use Rattle.theory.specs.Inner.{wanted_in};

use rules::Terms;

// The largest cycle.
#[tactic(auto, unfolding(theory::specs::Harmonic::frame))]
pub fn frame(parts: &[u16]) -> usize
    ensures { (result < 2 ^ 16) × (result ≡ frame parts.now) }
{
    let mut h = 0;
    for k in 0..rules::records::partitions(parts) {
        h = h.max(usize::from(rules::records::cycle(parts, k)));
    }
    h
}

// Whether a divides b.
fn divides(a: u16, b: u16) -> bool
    ensures { result ≡ eqb (b % a) 0 }
{
    if a == 0 {
        return b == 0;
    }
    b % a == 0
}

// Whether neither of two cycles divides the other.
#[tactic(auto, unfolding(rules::specs::Walk::fails, theory::specs::Harmonic::pairs))]
fn clash(parts: &[u16], k: usize, j: usize) -> bool
    ensures { result ≡ fails (pairs parts.now k) j }
{
    let a = rules::records::cycle(parts, k);
    let b = rules::records::cycle(parts, j);
    !divides(a, b) && !divides(b, a)
}

// Whether place k clashes with one before it.
fn clashes(parts: &[u16], k: usize) -> bool
    ensures { result ≡ clashes parts.now k }
{
    (0..k).any(|j| clash(parts, k, j))
}

// Whether any two places clash.
pub fn unharmonic(parts: &[u16]) -> bool
    ensures { result ≡ unharmonic parts.now }
{
    (0..rules::records::partitions(parts)).any(|k| clashes(parts, k))
}

// What place k wants in a frame of h ticks.
// (0, no Option: the definition's q·(h/m) is 0 of a cycle of 0.)
fn wanted_in(terms: Terms, parts: &[u16], h: usize, k: usize) -> usize
    requires { (terms.granule ≤ most_granule) × (h < 2 ^ 16) }
    ensures { (result < 2 ^ 53) × (result ≡ wanted_in (wanted terms parts.now) parts.now h k) }
{
    let m = rules::records::cycle(parts, k);
    if m == 0 {
        return 0;
    }
    rules::records::wanted(terms, parts, k) * (h / usize::from(m))
}

// What all want together in it: the sum of q·H/m.
#[tactic(auto, unfolding(theory::specs::Harmonic::all_wanted))]
pub fn all_wanted(terms: Terms, parts: &[u16], h: usize) -> usize
    requires { (terms.granule ≤ most_granule) × (h < 2 ^ 16) × (partitions parts.now ≤ most_partitions) }
    ensures { result ≡ all_wanted (wanted terms parts.now) parts.now h }
{
    let mut all = 0;
    for k in 0..rules::records::partitions(parts) {
        all += wanted_in(terms, parts, h, k);
    }
    all
}
