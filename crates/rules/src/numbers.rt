// The places after and before in a round.
ghost use Rattle.std.specs.Prelude.{◌≡◌, ◌+◌, ◌-◌, ◌%◌, ◌<◌};

// The place after `at` in a round of f: the end is joined to the start.
// (0 is a place, the first one, and no sign that one is missing: no Option.)
pub fn after(at: usize, f: usize) -> usize
    requires { at < f }
    ensures { (result < f) × (result ≡ (at + 1) % f) }
{
    let next = at + 1;
    if next < f { next } else { 0 }
}

// The place before `at` in a round of f: the start is joined to the end.
pub fn before(at: usize, f: usize) -> usize
    requires { at < f }
    ensures { (result < f) × (result ≡ (at + (f - 1)) % f) }
{
    if at == 0 {
        return f - 1;
    }
    at - 1
}
