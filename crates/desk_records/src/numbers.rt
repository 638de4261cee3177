// The limits of a request's own numbers.
ghost use Rattle.std.specs.Prelude.{◌≡◌};
ghost use Rattle.desk.specs.Request.{numbers_ok};

use rules::limits::{LATEST, PLACES};

// (`as`, here and in `FAR`: no conversion but this one is const.)
pub const ALL_PLACES: u32 = PLACES as u32; // as a count of jobs

// No deadline is later: what leaves a minimum as it is where no job is behind, so no step tests whether one is.
pub const FAR: u64 = u32::MAX as u64;

// Whether a request's time, budget and deadline are in their limits.
pub fn numbers_ok(t: u32, c: u32, d: u32) -> bool
    ensures { result ≡ numbers_ok t c d }
{
    c != 0 && c <= LATEST && d <= LATEST && t <= LATEST
}
