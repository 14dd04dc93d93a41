// The rest gauge: what it costs a driver to have one duty after another.
ghost use Rattle.std.specs.Prelude.{◌↔◌, ◌≡◌, IsTrue};
ghost use Rattle.costs.specs.Gauge.{Sound, WellFormed, rest_minutes, gauged};

use crate::kind::WrittenKind;
use crate::values::{Duty, Widened};

const DAY: u32 = 1_440;

const LAST_MINUTE: u16 = 1_439;

const SHORTEST_REST: u32 = 600;

const FULL_REST: u32 = 720;

fn sound(duty: Duty) -> bool
    ensures { IsTrue result ↔ (Sound duty) }
{
    duty.start <= LAST_MINUTE && duty.finish <= LAST_MINUTE && duty.start <= duty.finish
}

// Whether these are `n` duties, each of them within its day.
pub fn well_formed(duties: &[Duty], n: usize) -> bool
    ensures { IsTrue result ↔ (WellFormed n duties.now) }
{
    duties.len() == n && duties.iter().all(|duty| sound(*duty))
}

// The minutes of rest between two duties, the later one a day after the earlier; 0 where there are none.
pub fn rest_between(earlier: Duty, later: Duty) -> u32
    ensures { result ≡ rest_minutes earlier later }
{
    (u32::from(later.start) + DAY).saturating_sub(u32::from(earlier.finish))
}

// The cost of the later duty after the earlier one.
pub fn rest_cost<K: WrittenKind>(earlier: Duty, later: Duty) -> Widened<K>
    ensures { result ≡ gauged K.written earlier later }
{
    let rest = rest_between(earlier, later);
    if rest < SHORTEST_REST {
        return Widened::Forbidden;
    }
    let minutes = FULL_REST.saturating_sub(rest);
    Widened::Allowed(K::shortage(minutes as u16))
}
