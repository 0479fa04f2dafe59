//! Refusals that name no feature.
ghost use Rattle.std.specs.Prelude.{◌≡◌};

use sb_base::{Place, Refusal, Stop};

/// A refusal by a number at a place, which names no feature.
pub fn stop_at(number: u16, place: Place) -> Stop
    ensures { result ≡ Stop.Refused (record { number = number; place = place; feature = 0 }) }
{
    Stop::Refused(Refusal {
        number,
        place,
        feature: 0,
    })
}
