//! Where the sectors of a track are.

ghost use Rattle.std.specs.Prelude.{◌≡◌, ◌<◌};
ghost use Rattle.lgp_word.specs.Drum.{position_of, track_size};

use crate::address::Address;

/// How many positions on from a sector the next one is (Programming Manual, "Optimization").
const INTERLACE: u16 = 9;

/// The position at which a sector is on its track, of those that pass the head one after another. `sector` is its number on its
/// track, below 64.
pub fn position_of(sector: u16) -> u16
    requires { sector < track_size }
    ensures position { result ≡ position_of sector }
    ensures within { result < track_size }
{
    INTERLACE * sector % Address::SECTORS
}
