// The data of a setup record.
ghost use Rattle.std.specs.Prelude.{◌≡◌};
ghost use Rattle.house.specs.Setups.{settings_of};

use crate::Setup;

// Reads the settings, if they are within the sender's limits.
pub fn read_setup(data: &[u8]) -> Option<Setup>
    ensures { result ≡ settings_of «data».now }
{
    if data.len() != 5 {
        return None;
    }
    let tp = digits::from_two(data[0], data[1]);
    let stream = data[2];
    let piece = digits::from_two(data[3], data[4]);
    if !wire::is_allowed(tp, stream, piece) {
        return None;
    }
    Some(Setup { tp, stream, piece })
}
