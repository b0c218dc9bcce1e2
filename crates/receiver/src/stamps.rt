// Where in the payload a byte of a stamped TP stands, and the stamps of a receiver's own count.
ghost use Rattle.std.specs.Prelude.{◌≡◌};
ghost use Rattle.receiver.specs.Place.{place_at, start_of, own_of, count_of};

use crate::{Place, Stamp};

// The payload begins behind four bytes.
pub fn of(stamp: Stamp, at: usize) -> Place
    ensures { result ≡ place_at stamp at }
{
    if at < 4 {
        return Place { stamp, at: 0 };
    }
    Place { stamp, at: at - 4 }
}

// Place 0.
pub fn start(stamp: Stamp) -> Place
    ensures { result ≡ start_of stamp }
{
    Place { stamp, at: 0 }
}

pub fn own(count: u64) -> Stamp
    ensures { result ≡ own_of count }
{
    Stamp {
        number: count,
        byte: 0,
    }
}

// The count with one TP more: it stops at the most that it can be.
pub fn counted(count: u64) -> u64
    ensures { result ≡ count_of count }
{
    if count < 0xFFFF_FFFF {
        return count + 1;
    }
    0xFFFF_FFFF
}
