// The record of a find, if that is the packet asked for: what a line of an index is for (R-8).
#![tactic(auto)]

ghost use Rattle.std.specs.Prelude.{◌≡◌};
ghost use Rattle.block.specs.Block.{put};
ghost use Rattle.jumping.specs.Wanting.{begun_there, is_sort, is_wanted, wanted_of};

use receiver::{Find, Place};

// A packet is asked for by its sort and by the record and place at which, or behind which, it began.
#[derive(Clone, Copy)]
pub struct Wanted {
    pub record: u64,
    pub place: u64,
    pub low: bool,
}

fn began_there(wanted: Wanted, began: Place) -> bool
    ensures { result ≡ begun_there wanted began }
{
    let record = began.stamp.number;
    wanted.record < record || record == wanted.record && wanted.place <= began.at as u64
}

// Whether a find is a packet of this sort.
fn is_sort(low: bool, find: Find) -> bool
    ensures { result ≡ is_sort low find }
{
    match find {
        Find::Low { .. } => low,
        Find::Ordinary { .. } => !low,
        Find::Nothing | Find::Refused | Find::Notice(_) => false,
    }
}

// Whether a find that began at this place is a packet of the sort asked for, begun where it is asked for or behind.
pub fn is_wanted(wanted: Wanted, began: Place, find: Find) -> bool
    ensures { result ≡ is_wanted wanted began find }
{
    is_sort(wanted.low, find) && began_there(wanted, began)
}

// Puts the record of a find that began at this place, with this data, if it is the packet asked for.
pub fn put_wanted(
    wanted: Wanted,
    began: Place,
    find: Find,
    data: &[u8],
    out: &mut [u8],
    at: usize,
) -> usize
    ensures { record { bytes = out.new; at = result } ≡ put out.old at (wanted_of wanted began find «data».now) }
{
    if !is_wanted(wanted, began, find) {
        return at;
    }
    reading::packet(find, data, out, at)
}
