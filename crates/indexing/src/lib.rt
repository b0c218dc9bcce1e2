// The index beside a recording (R-8 of document 02), but for files and line 0: a packet's line, and of which finds it is put.
#![tactic(auto)]

ghost use Rattle.std.specs.Prelude.{◌≡◌};
ghost use Rattle.block.specs.Block.{put};
ghost use Rattle.indexing.specs.Lines.{new_text};

mod lines;

pub use lines::line;
use receiver::{Find, Place};

// Puts the line of a find that began at this place, unless the record of the TP that gave it is covered: what that hands out is
// listed.
pub fn put_new(
    covered: u64,
    number: u64,
    began: Place,
    find: Find,
    out: &mut [u8],
    at: usize,
) -> usize
    ensures { record { bytes = out.new; at = result } ≡ put out.old at (new_text covered number began find) }
{
    if number < covered {
        return at;
    }
    line(began, find, out, at)
}
