// What packets are allowed.
ghost use Rattle.std.specs.Prelude.{◌≡◌, ◌≤◌, ltb, length};
ghost use Rattle.sender.specs.declared.Refusal.TheVariants.{Full};
ghost use Rattle.sender.specs.Offering.{known, sp_bytes};
ghost use Rattle.sender.specs.Steps.{checked, judged_of};

use crate::Refusal;
use wire::Sort;

pub fn is_known(content: u8) -> bool
    ensures { result ≡ known content }
{
    matches!(wire::sort_of(content), Sort::Known)
}

fn of_bytes(n: usize, room: usize) -> Result<(), Refusal>
    ensures { result ≡ checked (ltb room n) Full }
{
    if room < n {
        return Err(Refusal::Full);
    }
    Ok(())
}

// An SP that is itself longer than the room is refused before its pieces' bytes are counted, so that the count stays small.
fn of_room(content: u8, sp: &[u8], piece: usize, room: usize) -> Result<(), Refusal>
    requires { (1 ≤ piece) × ((piece ≤ 65535) × (room ≤ 1048576)) }
    ensures { result ≡ checked (ltb room (length (sp_bytes piece content sp.now))) Full }
{
    if sp.len() <= piece {
        return of_bytes(6 + sp.len(), room);
    }
    of_bytes(sp.len(), room)?;
    of_bytes(crate::eps::in_pieces(content, sp, piece), room)
}

// The first refusal of 2, 3 and 4 that holds for an SP of at most so many bytes, where the queue has so much room.
pub fn judged(content: u8, sp: &[u8], most: usize, piece: usize, room: usize) -> Result<(), Refusal>
    requires { (1 ≤ piece) × ((piece ≤ 65535) × (room ≤ 1048576)) }
    ensures { result ≡ judged_of content sp.now most piece room }
{
    if !is_known(content) {
        return Err(Refusal::Content);
    }
    if most < sp.len() {
        return Err(Refusal::Long);
    }
    of_room(content, sp, piece, room)
}
