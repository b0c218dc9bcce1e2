// A packet's line.
ghost use Rattle.std.specs.Prelude.{◌≡◌, ◌+◌, ◌≤◌, length};
ghost use Rattle.block.specs.Block.{put};
ghost use Rattle.indexing.specs.Lines.{is_packet, packet_text, find_text};

use receiver::{Find, Place};

fn is_packet(find: Find) -> bool
    ensures { result ≡ is_packet find }
{
    matches!(find, Find::Low { .. } | Find::Ordinary { .. })
}

// Puts a packet's line, where the longest line has room: its record, its place, and what a listing says behind a TP's number.
fn spell(began: Place, find: Find, out: &mut [u8], at: usize) -> usize
    requires { at + 101 ≤ length out.old }
    ensures { record { bytes = out.new; at = result } ≡ put out.old at (packet_text began find) }
{
    let mut end = block::put_number(out, at, began.stamp.number);
    end = block::put(out, end, b" ");
    end = block::put_number(out, end, began.at as u64);
    listing::rest(find, out, end)
}

// Puts the line of a find that began at this place; only a packet has one.
pub fn line(began: Place, find: Find, out: &mut [u8], at: usize) -> usize
    ensures { record { bytes = out.new; at = result } ≡ put out.old at (find_text began find) }
{
    if !is_packet(find) {
        return at;
    }
    if 101 <= out.len().saturating_sub(at) {
        return spell(began, find, out, at);
    }
    let mut text = [0u8; 101];
    let n = spell(began, find, &mut text, 0);
    block::put(out, at, &text[..n])
}
