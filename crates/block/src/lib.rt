// An output block: bytes and numbers are put behind what it holds, whole or not at all.
#![tactic(auto)]

ghost use Rattle.std.specs.Prelude.{◌≡◌};
ghost use Rattle.block.specs.Block.{put as Block·put};

mod numbers;

pub use numbers::{put_number, put_small};

// Puts s behind the first `at` bytes of out, and answers how many are held then. They stay two parameters: between two puts a caller
// lends parts of out to others (`unpacking::put_packet`), for which a struct of both would have to be taken apart.
pub fn put(out: &mut [u8], at: usize, s: &[u8]) -> usize
    ensures { record { bytes = out.new; at = result } ≡ Block·put out.old at s.now }
{
    if out.len() < at || out.len() - at < s.len() {
        return at;
    }
    let end = at + s.len();
    out[at..end].copy_from_slice(s);
    end
}
