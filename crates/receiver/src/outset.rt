// How a TP's ordinary bytes are set about: the offset (10, 21), the forecast, 12 on a header begun earlier, 13.
ghost use Rattle.std.specs.Prelude.{◌≡◌, ◌+◌, ◌≤◌, ◌<◌, ◌^◌, length, drop};
ghost use Rattle.wire.specs.Reading.{header_in};
ghost use Rattle.receiver.specs.State.{Settled};
ghost use Rattle.receiver.specs.Outset.{place_of, fore_of, upon_of, lost_at, set_out_of};
ghost use Rattle.receiver.specs.InOutset.{behind_of, ahead_of};

use crate::walk::{Phase, Walk};
use crate::{Place, Stamp, stamps, walk};

// The forecast: out of step; a header beyond repair; bytes before the next EP's first one.
#[derive(Clone, Copy)]
pub enum Fore {
    Off,
    Bad,
    At(usize),
}

// Behind a header read on for the forecast only, of which `missing` bytes stand here.
fn behind(word: u64, missing: usize, rest: usize) -> Fore
    requires { missing ≤ rest }
    ensures { result ≡ behind_of (header_in word) missing rest }
{
    match wire::read_header(word) {
        None => Fore::Bad,
        Some(h) => Fore::At(missing + h.size.min(rest - missing)),
    }
}

fn ahead(tp: &[u8], at: usize, have: usize, word: u64) -> Fore
    requires { (have ≤ 5) × (word < 256 ^ have) × (at ≤ length tp.now) }
    ensures { result ≡ ahead_of tp.now at have word }
{
    if have == 0 {
        return Fore::At(0);
    }
    let rest = tp.len() - at;
    let missing = 6 - have;
    if rest < missing {
        return Fore::At(rest);
    }
    behind(walk::gather(tp, at, missing, have, word), missing, rest)
}

fn forecast(tp: &[u8], at: usize, phase: Phase) -> Fore
    requires { (at ≤ length tp.now) × Settled phase }
    ensures { result ≡ fore_of phase (drop at tp.now) }
{
    match phase {
        Phase::Lost => Fore::Off,
        Phase::Head { have, word } => ahead(tp, at, have, word),
        Phase::Judged(h) => Fore::At(h.size.min(tp.len() - at)),
        Phase::Body { header: _, left } => Fore::At(left.min(tp.len() - at)),
    }
}

// Behind how many bytes the first EP that begins here stands; notice 10 if the offset points past the payload, 21 if before the low-latency part's end.
pub fn place_of(offset: usize, at: usize, len: usize) -> Result<usize, u8>
    requires { (offset < 2048) × (at ≤ len) }
    ensures { result ≡ place_of offset at len }
{
    if offset == 2047 {
        return Ok(len - at);
    }
    if len <= offset + 4 {
        return Err(10);
    }
    if offset + 4 < at {
        return Err(21);
    }
    Ok(offset + 4 - at)
}

// In step from an offset on, if there is one.
pub fn upon(at: usize, len: usize) -> Phase
    ensures { result ≡ upon_of at len }
{
    if at < len {
        return Phase::Head { have: 0, word: 0 };
    }
    Phase::Lost
}

// The place that the notice of a loss carries: 12 that of the header under way, 13 place 0.
pub fn lost_at(number: u8, stamp: Stamp, began: Place) -> Place
    ensures { result ≡ lost_at number stamp began }
{
    if number == 12 {
        return began;
    }
    stamps::start(stamp)
}

// Sets about a TP's ordinary bytes, of which n stand before the first EP that begins here: the walk to read on with, or the notice that puts out of
// step.
pub fn set_out(w: Walk, n: usize, tp: &[u8]) -> Result<Walk, u8>
    requires { (w.at + n ≤ length tp.now) × Settled w.phase }
    ensures { result ≡ set_out_of w n tp.now }
{
    let start = w.at + n;
    match forecast(tp, w.at, w.phase) {
        Fore::Off => {
            let phase = upon(start, tp.len());
            Ok(Walk {
                at: start,
                phase,
                ..w
            })
        }
        Fore::Bad => Err(12),
        Fore::At(k) => {
            if k == n {
                return Ok(w);
            }
            Err(13)
        }
    }
}
