// The low-latency part of a TP.
ghost use Rattle.std.specs.Prelude.{◌≡◌, cond, ◌-◌, ◌≤◌, ◌<◌, ltb, length, set};
ghost use Rattle.queue.specs.Ring.{Kept};
ghost use Rattle.sender.specs.Steps.{Looked};

use crate::Refusal;
use crate::reading::low_at;
use queue::Ring;

// The ring behind the part, and the part's end in the TP.
#[derive(Clone, Copy)]
pub struct Part {
    pub ring: Ring,
    pub at: usize,
}

// The last LLEP's end byte, if any LLEP stands before place at.
fn end(tp: &mut [u8], at: usize)
    requires { 4 < at → at ≤ length tp.old }
    ensures { tp.new ≡ cond (ltb 4 at) (set tp.old (at - 1) 0) tp.old }
{
    if 4 < at {
        tp[at - 1] = 0;
    }
}

// Writes the low-latency part into a TP, or gives the first refusal of 1 and 5 that holds. There is one place that looks for the
// next LLEP: so the compiler puts it into the loop.
pub fn low_part(payload: usize, buf: &[u8], q: Ring, tp: &mut [u8]) -> Result<Part, Refusal>
    requires kept { Kept buf.now q }
    requires payload_bound { payload ≤ 2047 }
    ensures { Looked payload buf.now q tp.old tp.new result }
{
    let is_tp = tp.len() == payload + 4;
    let mut t = q;
    let mut at = 4;
    while let Some(n) = low_at(payload + 4 - at, buf, t) {
        if !is_tp {
            return Err(Refusal::Buffer);
        }
        t = t.pop_into(buf, tp, at, n);
        tp[at + n] = 255;
        at += n + 1;
    }
    // something is queued, and no LLEP at its head
    if at == 4 && 0 < q.len {
        return Err(Refusal::Limits);
    }
    if !is_tp {
        return Err(Refusal::Buffer);
    }
    end(tp, at);
    Ok(Part { ring: t, at })
}
