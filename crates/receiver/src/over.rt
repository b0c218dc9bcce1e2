// A TP that one call is done with. It is passed over: out of step, if no EP begins in it; between two EPs, if fill takes all of it. Or all of
// it is data of the EP under way.
ghost use Rattle.std.specs.Prelude.{◌≡◌, ◌-◌, ◌≤◌, length};
ghost use Rattle.receiver.specs.State.{Able};
ghost use Rattle.receiver.specs.Over.{OverIf, over_of, DataIf, InData, taken_of, put_of};
ghost use Rattle.receiver.specs.InOver.{six_of, FillIf, StartlessIf, VoidIf};

use crate::walk::{Kept, Phase, Walk};
use crate::{Receiver, Stage, entry, stamps};

// Six bytes behind a TP's first one as a number, least significant first: all of them are 0 if it is. The compiler reads them at once.
pub fn six(tp: &[u8]) -> u64
    requires { 7 ≤ length tp.now }
    ensures { result ≡ six_of tp.now }
{
    let mut n = tp[6] as u64;
    n = tp[5] as u64 + 256 * n;
    n = tp[4] as u64 + 256 * n;
    n = tp[3] as u64 + 256 * n;
    n = tp[2] as u64 + 256 * n;
    tp[1] as u64 + 256 * n
}

// Between two EPs, a TP in which an EP of content 0 begins at once: whether its intact header says that it takes all of the TP.
fn is_fill(phase: Phase, tp: &[u8]) -> bool
    requires { 10 ≤ length tp.now }
    ensures { FillIf result phase tp.now }
{
    let Phase::Head { have, word: _ } = phase else {
        return false;
    };
    if have != 0 {
        return false;
    }
    if 4095 < tp.len() - 10 {
        return false;
    }
    digits::from_three(tp[7], tp[8], tp[9]) == golay::encode((tp.len() - 10) as u16)
}

// Out of step, whether an intact word says that a TP has no low-latency part and that no EP begins in it.
fn is_startless(phase: Phase, tp: &[u8]) -> bool
    requires { 4 ≤ length tp.now }
    ensures { StartlessIf result phase tp.now }
{
    let Phase::Lost = phase else {
        return false;
    };
    wire::says_no_start(entry::tp_word(tp))
}

fn is_void(phase: Phase, tp: &[u8]) -> bool
    requires { 10 ≤ length tp.now }
    ensures { VoidIf result phase tp.now }
{
    if six(tp) == 0 {
        return is_fill(phase, tp);
    }
    is_startless(phase, tp)
}

// Whether the next call on this TP, with a room of so many bytes, passes over it and says none. What is rare is asked last.
pub fn is_over(r: Receiver, tp: &[u8], room: usize) -> bool
    requires { Able r }
    ensures { OverIf result r tp.now room }
{
    if tp.len() < 10 {
        return false;
    }
    if !is_void(r.walk.phase, tp) {
        return false;
    }
    let Stage::Fresh = r.stage else {
        return false;
    };
    let None = r.walk.kept else {
        return false;
    };
    if tp.len() != r.size {
        return false;
    }
    if room != r.limit {
        return false;
    }
    let b = tp[0];
    if b / 16 != r.stream {
        return false;
    }
    b % 4 == 0
}

// The receiver behind it: one TP more is counted.
pub fn behind(r: Receiver) -> Receiver
    ensures { result ≡ over_of r }
{
    Receiver {
        count: stamps::counted(r.count),
        stage: Stage::Fresh,
        walk: Walk { at: 0, ..r.walk },
        ..r
    }
}

// Whether the next call on this TP, with a room of so many bytes, takes all of its payload as data of the EP under way, which are kept, and
// says none.
pub fn is_data(r: Receiver, tp: &[u8], room: usize) -> bool
    requires { Able r }
    ensures { DataIf result r tp.now room }
{
    if tp.len() < 10 {
        return false;
    }
    let Phase::Body { header: _, left } = r.walk.phase else {
        return false;
    };
    let Some(_) = r.walk.kept else {
        return false;
    };
    if left <= tp.len() - 4 {
        return false;
    }
    if !wire::says_no_start(entry::tp_word(tp)) {
        return false;
    }
    let Stage::Fresh = r.stage else {
        return false;
    };
    if tp.len() != r.size {
        return false;
    }
    if room != r.limit {
        return false;
    }
    let first = tp[0];
    if first / 16 != r.stream {
        return false;
    }
    first % 4 == 0
}

// The receiver behind such a TP, whose data go to the room.
pub fn taken(r: Receiver, tp: &[u8], room: &mut [u8]) -> Receiver
    requires { Able r × (length room.old ≡ r.limit) × InData r (length tp.now) }
    ensures value { result ≡ taken_of r (length tp.now - 4) }
    ensures room_after { room.new ≡ put_of r tp.now room.old }
{
    let Phase::Body { header, left } = r.walk.phase else {
        return r;
    };
    let Some(kept) = r.walk.kept else {
        return r;
    };
    let n = tp.len() - 4;
    queue::copy_at(room, kept.len, &tp[4..]);
    let phase = Phase::Body {
        header,
        left: left - n,
    };
    let kept = Some(Kept {
        len: kept.len + n,
        ..kept
    });
    let next = behind(r);
    let walk = Walk {
        phase,
        kept,
        ..next.walk
    };
    Receiver { walk, ..next }
}
