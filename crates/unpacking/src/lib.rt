// One call of the receiver with the Chapter 11 packet of its find: what c7unpack does, but for reading and writing.
#![tactic(auto)]

ghost use Rattle.std.specs.Prelude.{◌≡◌};
ghost use Rattle.receiver.specs.State.{Able};
ghost use Rattle.receiver.specs.Call.{call_of, Gives, data_of};
ghost use Rattle.unpacking.specs.Unpacking.{is_chapter11, find_of};

use chapter11::Refusal;
use receiver::{Find, Receiver, Step};

// How many bytes of the output block are held, and why a packet was refused, if one was.
#[derive(Clone, Copy)]
pub struct Unpacked {
    pub at: usize,
    pub refused: Option<Refusal>,
}

// What a call gave, and what became of it.
#[derive(Clone, Copy)]
pub struct Stepped {
    pub step: Step,
    pub unpacked: Unpacked,
}

fn is_chapter11(find: Find) -> bool
    ensures { result ≡ is_chapter11 find }
{
    match find {
        Find::Low { content, .. } => content == 3,
        Find::Ordinary { content, .. } => content == 3,
        _ => false,
    }
}

// Puts the packet of a find, whose data are sp, behind what the block holds.
pub fn put_packet(find: Find, sp: &[u8], out: &mut [u8], at: usize) -> Unpacked
    ensures { record { block = record { bytes = out.new; at = result.at }; refused = result.refused } ≡ find_of find sp.now (record { bytes = out.old; at = at }) }
{
    if !is_chapter11(find) {
        return Unpacked { at, refused: None };
    }
    if out.len() < at {
        return Unpacked {
            at,
            refused: Some(Refusal::Unfit),
        };
    }
    match chapter11::reassemble(sp, &mut out[at..]) {
        Err(k) => Unpacked {
            at,
            refused: Some(k),
        },
        Ok(n) => Unpacked {
            at: at + n,
            refused: None,
        },
    }
}

// Asks for the next find of a TP, and puts its packet.
pub fn step(r: Receiver, tp: &[u8], room: &mut [u8], out: &mut [u8], at: usize) -> Stepped
    requires { Able r }
    ensures gives { Gives (call_of r tp.now room.old) result.step tp.now room.new }
    ensures refused_after { record { block = record { bytes = out.new; at = result.unpacked.at }; refused = result.unpacked.refused } ≡ find_of result.step.find (data_of result.step.find tp.now room.new) (record { bytes = out.old; at = at }) }
{
    let step = receiver::next(r, tp, room);
    let find = step.find;
    let unpacked = put_packet(find, receiver::found(tp, room, find), out, at);
    Stepped { step, unpacked }
}
