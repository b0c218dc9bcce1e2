// One call of the receiver with the record of its find: what the reading program does, but for reading and writing.
#![tactic(auto)]

ghost use Rattle.std.specs.Prelude.{◌≡◌};
ghost use Rattle.block.specs.Block.{put};
ghost use Rattle.receiver.specs.State.{Able};
ghost use Rattle.receiver.specs.Call.{call_of, data_of, Gives};
ghost use Rattle.reading.specs.Packets.{packet_of};

use house::Record;
use receiver::{Find, Receiver, Step};

// What a call gave, and how many bytes of the output block are held.
#[derive(Clone, Copy)]
pub struct Wrote {
    pub step: Step,
    pub at: usize,
}

// Puts the record of a packet; a notice has none.
pub fn packet(find: Find, data: &[u8], out: &mut [u8], at: usize) -> usize
    ensures { record { bytes = out.new; at = result } ≡ put out.old at (packet_of find «data».now) }
{
    let length = data.len();
    let said = match find {
        Find::Low { content, .. } => Record::Low { content, length },
        Find::Ordinary { content, .. } => Record::Ordinary { content, length },
        Find::Nothing | Find::Refused | Find::Notice(_) => return at,
    };
    house::write_record(said, data, out, at).unwrap_or(at)
}

// Asks for the next find of a TP, and puts its record.
pub fn step(r: Receiver, tp: &[u8], room: &mut [u8], out: &mut [u8], at: usize) -> Wrote
    requires { Able r }
    ensures gives { Gives (call_of r tp.now room.old) result.step tp.now room.new }
    ensures at_after { record { bytes = out.new; at = result.at } ≡ put out.old at (packet_of result.step.find (data_of result.step.find tp.now room.new)) }
{
    let step = receiver::next(r, tp, room);
    let data = receiver::found(tp, room, step.find);
    let held = packet(step.find, data, out, at);
    Wrote { step, at: held }
}
