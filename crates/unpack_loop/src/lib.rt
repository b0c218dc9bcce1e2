// The unpacking program but for its main: house records of TPs and gaps in, the Chapter 11 packets that are handed out, reassembled
// and one right behind the other, out (R-1 of document 02). A refused one is left out, and told on standard error.
#![tactic(auto)]

ghost use Rattle.house.specs.declared.Place.TheVariants.{Listing};
ghost use Rattle.receiver.specs.State.{Able};

use console::{Console, FULL, Lent, Refused, SIZE, Taken};
use house::{Fault, Place, Record};
use receiver::Receiver;

// No TP has so many finds: a loop over them ends for this.
const FINDS: u64 = 65536;

// Between two finds: the receiver, and how much of the output block is held.
#[derive(Drop)]
struct Unpacking {
    receiver: Receiver,
    at: usize,
}

// The receiver's room, and the output block. The packets of a TP more than FULL bytes always have room in it.
#[derive(Drop)]
struct Buffers {
    room: [u8; 32768],
    out: [u8; 131072],
}

impl Unpacking {
    // The finds of a TP, up to the first packet that is refused, whose number it answers; else the TP is done.
    fn finds(&mut self, buffers: &mut Buffers, tp: &[u8]) -> Option<u8>
        requires { Able self.old.receiver }
        ensures { Able self.new.receiver }
    {
        for _ in 0..FINDS {
            let stepped = unpacking::step(
                self.receiver,
                tp,
                &mut buffers.room,
                &mut buffers.out,
                self.at,
            );
            self.receiver = stepped.step.receiver;
            self.at = stepped.unpacked.at;
            if let Some(k) = stepped.unpacked.refused {
                return Some(u8::from(k));
            }
            if !receiver::lasts(stepped.step.find) {
                return None;
            }
        }
        None
    }

    // What one record does; kinds other than 4 and 5 are not read here.
    fn turn(&mut self, buffers: &mut Buffers, said: Record, data: &[u8]) -> Option<u8>
        requires { Able self.old.receiver }
        ensures { Able self.new.receiver }
    {
        if let Record::Packet { .. } = said {
            return self.finds(buffers, data);
        }
        self.receiver = receiver::gap(self.receiver);
        None
    }
}

impl Lent for Unpacking {
    type Buffers = Buffers;

    const PLACE: Place = Place::Listing;

    ghost PLACE = { Listing };

    ghost Before = { λ _ unpacking _ _ _. Able unpacking.receiver };

    ghost Behind = { λ _ unpacking _ _ _. Able unpacking.receiver };

    fn take(&mut self, buffers: &mut Buffers, unread: &[u8]) -> Taken {
        let mut bytes = 0;
        while self.at < FULL {
            let rest = &unread[bytes..];
            let Ok(Some(said)) = house::read_record(Self::PLACE, rest) else {
                break;
            };
            let data = house::data_of(said, rest);
            if let Some(number) = self.turn(buffers, said, data) {
                return Taken {
                    bytes,
                    refused: Some(Refused {
                        begin: bytes,
                        number,
                    }),
                };
            }
            bytes += 8 + data.len();
        }
        Taken {
            bytes,
            refused: None,
        }
    }

    fn held<'a>(&self, buffers: &'a Buffers) -> &'a [u8] {
        &buffers.out[..self.at.min(buffers.out.len())]
    }

    fn empty(&mut self) {
        self.at = 0;
    }
}

// From standard input to standard output.
pub fn from_input(rt: &HostRuntime) {
    let console = Console {
        rt,
        program: b"c7unpack",
    };
    let mut block = [0; SIZE];
    let Some(start) = console.first(&mut block) else {
        return;
    };
    let mut buffers = Buffers {
        room: [0; 32768],
        out: [0; 131072],
    };
    let Some(receiver) = receiver::open(start.setup.tp, start.setup.stream, &buffers.room) else {
        console.stop(0, Fault::Limits);
        return;
    };
    let mut unpacking = Unpacking { receiver, at: 0 };
    console.run_lent(&mut unpacking, &mut buffers, start.unread, &mut block);
}
