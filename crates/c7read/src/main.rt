// The reading program: house records of TPs and gaps in, the setup record and a record for each packet handed out. Its output here
// is that of the second program.
#![tactic(auto)]

ghost use Rattle.house.specs.declared.Place.TheVariants.{Listing};
ghost use Rattle.receiver.specs.State.{Able};

use console::{Console, FULL, Lent, SIZE, Taken};
use house::{Fault, Place, Record};
use receiver::Receiver;

// No TP has so many finds: a loop over them ends for this. One that it cut short would go on at the same place.
const FINDS: u64 = 4096;

// Between two finds: the receiver, and how much of the output block is held.
#[derive(Drop)]
struct Reading {
    receiver: Receiver,
    at: usize,
}

// The receiver's room, and the output block. A record more than FULL bytes always has room in it.
#[derive(Drop)]
struct Buffers {
    room: [u8; 32768],
    out: [u8; 131072],
}

impl Reading {
    // The finds of a TP, while the output block has room; answers whether the TP is done.
    fn finds(&mut self, buffers: &mut Buffers, tp: &[u8]) -> bool
        requires { Able self.old.receiver }
        ensures { Able self.new.receiver }
    {
        for _ in 0..FINDS {
            if FULL <= self.at {
                return false;
            }
            let wrote = reading::step(
                self.receiver,
                tp,
                &mut buffers.room,
                &mut buffers.out,
                self.at,
            );
            self.receiver = wrote.step.receiver;
            self.at = wrote.at;
            if !receiver::lasts(wrote.step.find) {
                return true;
            }
        }
        false
    }

    // What one record does; kinds other than 4 and 5 are not read here. Answers whether it is done.
    fn turn(&mut self, buffers: &mut Buffers, said: Record, data: &[u8]) -> bool
        requires { Able self.old.receiver }
        ensures { Able self.new.receiver }
    {
        if let Record::Packet { .. } = said {
            return self.finds(buffers, data);
        }
        self.receiver = receiver::gap(self.receiver);
        true
    }
}

impl Lent for Reading {
    type Buffers = Buffers;

    const PLACE: Place = Place::Listing;

    ghost PLACE = { Listing };

    ghost Before = { λ _ reading _ _ _. Able reading.receiver };

    ghost Behind = { λ _ reading _ _ _. Able reading.receiver };

    fn take(&mut self, buffers: &mut Buffers, unread: &[u8]) -> Taken {
        let mut bytes = 0;
        while self.at < FULL {
            let rest = &unread[bytes..];
            let Ok(Some(said)) = house::read_record(Self::PLACE, rest) else {
                break;
            };
            let data = house::data_of(said, rest);
            if !self.turn(buffers, said, data) {
                break;
            }
            bytes += 8 + data.len();
        }
        Taken {
            bytes,
            refused: None,
        }
    }

    fn held<'a>(&self, buffers: &'a Buffers) -> &'a [u8] {
        &buffers.out[..self.at.min(buffers.out.len())]
    }

    fn empty(&mut self) {
        self.at = 0;
    }
}

// The setup record goes out as it was read.
fn main(rt: HostRuntime) {
    let console = Console {
        rt: &rt,
        program: b"c7read",
    };
    let mut block = [0; SIZE];
    let Some(start) = console.first(&mut block) else {
        return;
    };
    let mut buffers = Buffers {
        room: [0; 32768],
        out: [0; 131072],
    };
    let Some(receiver) = receiver::open(start.setup.tp, start.setup.stream, &buffers.room) else {
        console.stop(0, Fault::Limits);
        return;
    };
    let at = block::put(&mut buffers.out, 0, &block[0..13]);
    let mut reading = Reading { receiver, at };
    console.run_lent(&mut reading, &mut buffers, start.unread, &mut block);
}
