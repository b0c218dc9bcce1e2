// The sending program but for its main: house records of SPs and draws in, house records of TPs out (document 01, 'Records and
// programs'). A refused offer is skipped, and told on standard error.
#![tactic(auto)]

ghost use Rattle.std.specs.Prelude.{◌≡◌, ◌≤◌, take, drop, length, IfSome, IfOk};
ghost use Rattle.console.specs.Taking.{Whole};
ghost use Rattle.house.specs.Records.{record_bytes};
ghost use Rattle.house.specs.declared.Place.TheVariants as P;
ghost use Rattle.house.specs.declared.Record.TheVariants as R;
ghost use Rattle.sender.specs.Opening.{Sound};
ghost use Rattle.sending.specs.Turn.{turn_of};
ghost use Rattle.send_loop.specs.Running.{Ready, Sent};
ghost use Rattle.send_loop.specs.Whole.{Comes, Went};

use console::{Console, FULL, Lent, Refused, SIZE, Taken};
use house::{Fault, Place, Record, Setup};
use sender::{Refusal, Sender};

// Between two records: the sender with its TP length, and how much of the output block is held.
#[derive(Drop)]
struct Sending {
    sender: Sender,
    tp: usize,
    at: usize,
}

// The sender's queues, and the output block.
#[derive(Drop)]
struct Buffers {
    low: [u8; 32768],
    ordinary: [u8; 32768],
    out: [u8; 65536],
}

impl Sending {
    // With these settings and their setup record held.
    fn open(setup: Setup, bytes: &[u8], buffers: &mut Buffers) -> Result<Sending, Refusal>
        requires { length bytes.now ≡ 5 }
        ensures { IfOk result (λ p. Ready p buffers.new × (take p.at buffers.new.out ≡ record_bytes R.Setup bytes.now)) }
    {
        let sender = sender::open(
            setup.tp,
            setup.stream,
            setup.piece,
            &buffers.low,
            &buffers.ordinary,
        )?;
        Ok(Sending {
            sender,
            tp: setup.tp,
            at: sending::begin(bytes, &mut buffers.out),
        })
    }

    // What one record does, or the number of its refusal.
    fn turn(&mut self, buffers: &mut Buffers, said: Record, sp: &[u8]) -> Option<u8>
        requires { Sound self.old.sender }
        ensures sound { Sound self.new.sender }
        ensures same { (self.new.tp ≡ self.old.tp) × (length buffers.new.out ≡ length buffers.old.out) }
        ensures after { record { sender = self.new.sender; low = buffers.new.low; ordinary = buffers.new.ordinary; block = record { bytes = buffers.new.out; at = self.new.at }; refused = result } ≡ turn_of said self.old.sender sp.now buffers.old.low buffers.old.ordinary self.old.tp (record { bytes = buffers.old.out; at = self.old.at }) }
    {
        let turned = sending::turn(
            self.sender,
            said,
            sp,
            &mut buffers.low,
            &mut buffers.ordinary,
            self.tp,
            &mut buffers.out,
            self.at,
        );
        self.sender = turned.sender;
        self.at = turned.at;
        turned.refused
    }

    // Takes the whole records of the stretch, while the output block has room, up to the first offer that is refused.
    fn turns(&mut self, buffers: &mut Buffers, unread: &[u8]) -> Taken
        requires { Ready self.old buffers.old }
        ensures ready { Ready self.new buffers.new }
        ensures whole { Whole P.Sending unread.now result.bytes }
        ensures begins { IfSome result.refused (λ r. r.begin ≤ length unread.now) }
        ensures sent { Sent self.old buffers.old unread.now self.new buffers.new (drop result.bytes unread.now) }
    {
        let mut bytes = 0;
        while self.at < FULL {
            let rest = &unread[bytes..];
            let Ok(Some(said)) = house::read_record(Place::Sending, rest) else {
                break;
            };
            let sp = house::data_of(said, rest);
            let begin = bytes;
            bytes += 8 + sp.len();
            if let Some(number) = self.turn(buffers, said, sp) {
                return Taken {
                    bytes,
                    refused: Some(Refused { begin, number }),
                };
            }
        }
        Taken {
            bytes,
            refused: None,
        }
    }
}

impl Lent for Sending {
    type Buffers = Buffers;

    const PLACE: Place = Place::Sending;

    ghost PLACE = { P.Sending };

    ghost Before = { λ _ sending buffers n unread. Ready sending buffers × Comes sending buffers unread };

    ghost Behind = { λ _ sending buffers n unread. Ready sending buffers × Went sending buffers unread };

    fn take(&mut self, buffers: &mut Buffers, unread: &[u8]) -> Taken {
        self.turns(buffers, unread)
    }

    fn held<'a>(&self, buffers: &'a Buffers) -> &'a [u8] {
        &buffers.out[..self.at.min(buffers.out.len())]
    }

    fn empty(&mut self) {
        self.at = 0;
    }
}

// From standard input to standard output.
pub fn from_input(rt: &HostRuntime) {
    let console = Console {
        rt,
        program: b"c7send",
    };
    let mut block = [0; SIZE];
    let Some(start) = console.first(&mut block) else {
        return;
    };
    let mut buffers = Buffers {
        low: [0; 32768],
        ordinary: [0; 32768],
        out: [0; 65536],
    };
    let Ok(mut sending) = Sending::open(start.setup, &block[8..13], &mut buffers) else {
        console.stop(0, Fault::Limits);
        return;
    };
    console.run_lent(&mut sending, &mut buffers, start.unread, &mut block);
}
