// The packing program but for its main: a script in, the same script with its Chapter 11 packets composed out (R-1 of document
// 02). A refused packet is left out, and told on standard error.
#![tactic(auto)]

ghost use Rattle.house.specs.declared.Place.TheVariants.{Sending};

use console::{Console, FULL, Lent, Refused, SIZE, Taken};
use house::{Place, Record};

// Between two records: how much of the output block is held.
#[derive(Drop)]
struct Packing {
    at: usize,
}

// A buffer for a source packet, and the output block. A record more than FULL bytes always has room in it.
#[derive(Drop)]
struct Buffers {
    sp: [u8; 32768],
    out: [u8; 131072],
}

impl Lent for Packing {
    type Buffers = Buffers;

    const PLACE: Place = Place::Sending;

    ghost PLACE = { Sending };

    ghost Before = { λ _ _ _ _ _. Unit {0} };

    ghost Behind = { λ _ _ _ _ _. Unit {0} };

    fn take(&mut self, buffers: &mut Buffers, unread: &[u8]) -> Taken {
        let mut bytes = 0;
        while self.at < FULL {
            let rest = &unread[bytes..];
            let Ok(Some(said)) = house::read_record(Self::PLACE, rest) else {
                break;
            };
            let data = house::data_of(said, rest);
            let packed = packing::turn(said, data, &mut buffers.sp, &mut buffers.out, self.at);
            let begin = bytes;
            self.at = packed.at;
            bytes += 8 + data.len();
            if let Some(k) = packed.refused {
                return Taken {
                    bytes,
                    refused: Some(Refused {
                        begin,
                        number: u8::from(k),
                    }),
                };
            }
        }
        Taken {
            bytes,
            refused: None,
        }
    }

    fn held<'a>(&self, buffers: &'a Buffers) -> &'a [u8] {
        &buffers.out[..self.at.min(buffers.out.len())]
    }

    fn empty(&mut self) {
        self.at = 0;
    }
}

// From standard input to standard output.
pub fn from_input(rt: &HostRuntime) {
    let console = Console {
        rt,
        program: b"c7pack",
    };
    let mut block = [0u8; SIZE];
    let Some(start) = console.first(&mut block) else {
        return;
    };
    let mut buffers = Buffers {
        sp: [0; 32768],
        out: [0; 131072],
    };
    let at = packing::put_record(Record::Setup, &block[8..13], &mut buffers.out, 0);
    let mut packing = Packing { at };
    console.run_lent(&mut packing, &mut buffers, start.unread, &mut block);
}
