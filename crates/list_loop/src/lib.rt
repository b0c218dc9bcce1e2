// The listing program but for its main: house records of TPs and gaps in, a line for each find out (document 01, 'Records and
// programs').
#![tactic(auto)]

ghost use Rattle.std.specs.Prelude.{◌≡◌, ◌≤◌, length, IfSome};
ghost use Rattle.list_loop.specs.Running.{Fit, Onward, Ready, Ahead, Found, Does, Listed};
ghost use Rattle.list_loop.specs.Rounds.{Before, Behind, Opened};
ghost use Rattle.house.specs.declared.Place.TheVariants as P;

mod lanes;

use console::{Console, FULL, Lent, SIZE, Taken};
use house::{Fault, Place, Record, Setup};
use listing::Ten;
use receiver::{Receiver, over};

// Between two finds: the receiver, how many TPs are done, how much of the output block is held, where in the input block the
// record begins.
#[derive(Clone, Copy)]
pub struct Run {
    receiver: Receiver,
    done: u64,
    ten: Ten,
    at: usize,
    from: usize,
}

// The finds of a TP, while the output block has room; then the TP is done.
fn finds(first: Run, tp: &[u8], room: &mut [u8], out: &mut [u8]) -> Run
    requires { Fit first (length tp.now) (length out.old) }
    ensures onward { Onward first (length tp.now) result }
    ensures found { Found tp.now first room.old out.old result room.new out.new }
{
    let mut receiver = first.receiver;
    let mut ten = first.ten;
    let mut at = first.at;
    let number = first.done + 1;
    while at < FULL {
        let listed = listing::step(receiver, ten, number, tp, room, out, at);
        let step = listed.step;
        receiver = step.receiver;
        ten = listed.ten;
        at = listed.at;
        let find = step.find;
        if !receiver::lasts(find) {
            return Run {
                receiver,
                done: number,
                ten,
                at,
                from: first.from + 8 + tp.len(),
            };
        }
    }
    Run {
        receiver,
        done: first.done,
        ten,
        at,
        from: first.from,
    }
}

// What one record does; kinds other than 4 and 5 are not read here.
fn turn(run: Run, said: Record, data: &[u8], room: &mut [u8], out: &mut [u8]) -> Run
    requires { Fit run (length «data».now) (length out.old) }
    ensures onward { Onward run (length «data».now) result }
    ensures does { Does said «data».now run room.old out.old result room.new out.new }
{
    let receiver = run.receiver;
    let ten = run.ten;
    if let Record::Packet { length: _ } = said {
        if over::is_over(receiver, data, room.len()) {
            return Run {
                receiver: over::behind(receiver),
                done: run.done + 1,
                ten,
                at: run.at,
                from: run.from + 8 + data.len(),
            };
        }
        if over::is_data(receiver, data, room.len()) {
            return Run {
                receiver: over::taken(receiver, data, room),
                done: run.done + 1,
                ten,
                at: run.at,
                from: run.from + 8 + data.len(),
            };
        }
        return finds(run, data, room, out);
    }
    Run {
        receiver: receiver::gap(receiver),
        done: run.done,
        ten,
        at: run.at,
        from: run.from + 8,
    }
}

// Takes the whole records of the input block, while the output block has room: TPs by tracks, and by calls what those leave.
fn turns(first: Run, till: usize, block: &[u8], room: &mut [u8], out: &mut [u8]) -> Run
    requires { Ready first till (length block.now) (length out.old) }
    ensures ahead { Ahead first till result }
    ensures listed { Listed till block.now first room.old out.old result room.new out.new }
{
    let mut run = first;
    while run.at < FULL {
        run = lanes::pass_all(run, till, block, room, out);
        let from = run.from;
        let unread = &block[from..till];
        let Ok(Some(said)) = house::read_record(Place::Listing, unread) else {
            return run;
        };
        // Tracks may have filled the output block.
        if FULL <= run.at {
            return run;
        }
        run = turn(run, said, house::data_of(said, unread), room, out);
    }
    run
}

// The program between two blocks: where it stands.
#[derive(Drop)]
struct Lister {
    run: Run,
}

// The receiver's room, and the output block.
#[derive(Drop)]
struct Buffers {
    room: [u8; 32768],
    out: [u8; 65536],
}

impl Lister {
    // With a receiver of these settings, and the header line held.
    fn open(setup: Setup, buffers: &mut Buffers) -> Option<Lister>
        ensures { IfSome result (λ p. Opened p buffers.new) }
    {
        let receiver = receiver::open(setup.tp, setup.stream, &buffers.room)?;
        let at = listing::header(&mut buffers.out, 0);
        Some(Lister {
            run: Run {
                receiver,
                done: 0,
                ten: listing::first_ten(),
                at,
                from: 0,
            },
        })
    }
}

impl Lent for Lister {
    type Buffers = Buffers;

    const PLACE: Place = Place::Listing;

    ghost PLACE = { P.Listing };

    ghost Before = { Before };

    ghost Behind = { Behind };

    fn take(&mut self, buffers: &mut Buffers, unread: &[u8]) -> Taken {
        let first = Run {
            from: 0,
            ..self.run
        };
        self.run = turns(
            first,
            unread.len(),
            unread,
            &mut buffers.room,
            &mut buffers.out,
        );
        Taken {
            bytes: self.run.from,
            refused: None,
        }
    }

    fn held<'a>(&self, buffers: &'a Buffers) -> &'a [u8] {
        &buffers.out[..self.run.at.min(buffers.out.len())]
    }

    fn empty(&mut self) {
        self.run.at = 0;
    }
}

// From standard input to standard output.
pub fn from_input(rt: &HostRuntime) {
    let console = Console {
        rt,
        program: b"c7list",
    };
    let mut block = [0; SIZE];
    let Some(start) = console.first(&mut block) else {
        return;
    };
    let mut buffers = Buffers {
        room: [0; 32768],
        out: [0; 65536],
    };
    let Some(mut lister) = Lister::open(start.setup, &mut buffers) else {
        console.stop(0, Fault::Limits);
        return;
    };
    console.run_lent(&mut lister, &mut buffers, start.unread, &mut block);
}
