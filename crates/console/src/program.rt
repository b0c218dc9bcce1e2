// The loop over the blocks of the input, which is the same for every program that reads records.
ghost use Rattle.std.specs.Prelude.{ℕ, ◌+◌, ◌*◌, ◌≤◌, List, ◌++◌, length, drop, IfSome};
ghost use Rattle.house.specs.declared.Place.{Place};
ghost use Rattle.console.specs.Taking.{stretch, Whole};

use crate::{BLOCKS, Console, SIZE, Unread, stretch};
use house::Place;

// A refusal: where its record begins in what was unread, and the refusal's number.
#[derive(Clone, Copy)]
pub struct Refused {
    pub begin: usize,
    pub number: u8,
}

// What was taken: how many bytes, and the refusal that ended it.
#[derive(Clone, Copy)]
pub struct Taken {
    pub bytes: usize,
    pub refused: Option<Refused>,
}

// What a program does with the records of its input, where its buffers are lent to it: what else it keeps from record to record is
// small, and the compiler has it in registers.
pub trait Lent {
    type Buffers;

    // The records that it reads behind the setup.
    const PLACE: Place;

    ghost PLACE: { Place };

    // What holds of the program that the loop began with, and of this one with its buffers, before these bytes are taken, if so many
    // more may be read behind them.
    ghost Before: { Self → Self → Self.Buffers → ℕ → List ℕ → Type 0 };

    // What holds of both behind the records taken, before what is left of the bytes.
    ghost Behind: { Self → Self → Self.Buffers → ℕ → List ℕ → Type 0 };

    // Takes whole records from the start of what is unread, while there is room for what they become, up to the first that is refused.
    fn take(&mut self, buffers: &mut Self::Buffers, unread: &[u8]) -> Taken
        requires { (begun : Self) × ((n : ℕ) × Before begun self.old buffers.old n unread.now) }
        ensures whole { Whole PLACE unread.now result.bytes }
        ensures begins { IfSome result.refused (λ r. r.begin ≤ length unread.now) }
        ensures behind { (begun : Self) (n : ℕ) → Before begun self.old buffers.old n unread.now → Behind begun self.new buffers.new n (drop result.bytes unread.now) };

    // What is to be written out.
    fn held<'a>(&self, buffers: &'a Self::Buffers) -> &'a [u8];

    // It is written, and more may be read behind what is left.
    fn empty(&mut self)
        ensures { (begun : Self) (b : Self.Buffers) (n m : ℕ) (rest more : List ℕ) → m + length more ≤ n → length rest + length more ≤ SIZE → Behind begun self.old b n rest → Before begun self.new b m (rest ++ more) };
}

impl Console<'_> {
    // Takes block after block: a program's records, from this stretch on.
    pub fn run_lent<P: Lent>(
        self,
        program: &mut P,
        buffers: &mut P::Buffers,
        first: Unread,
        block: &mut [u8; SIZE],
    )
        requires from { first.from ≤ first.till }
        requires till { first.till ≤ SIZE }
        requires before { P.Before program.old program.old buffers.old (BLOCKS * SIZE) (stretch block.old first) }
    {
        let mut unread = first;
        for _ in 0..BLOCKS {
            let taken = program.take(buffers, stretch::bytes_of(block, unread));
            if let Some(refused) = taken.refused {
                self.refused(stretch::behind(unread, refused.begin), refused.number);
            }
            let rest = stretch::behind(unread, taken.bytes);
            let Some(next) = self.go_on(P::PLACE, block, rest, program.held(buffers)) else {
                return;
            };
            program.empty();
            unread = next;
        }
    }
}
