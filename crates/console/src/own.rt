// The same loop for a program that keeps its buffers in itself.
ghost use Rattle.std.specs.Prelude.{ℕ, ◌+◌, ◌*◌, ◌≤◌, List, ◌++◌, length, drop, IfSome};
ghost use Rattle.house.specs.declared.Place.{Place};
ghost use Rattle.console.specs.Taking.{stretch, Whole};
ghost use Rattle.console.specs.Own.{Comes};

use crate::{BLOCKS, Console, Lent, SIZE, Taken, Unread};
use house::Place;
use std::marker::PhantomData;

// What a program does with the records of its input, where it keeps its buffers in itself.
pub trait Program {
    // The records that it reads behind the setup.
    const PLACE: Place;

    ghost PLACE: { Place };

    // What holds before these bytes are taken, if so many more may be read behind them.
    ghost Before: { Self → ℕ → List ℕ → Type 0 };

    // What holds behind the records taken, before what is left of the bytes.
    ghost Behind: { Self → ℕ → List ℕ → Type 0 };

    // Takes whole records from the start of what is unread, while there is room for what they become, up to the first that is refused.
    fn take(&mut self, unread: &[u8]) -> Taken
        requires { (n : ℕ) × Before self.old n unread.now }
        ensures whole { Whole PLACE unread.now result.bytes }
        ensures begins { IfSome result.refused (λ r. r.begin ≤ length unread.now) }
        ensures behind { (n : ℕ) → Before self.old n unread.now → Behind self.new n (drop result.bytes unread.now) };

    // What is to be written out.
    fn held(&self) -> &[u8];

    // It is written, and more may be read behind what is left.
    fn empty(&mut self)
        ensures { (n m : ℕ) (rest more : List ℕ) → m + length more ≤ n → length rest + length more ≤ SIZE → Behind self.old n rest → Before self.new m (rest ++ more) };
}

// Stands in the loop for such a program, which the loop lends to it. `empty` is lent nothing, so the program is emptied when more is
// taken, or by `run` behind the last round: is_written says that this is due.
#[derive(Drop)]
struct Own<P> {
    is_written: bool,
    of: PhantomData<P>,
}

impl<P: Program> Lent for Own<P> {
    type Buffers = P;

    const PLACE: Place = P::PLACE;

    ghost PLACE = { P.PLACE };

    ghost Before = { λ _ own program n unread. Comes own.is_written (P.Before program) (P.Behind program) n unread };

    ghost Behind = { λ _ _ program n unread. P.Behind program n unread };

    fn take(&mut self, program: &mut P, unread: &[u8]) -> Taken {
        if self.is_written {
            program.empty();
            self.is_written = false;
        }
        program.take(unread)
    }

    fn held<'a>(&self, program: &'a P) -> &'a [u8] {
        program.held()
    }

    fn empty(&mut self) {
        self.is_written = true;
    }
}

impl Console<'_> {
    // Takes block after block: a program's records, from this stretch on.
    pub fn run<P: Program>(self, program: &mut P, first: Unread, block: &mut [u8; SIZE])
        requires from { first.from ≤ first.till }
        requires till { first.till ≤ SIZE }
        requires before { P.Before program.old (BLOCKS * SIZE) (stretch block.old first) }
    {
        let mut own = Own::<P> {
            is_written: false,
            of: PhantomData,
        };
        self.run_lent(&mut own, program, first, block);
        // the rounds ran out
        if own.is_written {
            program.empty();
        }
    }
}
