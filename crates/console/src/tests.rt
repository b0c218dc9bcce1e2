// `Console::run`, tried on a program that keeps its buffers in itself: the contract of `run` doesn't say when the program is asked
// for what it holds, and emptied.
ghost use Rattle.house.specs.declared.Place.TheVariants.{Listing};

use crate::{Console, Program, SIZE, Taken, Unread};
use house::{Place, Record};
use std::cell::Cell;

// Takes a record in each round, and holds its data till it is emptied; counts the bytes taken and given out, and how often it is emptied.
#[derive(Drop)]
struct Copying {
    taken: usize,
    given: Cell<usize>,
    emptied: usize,
    at: usize,
    out: [u8; 64],
}

impl Program for Copying {
    const PLACE: Place = Place::Listing;

    ghost PLACE = { Listing };

    ghost Before = { λ _ _ _. Unit {0} };

    ghost Behind = { λ _ _ _. Unit {0} };

    fn take(&mut self, unread: &[u8]) -> Taken {
        let mut bytes = 0;
        if let Ok(Some(said)) = house::read_record(Place::Listing, unread) {
            let data = house::data_of(said, unread);
            self.at = block::put(&mut self.out, self.at, data);
            bytes = 8 + data.len();
            self.taken = self.taken.saturating_add(bytes);
        }
        Taken {
            bytes,
            refused: None,
        }
    }

    fn held(&self) -> &[u8] {
        let held = &self.out[..self.at.min(self.out.len())];
        self.given.set(self.given.get().saturating_add(held.len()));
        held
    }

    fn empty(&mut self) {
        self.at = 0;
        self.emptied = self.emptied.saturating_add(1);
    }
}

// Three records, then a bad one: each is taken once, and what the first two became is asked for and emptied before the next.
#[test]
fn takes_and_empties(rt: HostRuntime) {
    let mut block = [0; SIZE];
    let mut till = 0;
    for data in [
        b"one ".as_slice(),
        b"two ".as_slice(),
        b"three\n".as_slice(),
    ] {
        let said = Record::Packet { length: data.len() };
        till = house::write_record(said, data, &mut block, till).unwrap_or(till);
    }
    assert_eq!(rt; till, 38);
    let mut copying = Copying {
        taken: 0,
        given: Cell::new(0),
        emptied: 0,
        at: 0,
        out: [0; 64],
    };
    let console = Console {
        rt: &rt,
        program: b"copying",
    };
    let first = Unread {
        gone: 0,
        from: 0,
        till: till + 8,
    };
    console.run(&mut copying, first, &mut block);
    let given = copying.given.get();
    assert_eq!(rt; (copying.taken, given, copying.emptied), (38, 14, 2));
    assert_eq!(rt; copying.held(), b"three\n".as_slice());
}
