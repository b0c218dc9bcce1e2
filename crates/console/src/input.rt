// Standard input, block by block.
ghost use Rattle.std.specs.Prelude.{◌≡◌};
ghost use Rattle.house.specs.Setups.{settings_of};
ghost use Rattle.console.specs.Taking.{ReadOn, Goes, Told};

use crate::{Console, Start, Unread, stretch};
use house::{Fault, Place, Setup};

impl Console<'_> {
    // Says why nothing more is read, where the last record is not whole or the first one is missing.
    fn say_end(self, begin: u64, is_read: bool, n: usize) {
        if !is_read {
            self.say(b"cannot read");
        } else if 0 < n {
            self.stop(begin, Fault::Short);
        } else if begin == 0 {
            self.say(b"no setup record");
        }
    }

    // Reads on behind the stretch.
    fn read_on(self, block: &mut [u8], unread: Unread) -> Option<Unread>
        ensures { ReadOn block.old unread block.new result }
    {
        let begin = stretch::begin_of(unread);
        let n = stretch::to_start(block, unread);
        let got = streams::read(self.rt, &mut block[n..]);
        let count = got.unwrap_or(0);
        if 0 < count {
            return Some(Unread {
                gone: begin,
                from: 0,
                till: n + count,
            });
        }
        self.say_end(begin, got.is_some(), n);
        None
    }

    // Where no more records of the block can be taken: writes out what is held, and reads on unless a whole record is at hand. A bad
    // one stops the program.
    pub fn go_on(
        self,
        place: Place,
        block: &mut [u8],
        unread: Unread,
        held: &[u8],
    ) -> Option<Unread>
        ensures { Goes block.old unread block.new result }
    {
        let here = stretch::in_block(unread, block.len());
        let hand = house::read_record(place, stretch::bytes_of(block, here));
        if let Err(fault) = hand {
            self.stop(stretch::begin_of(here), fault);
        }
        if !self.flush(held, held.len()) {
            return None;
        }
        match hand {
            Err(_) => None,
            Ok(Some(_)) => Some(here),
            Ok(None) => self.read_on(block, here),
        }
    }

    // Says which number refused the record at the start of the stretch.
    pub fn refused(self, unread: Unread, number: u8) {
        self.refusal(stretch::begin_of(unread), number);
    }

    // The settings that a setup record's data say; it is told where they are outside the limits.
    pub fn settings(self, data: &[u8]) -> Option<Setup>
        ensures { result ≡ settings_of «data».now }
    {
        let found = house::read_setup(data);
        if found.is_none() {
            self.stop(0, Fault::Limits);
        }
        found
    }

    // The setup, whose record is then at the block's start.
    pub fn first(self, block: &mut [u8]) -> Option<Start>
        ensures { Told block.new result }
    {
        let mut unread = Unread {
            gone: 0,
            from: 0,
            till: 0,
        };
        while unread.till < block.len() {
            unread = self.read_on(block, unread)?;
            let s = stretch::bytes_of(block, unread);
            match house::read_record(Place::Start, s) {
                Ok(None) => {}
                Err(fault) => {
                    self.stop(0, fault);
                    return None;
                }
                Ok(Some(said)) => {
                    return Some(Start {
                        setup: self.settings(house::data_of(said, s))?,
                        unread: Unread {
                            gone: 0,
                            from: 13,
                            till: unread.till,
                        },
                    });
                }
            }
        }
        None
    }
}
