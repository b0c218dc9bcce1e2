// House records (document 01, 'Records and programs'): a head of eight bytes, then the data.
#![tactic(auto)]

ghost use Rattle.house.specs.Faults.{text_of};
ghost use Rattle.std.specs.Prelude.{Some};

mod head;
mod setups;
mod whole;

pub use head::head_of;
pub use setups::read_setup;
use std::fmt;
pub use whole::{data_of, read_record, write_record};

// What a good head says; the data are as long as it says.
#[derive(Clone, Copy)]
pub enum Record {
    Setup,
    Ordinary { content: u8, length: usize },
    Low { content: u8, length: usize },
    Draw,
    Packet { length: usize },
    Gap,
}

// Who reads, and where: the first record of either program, or a later one of one of them.
#[derive(Clone, Copy)]
pub enum Place {
    Start,
    Sending,
    Listing,
}

// What is wrong with a record.
#[derive(Clone, Copy)]
pub enum Fault {
    Mark,
    Kind,
    Content,
    Length,
    Short,
    Limits,
}

impl fmt::Display for Fault {
    ghost output = { λ fault. Some (text_of fault) };

    fn fmt<W: fmt::Write>(&self, f: &mut fmt::Formatter<W>) -> fmt::Result {
        f.write_str(match self {
            Fault::Mark => "no mark",
            Fault::Kind => "a kind that has no place here",
            Fault::Content => "content not 0",
            Fault::Length => "wrong length",
            Fault::Short => "cut short",
            Fault::Limits => "a setup outside the limits",
        })
    }
}

// Why a record is not written: there is no room for it, or its data have another length than it says.
#[derive(Clone, Copy)]
pub enum Unwritten {
    NoRoom,
    OtherLength,
}

// What a setup record says: the TP length, the stream, F.
#[derive(Clone, Copy)]
pub struct Setup {
    pub tp: usize,
    pub stream: u8,
    pub piece: usize,
}
