// What every program that reads records does with standard input, output and error: an input block from which records are taken,
// blocks out, and a line on whatever went wrong. What a program does with the records is its own: it is `Lent` its buffers, or a
// `Program` with buffers of its own.
#![tactic(auto)]

mod input;
mod output;
mod own;
mod program;
mod stretch;
#[cfg(test)]
mod tests;

use house::Setup;
pub use own::Program;
pub use program::{Lent, Refused, Taken};
pub use stretch::{begin_of, bytes_of};

// No input has so many blocks: a loop over them ends for this.
pub const BLOCKS: u64 = 0x3FFFFFFFFFFF;

// The bytes of an input block.
pub const SIZE: usize = 131072;

// The output block is written out when so much is held.
pub const FULL: usize = 61440;

// A program's standard streams; each line to standard error begins with the program's name.
#[derive(Clone, Copy)]
pub struct Console<'a> {
    pub rt: &'a HostRuntime,
    pub program: &'a [u8],
}

// How many bytes of the input came before the input block, and the stretch of it that was read and is not yet taken.
#[derive(Clone, Copy)]
pub struct Unread {
    pub gone: u64,
    pub from: usize,
    pub till: usize,
}

// The settings of the first record, and what follows it.
#[derive(Clone, Copy)]
pub struct Start {
    pub setup: Setup,
    pub unread: Unread,
}
