// The way to a record, by the heads of those before it: their data are not read.
use house::Place;
use index_loop::Stop;
use std::fs::File;

// Where the heads lead no further, and why.
#[derive(Clone, Copy)]
pub struct Stopped {
    pub byte: u64,
    pub stop: Stop,
}

// The byte behind the record that begins at this one. What follows the record's head is not looked at: a record that the file's end
// cuts leads to no head.
fn behind(file: &File, byte: u64) -> Result<u64, Stop> {
    let mut head = [0u8; 8];
    let n = files::read_at(file, byte, &mut head).ok_or(Stop::Unreadable)?;
    if n < 8 {
        return Err(Stop::End);
    }
    house::read_record(Place::Listing, &head).map_err(Stop::Bad)?;
    let length = digits::from_four(head[4], head[5], head[6], head[7]);
    Ok(files::sum(byte, files::sum(8, length as u64)))
}

// The byte at which this record begins; the first is 1.
pub fn walk(file: &File, record: u64) -> Result<u64, Stopped> {
    let mut byte = 13;
    for _ in 1..record {
        byte = behind(file, byte).map_err(|stop| Stopped { byte, stop })?;
    }
    Ok(byte)
}
