// What the programs do that open a recording by its name: reads and writes at a byte, the setup, a word as a number.
#![tactic(auto)]

ghost use Rattle.std.specs.Prelude.{◌≡◌, [], ◌∷◌, ◌+◌, ◌≤◌, min, length, IfSome};
ghost use Rattle.files.specs.Reading.{BeginsWith};
ghost use Rattle.files.specs.Word.{number_on, word_of};

use console::Console;
use house::{Fault, Place, Setup};
use std::env::{Env, FillError};
use std::fs::File;
use std::os::unix::fs::FileExt;

// A sum; a number that no file reaches is the last.
pub fn sum(a: u64, b: u64) -> u64
    ensures { result ≡ min (a + b) 0xFFFFFFFFFFFFFFFF }
{
    a.saturating_add(b)
}

// A byte's place as the system counts it.
fn offset_of(n: u64) -> u64 {
    n.min(0x7FFFFFFFFFFFFFFF)
}

// Reads from this byte on, and answers how many bytes: none where it cannot be read.
pub fn read_at(file: &File, offset: u64, buf: &mut [u8]) -> Option<usize>
    ensures { IfSome result (λ n. n ≤ length buf.new) }
{
    file.read_at(buf, offset_of(offset)).ok()
}

// Whether a file has at least so many bytes.
pub fn reaches(file: &File, size: u64) -> bool {
    if size == 0 {
        return true;
    }
    let mut last = [0u8; 1];
    read_at(file, size - 1, &mut last) == Some(1)
}

// Writes all of buf from this byte on, and answers whether it did. (std's `write_all_at` would write again what was interrupted.)
pub fn write_at(file: &File, offset: u64, buf: &[u8]) -> bool {
    let mut done = 0;
    while done < buf.len() {
        match file.write_at(&buf[done..], offset_of(sum(offset, done as u64))) {
            Err(_) | Ok(0) => return false,
            Ok(n) => done += n,
        }
    }
    true
}

// Cuts the file behind so many bytes.
pub fn cut(file: &File, size: u64) -> bool {
    file.set_len(offset_of(size)).is_ok()
}

fn is_present(rt: &HostRuntime, i: usize) -> bool {
    let mut word = [0u8; 1];
    !matches!(rt.arg(i, &mut word), Err(FillError::NotPresent))
}

// Whether the program was started with so many words behind its name.
pub fn has_words(rt: &HostRuntime, n: usize) -> bool {
    is_present(rt, n) && !is_present(rt, n.saturating_add(1))
}

// A word that the program was started with, put to the buffer's start; empty where it has no room.
pub fn word<'a>(rt: &HostRuntime, i: usize, buf: &'a mut [u8]) -> &'a [u8]
    ensures { length result.now ≤ length buf.old }
{
    let n = rt.arg(i, buf).unwrap_or(0);
    &buf[..n]
}

// Opens the file of this name for reading.
pub fn open(rt: &HostRuntime, path: &[u8]) -> Option<File> {
    let text = str::from_utf8(path).ok()?;
    File::open(rt, text).ok()
}

// The settings of a recording that begins with these bytes; what is wrong with them is told.
pub fn setup_in(console: Console<'_>, head: &[u8]) -> Option<Setup>
    ensures { BeginsWith head.now result }
{
    if head.is_empty() {
        console.say(b"no setup record");
        return None;
    }
    let fault = match house::read_record(Place::Start, head) {
        Ok(Some(said)) => return console.settings(house::data_of(said, head)),
        Ok(None) => Fault::Short,
        Err(fault) => fault,
    };
    console.stop(0, fault);
    None
}

// The number that one digit more makes.
fn joined(n: u64, b: u8) -> Option<u64>
    ensures { result ≡ number_on n (b ∷ []) }
{
    if !b.is_ascii_digit() {
        return None;
    }
    n.checked_mul(10)?.checked_add(u64::from(b - b'0'))
}

// Reads a word of decimal digits.
pub fn number_in(word: &[u8]) -> Option<u64>
    ensures { result ≡ word_of word.now }
{
    if word.is_empty() {
        return None;
    }
    let mut n = 0;
    for b in word {
        n = joined(n, *b)?;
    }
    Some(n)
}
