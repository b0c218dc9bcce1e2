// Only tests need this crate.
// Runs the Golay code over sections of words from standard input, and prints a line for each: second/words.h.
// The file stdout beside src/ is what the second program prints.
#![tactic(auto)]

mod answers;

use std::fmt;

// What a section asks of its words.
#[derive(Clone, Copy)]
enum Sort {
    Nothing,
    Encode,
    Decode,
    End,
    Places,
}

fn sort_of(byte: u8) -> Option<Sort> {
    match byte {
        0 => Some(Sort::Nothing),
        1 => Some(Sort::Encode),
        2 => Some(Sort::Decode),
        3 => Some(Sort::End),
        4 => Some(Sort::Places),
        _ => None,
    }
}

impl fmt::Display for Sort {
    fn fmt<W: fmt::Write>(&self, f: &mut fmt::Formatter<W>) -> fmt::Result {
        f.write_str(match self {
            Sort::Nothing => "nothing",
            Sort::Encode => "encode",
            Sort::Decode => "decode",
            Sort::End => "end",
            Sort::Places => "places",
        })
    }
}

fn digest_of(sort: Sort, words: &[u8]) -> u64 {
    match sort {
        Sort::Nothing => answers::themselves(words),
        Sort::Encode => answers::encoded(words),
        Sort::End => answers::ended(words),
        Sort::Decode | Sort::Places => answers::decoded(words, matches!(sort, Sort::Places)),
    }
}

// One section; answers whether another may follow.
fn section(rt: &HostRuntime, buf: &mut [u8]) -> bool {
    let mut head = [0u8; 3];
    if streams::read_full(rt, &mut head) < 3 {
        return false;
    }
    let Some(sort) = sort_of(head[0]) else {
        return false;
    };
    let count = digits::from_two(head[1], head[2]);
    if buf.len() / 3 < count {
        return false;
    }
    let n = 3 * count;
    if streams::read_full(rt, &mut buf[0..n]) < n {
        return false;
    }
    // a line that cannot be printed ends nothing
    let _ = println!(rt; "{sort} {count} {}", digest_of(sort, &buf[0..n]));
    true
}

fn main(rt: HostRuntime) {
    let mut buf = [0u8; 196605];
    // no input has so many sections
    for _ in 0..u64::MAX {
        if !section(&rt, &mut buf) {
            return;
        }
    }
}
