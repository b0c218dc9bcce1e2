// c7index RECORDING INDEX: makes the index beside a recording, or grows it (R-8 of document 02). Line 0 alone commits: it is written
// over when the lines that it counts are safe, so that a kill at any moment leaves an index that grows to the same.
#![tactic(auto)]

mod grow;
mod index;

use console::Console;
use std::fs::File;

// Both files are open or can be made.
fn between(console: Console<'_>, recording: &File, path: &[u8]) {
    let mut head = [0u8; 13];
    let Some(n) = files::read_at(recording, 0, &mut head) else {
        console.say(b"cannot read the recording");
        return;
    };
    let there = match index::open(console.rt, recording, path) {
        Ok(there) => there,
        Err(why) => {
            console.say(why.as_bytes());
            return;
        }
    };
    let Some(setup) = files::setup_in(console, &head[..n]) else {
        return;
    };
    let Some((beside, top)) = there.or_else(|| index::make(console.rt, path)) else {
        console.say(b"cannot make the index");
        return;
    };
    grow::from(console, recording, &beside, setup, top);
}

fn main(rt: HostRuntime) {
    let console = Console {
        rt: &rt,
        program: b"c7index",
    };
    if !files::has_words(&rt, 2) {
        console.say(b"asks for a recording and an index");
        return;
    }
    let mut path = [0u8; 4096];
    let Some(recording) = files::open(&rt, files::word(&rt, 1, &mut path)) else {
        console.say(b"cannot open the recording");
        return;
    };
    let mut beside = [0u8; 4096];
    between(console, &recording, files::word(&rt, 2, &mut beside));
}
