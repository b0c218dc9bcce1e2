// The receiver's calls.
ghost use Rattle.std.specs.Prelude.{◌≡◌, true, length};
ghost use Rattle.receiver.specs.Call.{find_number, opening_of};
ghost use Rattle.receiver.specs.Words.{fitb, of_words};
ghost use Rattle.jenugathi.specs.Receiving.{seven_of, find_words, or_zero, opened_to, gapped_to, NextAs};

use receiver::{About, Find};

// A find's words: sort, content or number, start and length, and what it carries.
fn seven(sort: u64, what: u8, start: usize, len: usize, a: About) -> [u64; 7]
    ensures { result ≡ seven_of sort what start len a }
{
    [
        sort,
        what as u64,
        start as u64,
        len as u64,
        a.repaired,
        a.at.stamp.number,
        a.at.at as u64,
    ]
}

fn find_words(f: Find, a: About) -> [u64; 7]
    ensures { result ≡ find_words f a }
{
    match f {
        Find::Nothing => seven(0, 0, 0, 0, a),
        Find::Refused => seven(1, 1, 0, 0, a),
        Find::Notice(n) => seven(2, n, 0, 0, a),
        Find::Low {
            content,
            start,
            len,
        } => seven(3, content, start, len, a),
        Find::Ordinary { content, len } => seven(4, content, 0, len, a),
    }
}

// Document 01's number; 0 for a packet, and where nothing is left.
fn number_of(f: Find) -> u32
    ensures { result ≡ or_zero (find_number f) }
{
    match f {
        Find::Nothing | Find::Low { .. } | Find::Ordinary { .. } => 0,
        Find::Refused => 1,
        Find::Notice(n) => n as u32,
    }
}

// Opens a receiver into w: 0, or 1 and w as it was.
#[unsafe(no_mangle)]
pub extern "C" fn c7_receiver_open(w: &mut [u64; 23], tp: usize, stream: u32, room: &[u8]) -> u32
    ensures { record { number = result; state = w.new } ≡ opened_to (opening_of tp stream (length room.now)) w.old }
{
    if 15 < stream {
        return 1;
    }
    match receiver::open(tp, stream as u8, room) {
        None => 1,
        Some(r) => {
            *w = receiver::words::words_of(r);
            0
        }
    }
}

// Tells the receiver of a gap: 0, or 1 and w as it was.
#[unsafe(no_mangle)]
pub extern "C" fn c7_receiver_gap(w: &mut [u64; 23]) -> u32
    ensures { record { number = result; state = w.new } ≡ gapped_to (of_words w.old) w.old }
{
    match receiver::words::of_words(w) {
        None => 1,
        Some(r) => {
            *w = receiver::words::words_of(receiver::gap(r));
            0
        }
    }
}

// The next find of the TP of words that fit: on the words, or by value where something is to be judged.
fn call(w: &mut [u64; 23], tp: &[u8], room: &mut [u8], find: &mut [u64; 7]) -> u32
    requires { fitb w.old ≡ true }
    ensures { NextAs (of_words w.old) w.old tp.now room.old result w.new find.new room.new }
{
    match receiver::words::next(w, tp, room) {
        Some(q) => {
            *find = find_words(q.find, q.about);
            number_of(q.find)
        }
        None => {
            let q = receiver::next(receiver::words::receiver_in(w), tp, room);
            *w = receiver::words::words_of(q.receiver);
            *find = find_words(q.find, q.about);
            number_of(q.find)
        }
    }
}

// The next find of the TP, and its number. Words of no receiver give 1, and only the find is written.
#[unsafe(no_mangle)]
pub extern "C" fn c7_receiver_next(
    w: &mut [u64; 23],
    tp: &[u8],
    room: &mut [u8],
    find: &mut [u64; 7],
) -> u32
    ensures { NextAs (of_words w.old) w.old tp.now room.old result w.new find.new room.new }
{
    if receiver::words::can_be_called(w) {
        return call(w, tp, room, find);
    }
    *find = [1, 1, 0, 0, 0, 0, 0];
    1
}
