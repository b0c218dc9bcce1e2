// A record's head: judged as it was read, and made to be written.
ghost use Rattle.std.specs.Prelude.{◌≡◌, [], ◌∷◌, ◌≤◌, length, get_or};
ghost use Rattle.digits.specs.Digits.{number};
ghost use Rattle.house.specs.declared.Place.TheVariants.{Sending, Listing};
ghost use Rattle.house.specs.Records.{length_of, head_of, kind_of, content_of, is_read, content_fits, length_fits, record_of, ruled, judged_of};

use crate::{Fault, Place, Record};

// How many bytes of data a record has.
pub fn length_of(said: Record) -> usize
    ensures { result ≡ length_of said }
{
    match said {
        Record::Setup => 5,
        Record::Ordinary { length, .. } | Record::Low { length, .. } | Record::Packet { length } =>
            length,
        Record::Draw | Record::Gap => 0,
    }
}

fn kind_of(said: Record) -> u8
    ensures { result ≡ kind_of said }
{
    match said {
        Record::Setup => 0,
        Record::Ordinary { .. } => 1,
        Record::Low { .. } => 2,
        Record::Draw => 3,
        Record::Packet { .. } => 4,
        Record::Gap => 5,
    }
}

fn content_of(said: Record) -> u8
    ensures { result ≡ content_of said }
{
    match said {
        Record::Ordinary { content, .. } | Record::Low { content, .. } => content,
        Record::Setup | Record::Draw | Record::Packet { .. } | Record::Gap => 0,
    }
}

// The head of a record.
pub fn head_of(said: Record) -> [u8; 8]
    ensures { result ≡ head_of said }
{
    let n: [u8; 4] = digits::digits_of(length_of(said) as u64);
    [
        0xC7,
        0x07,
        kind_of(said),
        content_of(said),
        n[0],
        n[1],
        n[2],
        n[3],
    ]
}

fn is_read(place: Place, kind: u8) -> bool
    ensures { result ≡ is_read place kind }
{
    match place {
        Place::Start => kind == 0,
        Place::Sending => matches!(kind, 1..=3),
        Place::Listing => matches!(kind, 4..=5),
    }
}

fn content_fits(kind: u8, content: u8) -> bool
    ensures { result ≡ content_fits kind content }
{
    kind == 1 || kind == 2 || content == 0
}

fn length_fits(kind: u8, length: usize) -> bool
    ensures { result ≡ length_fits kind length }
{
    match kind {
        0 => length == 5,
        3 | 5 => length == 0,
        _ => length <= 32768,
    }
}

fn record_of(kind: u8, content: u8, length: usize) -> Record
    ensures { result ≡ record_of kind content length }
{
    match kind {
        0 => Record::Setup,
        1 => Record::Ordinary { content, length },
        2 => Record::Low { content, length },
        3 => Record::Draw,
        4 => Record::Packet { length },
        _ => Record::Gap,
    }
}

fn rule(place: Place, kind: u8, content: u8, length: usize) -> Result<Record, Fault>
    ensures { result ≡ ruled place kind content length }
{
    if !is_read(place, kind) {
        return Err(Fault::Kind);
    }
    if !content_fits(kind, content) {
        return Err(Fault::Content);
    }
    if !length_fits(kind, length) {
        return Err(Fault::Length);
    }
    Ok(record_of(kind, content, length))
}

// A head's first four bytes as one number, least significant first: the compiler makes it one read.
fn start_of(s: &[u8]) -> usize
    requires { 8 ≤ length s.now }
    ensures { result ≡ number 0 (get_or s.now 3 0 ∷ get_or s.now 2 0 ∷ get_or s.now 1 0 ∷ get_or s.now 0 0 ∷ []) }
{
    digits::from_four(s[3], s[2], s[1], s[0])
}

// Judges the head at the start of s, byte by byte.
fn judge_bytes(place: Place, s: &[u8]) -> Result<Record, Fault>
    requires { 8 ≤ length s.now }
    ensures { result ≡ judged_of place s.now }
{
    if s[0] != 0xC7 || s[1] != 0x07 {
        return Err(Fault::Mark);
    }
    let length = digits::from_four(s[4], s[5], s[6], s[7]);
    rule(place, s[2], s[3], length)
}

// Judges the head at the start of s where a script is read: an SP's or a draw's at once.
fn judge_sending(s: &[u8]) -> Result<Record, Fault>
    requires { 8 ≤ length s.now }
    ensures { result ≡ judged_of Sending s.now }
{
    let start = start_of(s);
    let length = digits::from_four(s[4], s[5], s[6], s[7]);
    if start == 0x000307C7 && length == 0 {
        return Ok(Record::Draw);
    }
    if length <= 32768 {
        if start % 0x1000000 == 0x0107C7 {
            return Ok(Record::Ordinary {
                content: (start / 0x1000000 % 256) as u8,
                length,
            });
        }
        if start % 0x1000000 == 0x0207C7 {
            return Ok(Record::Low {
                content: (start / 0x1000000 % 256) as u8,
                length,
            });
        }
    }
    judge_bytes(Place::Sending, s)
}

// Judges the head at the start of s where a recording is read: a TP's at once.
fn judge_listing(s: &[u8]) -> Result<Record, Fault>
    requires { 8 ≤ length s.now }
    ensures { result ≡ judged_of Listing s.now }
{
    if start_of(s) == 0x000407C7 {
        let length = digits::from_four(s[4], s[5], s[6], s[7]);
        if length <= 32768 {
            return Ok(Record::Packet { length });
        }
    }
    judge_bytes(Place::Listing, s)
}

// Judges the head at the start of s: an SP's, a draw's or a TP's at once, where one is looked for.
pub fn judge(place: Place, s: &[u8]) -> Result<Record, Fault>
    requires { 8 ≤ length s.now }
    ensures { result ≡ judged_of place s.now }
{
    match place {
        Place::Start => judge_bytes(place, s),
        Place::Sending => judge_sending(s),
        Place::Listing => judge_listing(s),
    }
}
