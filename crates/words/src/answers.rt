// Digests of what the Golay code answers to words of three bytes. Each sort of answer has a loop of its own, so that a word costs
// nothing but its answer.
ghost use Rattle.std.specs.Prelude.{◌<◌};

use golay::End;

fn mixed(digest: u64, x: u32) -> u64
    requires { digest < 4294967291 }
    ensures { result < 4294967291 }
{
    (digest * 65599 + x as u64) % 4294967291
}

fn digest_of<F: Fn(u32) -> u32>(words: &[u8], answer: F) -> u64
    requires { F.IsAlwaysCallable answer }
{
    let mut digest: u64 = 0;
    for i in 0..words.len() / 3 {
        let at = 3 * i;
        let word = digits::from_three(words[at], words[at + 1], words[at + 2]);
        digest = mixed(digest, answer(word));
    }
    digest
}

// What a word is read as: 8 times the number plus the flips, or 4 beyond repair; or where the flips were.
fn read(w: u32, places: bool) -> u32 {
    match golay::decode(w) {
        Some(word) if places => word.places,
        Some(word) => word.number as u32 * 8 + word.flips as u32,
        None if places => 0,
        None => 4,
    }
}

fn end_value(w: u32) -> u32 {
    match golay::end_of((w % 256) as u8) {
        End::Zeros => 0,
        End::Ones => 255,
        End::Neither => 256,
    }
}

pub fn themselves(words: &[u8]) -> u64 {
    digest_of(words, |w| w)
}

pub fn encoded(words: &[u8]) -> u64 {
    digest_of(words, |w| golay::encode((w % 4096) as u16))
}

// One loop for the values and for the places: the compiler puts the decoder into a loop only if it is called nowhere else.
pub fn decoded(words: &[u8], places: bool) -> u64 {
    digest_of(words, |w| read(w, places))
}

pub fn ended(words: &[u8]) -> u64 {
    digest_of(words, |w| end_value(w))
}
