// Two numbers encoded at once, as an EP header asks.
ghost use Rattle.std.specs.Prelude.{◌≡◌};
ghost use Rattle.golay.specs.Golay.{code_word};

use crate::encode;

// The code words of two numbers.
#[derive(Clone, Copy)]
pub struct Pair {
    pub first: u32,
    pub second: u32,
}

pub fn encode_pair(a: u16, b: u16) -> Pair
    ensures { result ≡ record { first = code_word a; second = code_word b } }
{
    Pair {
        first: encode(a),
        second: encode(b),
    }
}
