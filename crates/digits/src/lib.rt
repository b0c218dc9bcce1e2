// Numbers as bytes, most significant first, and back.
#![tactic(auto)]

ghost use Rattle.std.specs.Prelude.{◌≡◌, [], ◌∷◌};
ghost use Rattle.digits.specs.Digits.{digits, number};

// The N low bytes of n.
pub fn digits_of<const N: usize>(n: u64) -> [u8; N]
    ensures { result ≡ digits N n }
{
    let mut bytes = [0; N];
    let mut rest = n;
    for i in (0..N).rev() {
        bytes[i] = (rest % 256) as u8;
        rest /= 256;
    }
    bytes
}

// A function for each width: each gives the type that its callers compute in, and one for all would leave them a cast to prove.
pub fn from_two(a: u8, b: u8) -> usize
    ensures { result ≡ number 0 (a ∷ b ∷ []) }
{
    a as usize * 256 + b as usize
}

pub fn from_three(a: u8, b: u8, c: u8) -> u32
    ensures { result ≡ number 0 (a ∷ b ∷ c ∷ []) }
{
    (a as u32 * 256 + b as u32) * 256 + c as u32
}

pub fn from_four(a: u8, b: u8, c: u8, d: u8) -> usize
    ensures { result ≡ number 0 (a ∷ b ∷ c ∷ d ∷ []) }
{
    ((a as usize * 256 + b as usize) * 256 + c as usize) * 256 + d as usize
}

pub fn from_six(a: u8, b: u8, c: u8, d: u8, e: u8, f: u8) -> u64
    ensures { result ≡ number 0 (a ∷ b ∷ c ∷ d ∷ e ∷ f ∷ []) }
{
    from_three(a, b, c) as u64 * 16777216 + from_three(d, e, f) as u64
}
