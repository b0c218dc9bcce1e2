// Headers of complete EPs with little data.
ghost use Rattle.std.specs.Prelude.{◌≡◌, true, [], ◌∷◌, ◌*◌, ◌/◌, ◌%◌, ◌<◌};
ghost use Rattle.wire.specs.Wire.{word, header};
ghost use Rattle.sender.specs.Offering.{known};
ghost use Rattle.sender.specs.Steps.{first_word};

// The first word where the length is below 4,096: it says the content alone. Of an unknown content there is none.
pub fn first_word(content: u8) -> Option<u32>
    ensures { result ≡ first_word content }
{
    match content {
        1 => Some(0x040D99),
        2 => Some(0x0803DA),
        3 => Some(0x0C0E43),
        4 => Some(0x1007B4),
        5 => Some(0x140A2D),
        6 => Some(0x18046E),
        _ => None,
    }
}

// The same word's bytes as a number, the first one lowest: of these the compiler puts a header together in few steps.
fn first_bytes(content: u8) -> u32
    requires { known content ≡ true }
    ensures { result % 256 ∷ result / 256 % 256 ∷ result / 65536 % 256 ∷ [] ≡ word (content * 64) }
{
    match content {
        1 => 0x990D04,
        2 => 0xDA0308,
        3 => 0x430E0C,
        4 => 0xB40710,
        5 => 0x2D0A14,
        6 => 0x6E0418,
        // no other is known
        _ => 0,
    }
}

// The header of a complete EP with less than 4,096 bytes of data.
pub fn short_header(content: u8, size: usize) -> [u8; 6]
    requires { (known content ≡ true) × (size < 4096) }
    ensures { result ≡ header content 0 size }
{
    let a = first_bytes(content);
    let b = digits::digits_of::<3>(golay::encode(size as u16) as u64);
    [
        (a % 256) as u8,
        (a / 256 % 256) as u8,
        (a / 65536 % 256) as u8,
        b[0],
        b[1],
        b[2],
    ]
}
