// The settings that an opening allows.
ghost use Rattle.std.specs.Prelude.{◌≡◌};
ghost use Rattle.wire.specs.Limits.{link_allowed, allowed};

// TP length and stream, as both ends allow them.
pub fn is_link(tp: usize, stream: u8) -> bool
    ensures { result ≡ link_allowed tp stream }
{
    16 <= tp && tp <= 2051 && stream <= 15
}

// The same, and the sender's F.
pub fn is_allowed(tp: usize, stream: u8, piece: usize) -> bool
    ensures { result ≡ allowed tp stream piece }
{
    is_link(tp, stream) && 1 <= piece && piece <= 65535
}
