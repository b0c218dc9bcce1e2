// The digest of bytes.
ghost use Rattle.std.specs.Prelude.{◌<◌, ◌≡◌};
ghost use Rattle.calls.specs.Digest.{digest as Digest·digest};

pub fn digest(s: &[u8]) -> u64
    ensures { result ≡ Digest·digest 0 s.now }
{
    let mut d: u64 = 0;
    for x in s {
        d = (d * 65599 + *x as u64) % 4294967291;
    }
    d
}
