// What a queue's bytes hold, read by the header of each EP.
ghost use Rattle.std.specs.Prelude.{◌≡◌, ◌-◌, length, Some};
ghost use Rattle.lengths.specs.Queued.{whole_of, ep_in};

use wire::Header;

#[derive(Clone, Copy)]
pub struct Ep {
    fragment: u8,
    size: usize,
}

// The EP of a header that n bytes follow. Zeros read as fill, which nobody offers: a cleared queue ends there.
fn whole_of(h: Header, n: usize) -> Option<Ep>
    ensures { result ≡ whole_of n (Some h) }
{
    if h.content == 0 || n < h.size {
        return None;
    }
    Some(Ep {
        fragment: h.fragment,
        size: h.size,
    })
}

// The EP at the start of bytes.
fn ep_in(bytes: &[u8]) -> Option<Ep>
    ensures { result ≡ ep_in bytes.now }
{
    if bytes.len() < 6 {
        return None;
    }
    let six = digits::from_six(bytes[0], bytes[1], bytes[2], bytes[3], bytes[4], bytes[5]);
    let header = wire::read_header(six)?;
    whole_of(header, bytes.len() - 6)
}

fn print_flag(rt: &HostRuntime, fragment: u8) {
    match fragment {
        0 => streams::print(rt, b" complete "),
        1 => streams::print(rt, b" first "),
        2 => streams::print(rt, b" middle "),
        _ => streams::print(rt, b" last "),
    };
}

// Flag and length of each EP, from the queue's start on.
pub fn print_eps(rt: &HostRuntime, queue: &[u8]) {
    let mut at = 0;
    while let Some(ep) = ep_in(&queue[at..]) {
        print_flag(rt, ep.fragment);
        streams::print_number(rt, ep.size as u64);
        at += 6 + ep.size;
    }
}
