// The sending end: packets offered, and drawn until none of their bytes is left.
ghost use Rattle.sender.specs.Opening.{Sound};

use crate::samples::sampled;
use sender::Sender;

// TPs of 2,051 bytes that 131,072 bytes in three EPs take.
const DRAWS: usize = 65;

// Between two calls: the sender, and the digest of what was drawn.
#[derive(Clone, Copy)]
struct Run {
    sender: Sender,
    digest: u64,
}

// A refusal leaves all as it was.
fn draw(run: Run, low: &[u8], ordinary: &[u8], tp: &mut [u8]) -> Run
    requires { Sound run.sender }
    ensures { Sound result.sender }
{
    match sender::draw(run.sender, low, ordinary, tp) {
        Err(_) => run,
        Ok(sender) => Run {
            sender,
            digest: sampled(run.digest, tp),
        },
    }
}

fn draws(first: Run, low: &[u8], ordinary: &[u8], tp: &mut [u8]) -> Run
    requires { Sound first.sender }
    ensures { Sound result.sender }
{
    let mut run = first;
    for _ in 0..DRAWS {
        run = draw(run, low, ordinary, tp);
    }
    run
}

fn offer(run: Run, low: &[u8], ordinary: &mut [u8], packet: &[u8]) -> Run
    requires { Sound run.sender }
    ensures { Sound result.sender }
{
    match sender::offer_ordinary(run.sender, low, ordinary, 1, packet) {
        Err(_) => run,
        Ok(sender) => Run { sender, ..run },
    }
}

fn sent(first: Run, low: &[u8], ordinary: &mut [u8], packet: &[u8], count: usize) -> Run
    requires { Sound first.sender }
    ensures { Sound result.sender }
{
    let mut tp = [0u8; 2051];
    let mut run = first;
    for _ in 0..count {
        run = offer(run, low, ordinary, packet);
        run = draws(run, low, ordinary, &mut tp);
    }
    run
}

// Sends the packet so many times.
pub fn packets(rt: &HostRuntime, packet: &[u8], ordinary: &mut [u8], count: usize) {
    let low = [0u8; 16];
    let Ok(sender) = sender::open(2051, 5, 65535, &low, ordinary) else {
        return;
    };
    let run = sent(Run { sender, digest: 0 }, &low, ordinary, packet, count);
    let _ = println!(rt; "sent {count} digest {}", run.digest);
}
