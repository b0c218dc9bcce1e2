// The standard streams as the programs use them: bytes in, bytes and numbers out. What the system gives or takes, no contract can
// say.
#![tactic(auto)]

ghost use Rattle.std.specs.Prelude.{◌≤◌, length, IfSome};

use std::io::{Read, Write};

// Reads what is there to the buffer's start, and answers how many bytes: 0 at the input's end, none where it cannot be read.
pub fn read(rt: &HostRuntime, buf: &mut [u8]) -> Option<usize>
    ensures { IfSome result (λ n. n ≤ length buf.new) }
{
    rt.stdin().read(buf).ok()
}

// Reads until the buffer is full, the input ends or cannot be read, and answers how many bytes stand at the buffer's start. (std's
// `read_exact` does not say how many bytes came before the end.)
pub fn read_full(rt: &HostRuntime, buf: &mut [u8]) -> usize
    ensures { result ≤ length buf.new }
{
    let mut done = 0;
    while done < buf.len() {
        match read(rt, &mut buf[done..]) {
            None | Some(0) => return done,
            Some(n) => done += n,
        }
    }
    done
}

// Writes all to standard output, and answers whether it could.
pub fn print(rt: &HostRuntime, s: &[u8]) -> bool {
    rt.stdout().write_all(s).is_ok()
}

// Writes a number in decimal to standard output, and answers whether it could.
pub fn print_number(rt: &HostRuntime, n: u64) -> bool {
    print!(rt; "{n}").is_ok()
}

// Writes all to standard error, and answers whether it could.
pub fn say(rt: &HostRuntime, s: &[u8]) -> bool {
    rt.stderr().write_all(s).is_ok()
}
