// The unpacking program (R-1 of document 02).
#![tactic(auto)]

fn main(rt: HostRuntime) {
    unpack_loop::from_input(&rt);
}
