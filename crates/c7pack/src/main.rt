// The packing program (R-1 of document 02).
#![tactic(auto)]

fn main(rt: HostRuntime) {
    pack_loop::from_input(&rt);
}
