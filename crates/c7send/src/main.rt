// The sending program (document 01, 'Records and programs'); its input here is example 6.
#![tactic(auto)]

fn main(rt: HostRuntime) {
    send_loop::from_input(&rt);
}
