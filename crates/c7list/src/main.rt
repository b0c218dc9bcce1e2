// The listing program (document 01, 'Records and programs'); its input here is example 6.
#![tactic(auto)]

fn main(rt: HostRuntime) {
    list_loop::from_input(&rt);
}
