// The program `apply`: the listing of the bundle on standard input.
#![tactic(auto)]

fn main(rt: HostRuntime) {
    program::chukelowa_program_apply(&rt);
}
