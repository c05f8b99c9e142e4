// The answers to the bundle on standard input. Two optional arguments: how many working and result rows are lent; without them as many
// as `apply` lends.
#![tactic(auto)]

fn main(rt: HostRuntime) {
    program::chukelowa_program_answers(&rt);
}
