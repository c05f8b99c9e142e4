// The answers to stored bundles. The arguments name them, three words a case: the file, and how many working and result rows are lent.
#![tactic(auto)]

fn main(rt: HostRuntime) {
    program::chukelowa_program_cases(&rt);
}
