// This crate holds definitions and theorems only (`specs/`). A crate has at least one function: this one.
#![tactic(auto)]

pub fn depth() -> u32 {
    200
}
