// Later.
#![tactic(auto)]

fn main() {}
