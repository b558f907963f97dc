// The machine at work: each expected value is worked out by hand from the rules of words and calls.
#![tactic(auto)]

#[cfg(test)]
mod calls;
#[cfg(test)]
mod programs;
#[cfg(test)]
mod rows;
#[cfg(test)]
mod trials;
