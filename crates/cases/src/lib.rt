// Tests of the crates below, in a crate of their own since they are many.
#![tactic(auto)]

#[cfg(test)]
mod files;
#[cfg(test)]
mod graphs;
