// Labels of a graph's vertices, the rules that they meet, and the tests that read them.
#![tactic(auto)]

mod decision;
mod label;
mod orders;
mod plain;
mod rule;
mod six;
mod supports;
mod test;
#[cfg(test)]
mod tests;
mod theorems;

pub use decision::{Decision, Verdict};
pub use label::{Label, Labelled, Row};
pub use orders::Orders;
pub use plain::{Components, Ends, Levels, Same};
pub use rule::Rule;
pub use six::{SIX_TESTS, SixTests, judge_by_six};
pub use supports::Supports;
pub use test::{OrElse, Test, decide};
pub use theorems::{cycle_breaks_rules, example_meets_rules, rivals_decide_no_more, rules_compute};
