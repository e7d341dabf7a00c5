// Whether one vertex reaches another, answered by tests on labels and, where they pass, by a search.
#![tactic(auto)]

mod answer;
mod oracle;
#[cfg(test)]
mod tests;

pub use answer::Answer;
pub use oracle::{Oracle, one_answer};
