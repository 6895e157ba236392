//! Tables of recovery, worked out by hand, that stand on several crates.
#![tactic(auto)]

#[cfg(test)]
mod tests;
