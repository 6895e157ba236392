//! What a run did, as text: the report of its answers, its journal, and a summary.
#![tactic(auto)]

mod answer;
mod counts;
mod ends;
mod entry_lines;
mod losses;
mod places;
mod texts;
mod told;
mod waves;

pub use counts::summary;
pub use texts::RowsText;
pub use told::report;

#[cfg(test)]
mod tests;
