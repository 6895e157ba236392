//! The picture of a run: its instances as lanes, and its steps from the top down, as an SVG text.
#![tactic(auto)]

mod drawing;
mod entry_words;
mod laws;
mod picture;
mod shapes;
mod sign_words;
mod story;
mod svg;
mod telling;
mod turns;

pub use laws::labels_hold_no_tags;
pub use picture::{LONGEST, picture_text};
pub use shapes::{Look, Picture, Shape};
pub use svg::svg_text;
pub use turns::{Sign, Turn};

#[cfg(test)]
mod tests;
