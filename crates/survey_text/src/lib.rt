//! Surveys as CSV text, as an estimator types them or a spreadsheet saves them: read whole, or told by line and cause,
//! and written back.
//!
//! `read::read` gives a draft and the names of its places, or the first trouble; `write::write` gives the text of a
//! sealed survey with names, which reads as that survey with those names. docs/SURVEY-TEXT.md has the text to the letter.
#![tactic(auto)]

mod field;
mod lines;
pub mod names;
pub mod read;
mod reader;
mod row;
mod rows;
#[cfg(test)]
mod tests;
pub mod text;
pub mod trouble;
pub mod word;
pub mod write;
