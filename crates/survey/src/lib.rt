//! Surveys: the loss card, drafts, sealed surveys, and the sites that they are.
#![tactic(auto)]

pub mod card;
pub mod draft;
pub mod entry;
pub mod sealed;
pub mod view;
