//! What the programs answer: from the bytes that one reads to the text that it has printed, each as one call.
#![tactic(auto)]

pub mod desk;
#[cfg(test)]
mod example;
#[cfg(test)]
mod failing;
mod input;
pub mod line;
pub mod price;
