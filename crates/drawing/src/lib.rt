//! A survey of a house as a picture, in the format SVG.
#![tactic(auto)]

mod curve;
pub mod escape;
mod frame;
mod label;
mod layer;
pub mod mark;
mod page;
pub mod picture;
mod pixel;
mod port;
mod row;
#[cfg(test)]
mod tests;
