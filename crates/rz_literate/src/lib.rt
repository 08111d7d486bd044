//! The code lines of a Markdown file: the same text with all else blank, so that each byte of code keeps its place.
#![tactic(auto)]

mod code;
mod fault;
mod fence;

pub use code::code_of;
pub use fault::TextFault;
