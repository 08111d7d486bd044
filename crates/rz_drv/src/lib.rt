//! Derivation files, written and read: what a file says is a part, and each part has one spelling.
#![tactic(auto)]

mod decoding;
mod encoding;
mod faults;
mod items;
mod nodes;
mod numbers;
mod outlines;
mod parts;
mod reading;
mod steps;
mod words;

pub use decoding::decode;
pub use encoding::encode;
pub use faults::DrvFault;
pub use items::Item;
pub use parts::Part;
pub use reading::Reader;
