//! The plain types of derivations, and the definitions that every contract speaks in.
#![tactic(auto)]

mod coordinates;
mod judgments;
mod kinds;
mod lists;
mod memory;
mod names;
mod nodes;
mod rows;
mod steps;
pub mod symbols;
mod verdicts;
mod words;

pub use coordinates::{Coord, Coords, LEFT, RIGHT, Ranks};
pub use judgments::{Judgment, JudgmentKind, Line};
pub use kinds::{Form, Kind, Role, Slot, Sort, Space};
pub use lists::{Bytes, Items, Name, Numbers, Places, TryCopy, Values};
pub use memory::OutOfMemory;
pub use names::is_name;
pub use nodes::{Kids, Node};
pub use rows::{Row, Scheme};
pub use steps::Steps;
pub use symbols::{Condition, LETTERS, Label, Letter, Symbol};
pub use verdicts::{Limit, Refusal, Verdict};
pub use words::Worded;
