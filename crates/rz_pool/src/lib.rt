//! Shared trees: a pool keeps each different node once and names it by an id, so that equal ids are
//! equal trees.
#![tactic(auto)]

mod answers;
mod copies;
mod counts;
mod cubes;
mod entries;
mod formers;
mod forms;
mod free;
mod kept;
mod keys;
mod kids;
mod pool;
mod questions;
mod spans;
mod waiting;

pub use counts::Counts;
pub use cubes::{left_of, make_cube, parts_of, product_of, right_of};
pub use entries::{Entry, Last, deeper, last_entry, one_more};
pub use keys::HashKey;
pub use kids::{one_kid, three_kids, two_kids};
pub use pool::Pool;
pub use questions::{Question, VariableChange};
pub use waiting::add_all;
