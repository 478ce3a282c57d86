// The leaves of a run: trace, steps, expressions, L-values, arguments, and the statements that hold no statement.
// Cells and slots are read and written totally: what stands past the end reads as 0, and a write there changes nothing.
#![tactic(auto)]

mod blocks;
mod lending;
mod memory;
mod trace;
mod updates;
mod values;

pub use lending::arguments;
pub use memory::{Memory, Reading};
pub use trace::{Run, Trace};
pub use updates::{conditional_swap, swap, update};
