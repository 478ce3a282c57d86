// Everything of a run before its first step and after its last: refusals 19 to 22, where the cells are,
// the store copied into the work words and back, and what was lent cleared.
// A number is narrowed by `as` where a clause bounds it: the check proves that nothing is cut, and `try_from` would ask for an arm that
// no run takes.
#![tactic(auto)]

pub mod cells;
pub mod refusals;
pub mod work;
