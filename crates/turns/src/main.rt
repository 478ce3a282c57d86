// The turns of document 01 that are not starred, and runs that meet every answer in both directions: what the second program in tests/ expects.
#![tactic(auto)]

fn main() {
    stream::replay();
}
