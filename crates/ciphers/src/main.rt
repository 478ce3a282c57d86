// Published cipher vectors, sealed and opened: what the plain ciphers in tests/ expect.
#![tactic(auto)]

fn main() {
    stream::replay();
}
