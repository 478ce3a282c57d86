// The verdict program: an image on standard input, one line out, `verdict`, number and place.
#![tactic(auto)]

use output::Output;
use std::fmt::Write;

// The buffer is one byte longer than the longest image, so that a longer input is seen to be too long.
// Input is read by the kit's `io` for the reason that `output` has.
fn main() {
    let mut buffer = io::large_buffer();
    let read = io::read_full(0, &mut buffer);
    let (number, place) = records::numbers(checker::check(&buffer[..read]));
    let _ = writeln!(Output, "verdict {number} {place}");
}
