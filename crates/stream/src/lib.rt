// Runs as they stand in a stream: each is read, run by `runner::run`, and told in one line.
// Numbers are little-endian. A run is a head of 22 bytes, then its name, the image, the lengths and the store; two zero bytes end the stream.
#![tactic(auto)]

mod head;
mod lists;
mod print;

ghost use Rattle.std.specs.Prelude.{◌≤◌, ◌≡◌, length};
ghost use Rattle.stream.specs.Heads.{Fits, size_of};

use head::{BadStream, Head};
use output::Output;
use print::{Cells, Told};
use std::fmt::Write;

// A run as it stands in the stream.
#[derive(Clone, Copy)]
struct Run<'a> {
    head: Head,
    name: &'a [u8],
    image: &'a [u8],
    lengths: &'a [u8],
    cells: &'a [u8],
}

impl<'a> Run<'a> {
    // The run at the front of the rest.
    fn front(rest: &'a [u8], head: Head) -> Run<'a>
        requires { Fits head × (size_of head ≤ length rest.now) }
        ensures { result.head ≡ head }
    {
        let name = 22 + usize::from(head.name);
        let image = name + usize::from(head.image);
        let lengths = image + usize::from(head.lengths) * 8;
        let cells = lengths + usize::from(head.cells) * 8;
        Run {
            head,
            name: &rest[22..name],
            image: &rest[name..image],
            lengths: &rest[image..lengths],
            cells: &rest[lengths..cells],
        }
    }

    // The line of the run. What it is lent is dirty, so that what it leaves there shows. What stands before the arrow is written before the
    // run, the rest behind it: the line of a run that is cut off ends at the store that it was given.
    fn tell(&self)
        requires { Fits self.now.head }
    {
        let head = self.head;
        let mut list = [0u64; 32];
        let mut store = [0u64; 4096];
        let mut work = [23130u64; 8448];
        let mut trace = [7u32; 64];
        let list = &mut list[..usize::from(head.lengths)];
        let store = &mut store[..usize::from(head.cells)];
        let work = &mut work[..usize::from(head.works)];
        let trace = &mut trace[..usize::from(head.room)];
        lists::read(self.lengths, list);
        lists::read(self.cells, store);
        let direction = if head.inverse { "inverse" } else { "forward" };
        let given = Cells(store);
        Output.put(self.name);
        let _ = write!(Output, " | {direction} | store{given}");
        let answer = runner::run(
            self.image,
            head.inverse,
            list,
            store,
            work,
            head.budget,
            trace,
        );
        let left = Cells(store);
        let told = Told {
            answer,
            work,
            trace,
        };
        let _ = writeln!(Output, " ->{left}{told}");
    }
}

// The lines of all runs, up to the stream's end. Nothing is counted: each head says where the next run begins.
fn lines(stream: &[u8]) -> Result<(), BadStream> {
    let mut rest = stream;
    while let Some(head) = head::next_of(rest)? {
        Run::front(rest, head).tell();
        rest = &rest[head.size()..];
    }
    Ok(())
}

// The lines of the stream on standard input, and `bad stream` where it is longer than the buffer, cut short, or no stream.
// Input is read by the kit's `io` for the reason that `output` has.
pub fn replay() {
    let mut buffer = io::large_buffer();
    let read = io::read_full(0, &mut buffer);
    if lines(&buffer[..read]).is_err() || read == 65536 {
        let _ = writeln!(Output, "bad stream");
    }
}
