// Standard output, for text that is formatted to it and for bytes as they are.
// The bytes go through the kit's `io`, which rests on the C library's `write` alone: std's own writer rests on three functions more,
// and nothing more is to be trusted. A write that fails is not told, so that the other lines are written where they can be.
#![tactic(auto)]

use std::fmt;

#[derive(Clone, Copy)]
pub struct Output;

impl Output {
    // Bytes as they are.
    pub fn put(self, bytes: &[u8]) {
        io::write_all(1, bytes);
    }
}

impl fmt::Write for Output {
    fn write_str(&mut self, text: &str) -> fmt::Result {
        self.put(text.as_bytes());
        Ok(())
    }
}
