// The parts of a line. No contract can say what is written.
use crate::lists;
use runner::Answer;
use std::fmt;

// Each cell in hexadecimal, behind a space.
#[derive(Clone, Copy)]
pub struct Cells<'a>(pub &'a [u64]);

impl fmt::Display for Cells<'_> {
    fn fmt<W: fmt::Write>(&self, f: &mut fmt::Formatter<W>) -> fmt::Result {
        for cell in self.0 {
            write!(f, " {cell:x}")?;
        }
        Ok(())
    }
}

// The answer of a run, whether its work words are clear, and the whole trace slice in decimal.
#[derive(Clone, Copy)]
pub struct Told<'a> {
    pub answer: Answer,
    pub work: &'a [u64],
    pub trace: &'a [u32],
}

impl fmt::Display for Told<'_> {
    fn fmt<W: fmt::Write>(&self, f: &mut fmt::Formatter<W>) -> fmt::Result {
        let (number, place) = records::numbers(self.answer.verdict);
        let steps = self.answer.steps;
        let entries = self.answer.entries;
        let work = if lists::are_clear(self.work) {
            "clear"
        } else {
            "left"
        };
        write!(
            f,
            " | number {number} place {place} steps {steps} entries {entries}"
        )?;
        write!(f, " | work {work} | trace")?;
        for entry in self.trace {
            write!(f, " {entry}")?;
        }
        Ok(())
    }
}
