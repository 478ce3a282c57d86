// The clearing tests at a block's end.
ghost use Rattle.std.specs.Prelude.{◌≡◌, ℕ, ◌+◌, ◌-◌, ◌≤◌, ◌<◌, List};
ghost use Rattle.rules.specs.Tree.{range};
ghost use Rattle.rules.specs.Machine.{zeros, cleared, block_end};
ghost use Rattle.expressions.specs.Relations.{slot_of, Does};
ghost use Rattle.expressions.specs.Commands.{passing};
ghost use Rattle.expressions.specs.Standing.{ran};

use crate::{Memory, Reading};
use records::{Rule, Verdict};

impl Reading<'_, '_, '_, '_> {
    // Are all cells of variable x 0?
    fn is_zero(&self, x: u16) -> bool
        ensures { result ≡ zeros self.now.cells.now (slot_of self.now.slots.now x).base (slot_of self.now.slots.now x).cells }
    {
        let base = self.base_of(x);
        (base..base + self.count_of(x)).all(|i| self.cell(i) == 0)
    }

    // Is variable x of the other secrecy, or are all its cells 0?
    // `secrecy`, here and in `cleared`, is what a slot's own is compared with, and no switch.
    #[tactic(auto, unfolding(crate::specs::Commands::passing))]
    fn passes(&self, secrecy: bool, x: u16) -> bool
        ensures { result ≡ passing secrecy (slot_of self.now.slots.now x) self.now.cells.now }
    {
        self.slot(x).hidden != secrecy || self.is_zero(x)
    }

    // Are all cells of the names from first on, below end, whose secrecy is the given one, 0?
    fn cleared(&self, secrecy: bool, first: u16, end: u16) -> bool
        requires { first ≤ end }
        ensures { result ≡ cleared secrecy (slot_of self.now.slots.now) (range first (end - first)) self.now.cells.now }
    {
        (first..end).all(|x| self.passes(secrecy, x))
    }

    // The clearing tests at the end of block n over its count names from first on: 26 for a public one, 27 for a secret one where none is public.
    pub fn block_end(&self, first: u16, count: u16, n: u16) -> Verdict
        requires { first + count < 65536 }
        ensures { (trace : List ℕ) (left entries : ℕ) → Does (block_end n (slot_of self.now.slots.now) (range first count))
            self.now.cells.now trace (ran (Ok tt) left entries) self.now.cells.now trace (ran result left entries) }
    {
        let end = first + count;
        Rule::PublicLeft.given(n, !self.cleared(false, first, end))?;
        Rule::SecretLeft.given(n, !self.cleared(true, first, end))
    }
}

impl Memory<'_, '_, '_, '_> {
    // The clearing tests at the end of block n over its count names from first on.
    pub fn block_end(&self, first: u16, count: u16, n: u16) -> Verdict
        requires { first + count < 65536 }
        ensures { (trace : List ℕ) (left entries : ℕ) → Does (block_end n (slot_of self.now.slots.now) (range first count))
            self.now.cells.now trace (ran (Ok tt) left entries) self.now.cells.now trace (ran result left entries) }
    {
        self.reading().block_end(first, count, n)
    }
}
