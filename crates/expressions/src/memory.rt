// What a run reads and writes: the image's parts, the cells, and where each variable's cells are.
// `Reading` asks for nothing to write; a function that writes cells or slots asks for these alone, as a slice. `Memory`, which the cycle goes
// by, has both to write, and its methods hand on what each function asks for.
// A frame (`KeepsSlots`, `KeepsCells`, `SameSteps`, `SameRun`) says of a lent struct, before and after, what a call leaves as it was.
// It stands with each function: a type's invariant knows one moment alone.
ghost use Rattle.std.specs.Prelude.{◌≡◌, ◌≤◌, ◌<◌, ◌*◌, get_or, set, length};
ghost use Rattle.rules.specs.Machine.{load};
ghost use Rattle.records.specs.Slots.{as_slot};
ghost use Rattle.expressions.specs.Relations.{slot_of, Good};
ghost use Rattle.expressions.specs.Standing.{Finds, SameSteps, KeepsSlots};

use crate::Trace;
use records::{NO_SLOT, Parts, Slot};

// What is read: cells and slots as they are.
#[derive(Clone, Copy)]
pub struct Reading<'q, 'p, 'c, 's> {
    pub parts: &'q Parts<'p>,
    pub cells: &'c [u64],
    pub slots: &'s [Slot],
}

#[derive(Drop)]
pub struct Memory<'q, 'p, 'c, 's> {
    pub parts: &'q Parts<'p>,
    pub cells: &'c mut [u64],
    pub slots: &'s mut [Slot],
}

// Where variable x lives by these slots.
pub(crate) fn slot_at(slots: &[Slot], x: u16) -> Slot
    ensures { as_slot result ≡ slot_of slots.now x }
{
    records::get_or(slots, usize::from(x), NO_SLOT)
}

impl Reading<'_, '_, '_, '_> {
    // The cell of that number. A `u64` becomes a `usize` by `as`: there is no `From` between them.
    pub fn cell(&self, i: u64) -> u64
        ensures { result ≡ get_or self.now.cells.now i 0 }
    {
        records::get_or(self.cells, i as usize, 0)
    }

    // What a cell has, with its event. `i < 131072` is of a number just worked out, and stands with each function that takes it:
    // `load` and `change` of the rules take the number itself, and each clause would have to name the field of a type for it.
    #[tactic(auto, using(crate::proofs::Laws::loaded_on))]
    pub(crate) fn loaded(&self, trace: &mut Trace<'_>, i: u64) -> u64
        requires { i < 131072 }
        ensures finds { Finds (load self.now.cells.now i) trace.old (Ok result) trace.new }
        ensures same { SameSteps trace.old trace.new }
    {
        trace.push_cell(i);
        self.cell(i)
    }

    // Where variable x lives.
    pub(crate) fn slot(&self, x: u16) -> Slot
        ensures { as_slot result ≡ slot_of self.now.slots.now x }
    {
        slot_at(self.slots, x)
    }

    // The first cell of variable x.
    pub fn base_of(&self, x: u16) -> u64
        ensures { (result ≡ (slot_of self.now.slots.now x).base) × (result < 65536) }
    {
        u64::from(self.slot(x).base)
    }

    // How many cells variable x has.
    pub fn count_of(&self, x: u16) -> u64
        ensures { (result ≡ (slot_of self.now.slots.now x).cells) × (result < 65536) }
    {
        u64::from(self.slot(x).cells)
    }

    // The size of variable x, between 1 and 64 whatever its slot has.
    pub(crate) fn width_of(&self, x: u16) -> u64
        ensures { ((0 < result) × (result ≤ 64)) × (Good (slot_of self.now.slots.now x) → result ≡ (slot_of self.now.slots.now x).width) }
    {
        u64::from(self.slot(x).width).clamp(1, 64)
    }
}

impl<'p> Memory<'_, 'p, '_, '_> {
    // The cell of that number.
    pub fn cell(&self, i: u64) -> u64
        ensures { result ≡ get_or self.now.cells.now i 0 }
    {
        self.reading().cell(i)
    }

    // A counter's start and its reset: a value put into a cell.
    pub fn put(&mut self, i: u64, v: u64)
        ensures sets { self.new.cells.now ≡ set self.old.cells.now i v }
        ensures keeps { KeepsSlots self.old self.new }
    {
        records::put(self.cells, i as usize, v);
    }

    // What is read of it.
    pub(crate) fn reading(&self) -> Reading<'_, 'p, '_, '_>
        ensures parts { result.parts.now ≡ self.now.parts.now }
        ensures cells { result.cells.now ≡ self.now.cells.now }
        ensures slots { result.slots.now ≡ self.now.slots.now }
    {
        Reading {
            parts: self.parts,
            cells: self.cells,
            slots: self.slots,
        }
    }

    // The first cell of variable x.
    pub fn base_of(&self, x: u16) -> u64
        ensures { (result ≡ (slot_of self.now.slots.now x).base) × (result < 65536) }
    {
        self.reading().base_of(x)
    }

    // How many cells variable x has.
    pub fn count_of(&self, x: u16) -> u64
        ensures { (result ≡ (slot_of self.now.slots.now x).cells) × (result < 65536) }
    {
        self.reading().count_of(x)
    }
}
