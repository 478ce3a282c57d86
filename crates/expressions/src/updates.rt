// The statements that change cells: update, swap and conditional swap, once their step is taken.
// What is known of a number, and what a call leaves as it was, stands in each clause: the reasons are at `value`, at `loaded`, and at the head of memory.rt.
// Each is a function that writes cells and reads slots, and a method of `Memory`, which hands both on: they are taken out of it for the call,
// since one field behind a reference is lent at a time.
ghost use Rattle.std.specs.Prelude.{◌≡◌, ℕ, ◌≤◌, ◌<◌};
ghost use Rattle.rules.specs.Words.{update_of, changed_by, going};
ghost use Rattle.rules.specs.Image.{Header, Parts, is_expression};
ghost use Rattle.rules.specs.Tree.{reading_at};
ghost use Rattle.rules.specs.Machine.{change, exchange};
ghost use Rattle.records.specs.Cases.{place_of};
ghost use Rattle.expressions.specs.Relations.{slot_of, Readable, Indexed, root_of, Good, direction_of};
ghost use Rattle.expressions.specs.Commands.{updating, exchanging, exchanging_if};
ghost use Rattle.expressions.specs.Standing.{Writes, SameSteps, KeepsSlots, ProgramOf, Acts, SameRun};

use crate::{Memory, Reading, Trace};
use records::{LValue, Slot, Verdict};

// The update's operator in the direction that the run goes.
#[tactic(auto, unfolding(rules::specs::Words::going, crate::specs::Relations::direction_of))]
fn going_op(inverse: bool, operator: u8) -> u8
    ensures { update_of result ≡ going (direction_of inverse) (update_of operator) }
{
    if inverse {
        words::undoing_op(operator)
    } else {
        operator
    }
}

// The target cell of an update of size z: changed, and written to the trace once.
fn change(cells: &mut [u64], trace: &mut Trace<'_>, operator: u8, i: u64, v: u64, z: u64)
    requires { (i < 131072) × (0 < z) × (z ≤ 64) }
    ensures writes { Writes (change (changed_by (update_of operator) z v) i) cells.old trace.old cells.new trace.new }
    ensures same { SameSteps trace.old trace.new }
{
    let at = i as usize;
    let x = records::get_or(cells, at, 0);
    records::put(cells, at, words::updated(operator, x, v, z));
    trace.push_cell(i);
}

// An update: target index, value, target cell.
pub fn update(
    parts: &records::Parts<'_>,
    cells: &mut [u64],
    slots: &[Slot],
    trace: &mut Trace<'_>,
    inverse: bool,
    operator: u8,
    target: LValue,
    from: u16,
) -> Verdict
    requires { Indexed parts.now.nodes.now target × Readable is_expression parts.now.nodes.now from }
    ensures does { (h : Header) (s : Parts) → ProgramOf h s parts.now
        → Good (slot_of slots.now (root_of target))
        → Acts (updating (slot_of slots.now) (direction_of inverse) (update_of operator) (place_of h s target) (reading_at h s from).as_expr)
        cells.old trace.old cells.new result trace.new }
    ensures same { SameRun trace.old trace.new }
{
    let memory = Reading {
        parts,
        cells,
        slots,
    };
    let i = memory.address(trace, target)?;
    let v = memory.value(trace, from)?;
    let z = memory.width_of(target.root());
    change(cells, trace, going_op(inverse, operator), i, v, z);
    Ok(())
}

// Two cells, exchanged where the condition is not 0, and both written to the trace.
fn exchange(cells: &mut [u64], trace: &mut Trace<'_>, condition: u64, i: u64, j: u64)
    requires { (i < 131072) × (j < 131072) }
    ensures writes { Writes (exchange condition i j) cells.old trace.old cells.new trace.new }
    ensures same { SameSteps trace.old trace.new }
{
    let left = i as usize;
    let right = j as usize;
    let (first, second) = words::exchange(
        condition,
        records::get_or(cells, left, 0),
        records::get_or(cells, right, 0),
    );
    records::put(cells, left, first);
    records::put(cells, right, second);
    trace.push_cell(i);
    trace.push_cell(j);
}

// A swap on a value, which is 1 where there is no condition: both indices, then both cells. Inlined, so that the targets do not go
// through memory (D23).
#[inline(always)]
pub fn swap(
    parts: &records::Parts<'_>,
    cells: &mut [u64],
    slots: &[Slot],
    trace: &mut Trace<'_>,
    condition: u64,
    left: LValue,
    right: LValue,
) -> Verdict
    requires { Indexed parts.now.nodes.now left × Indexed parts.now.nodes.now right }
    ensures does { (h : Header) (s : Parts) → ProgramOf h s parts.now
        → Acts (exchanging (slot_of slots.now) condition (place_of h s left) (place_of h s right)) cells.old trace.old cells.new result trace.new }
    ensures same { SameRun trace.old trace.new }
{
    let memory = Reading {
        parts,
        cells,
        slots,
    };
    let i = memory.address(trace, left)?;
    let j = memory.address(trace, right)?;
    exchange(cells, trace, condition, i, j);
    Ok(())
}

// A conditional swap: condition, indices, then both cells, whether or not they swap.
pub fn conditional_swap(
    parts: &records::Parts<'_>,
    cells: &mut [u64],
    slots: &[Slot],
    trace: &mut Trace<'_>,
    condition: u16,
    left: LValue,
    right: LValue,
) -> Verdict
    requires { Readable is_expression parts.now.nodes.now condition × Indexed parts.now.nodes.now left × Indexed parts.now.nodes.now right }
    ensures does { (h : Header) (s : Parts) → ProgramOf h s parts.now
        → Acts (exchanging_if (slot_of slots.now) (reading_at h s condition).as_expr (place_of h s left) (place_of h s right))
        cells.old trace.old cells.new result trace.new }
    ensures same { SameRun trace.old trace.new }
{
    let memory = Reading {
        parts,
        cells,
        slots,
    };
    let v = memory.value(trace, condition)?;
    swap(parts, cells, slots, trace, v, left, right)
}

impl Memory<'_, '_, '_, '_> {
    // An update of it.
    pub fn update(
        &mut self,
        trace: &mut Trace<'_>,
        inverse: bool,
        operator: u8,
        target: LValue,
        from: u16,
    ) -> Verdict
        requires { Indexed self.old.parts.now.nodes.now target × Readable is_expression self.old.parts.now.nodes.now from }
        ensures does { (h : Header) (s : Parts) → ProgramOf h s self.old.parts.now
            → Good (slot_of self.old.slots.now (root_of target))
            → Acts (updating (slot_of self.old.slots.now) (direction_of inverse) (update_of operator) (place_of h s target) (reading_at h s from).as_expr)
            self.old.cells.now trace.old self.new.cells.now result trace.new }
        ensures keeps { KeepsSlots self.old self.new }
        ensures same { SameRun trace.old trace.new }
    {
        let parts = self.parts;
        let cells = std::mem::take(&mut self.cells);
        let slots = std::mem::take(&mut self.slots);
        let verdict = update(parts, cells, slots, trace, inverse, operator, target, from);
        self.cells = cells;
        self.slots = slots;
        verdict
    }

    // A swap of it.
    #[inline(always)]
    pub fn swap(
        &mut self,
        trace: &mut Trace<'_>,
        condition: u64,
        left: LValue,
        right: LValue,
    ) -> Verdict
        requires { Indexed self.old.parts.now.nodes.now left × Indexed self.old.parts.now.nodes.now right }
        ensures does { (h : Header) (s : Parts) → ProgramOf h s self.old.parts.now
            → Acts (exchanging (slot_of self.old.slots.now) condition (place_of h s left) (place_of h s right))
            self.old.cells.now trace.old self.new.cells.now result trace.new }
        ensures keeps { KeepsSlots self.old self.new }
        ensures same { SameRun trace.old trace.new }
    {
        let parts = self.parts;
        let cells = std::mem::take(&mut self.cells);
        let slots = std::mem::take(&mut self.slots);
        let verdict = swap(parts, cells, slots, trace, condition, left, right);
        self.cells = cells;
        self.slots = slots;
        verdict
    }

    // A conditional swap of it.
    pub fn conditional_swap(
        &mut self,
        trace: &mut Trace<'_>,
        condition: u16,
        left: LValue,
        right: LValue,
    ) -> Verdict
        requires { Readable is_expression self.old.parts.now.nodes.now condition × Indexed self.old.parts.now.nodes.now left × Indexed self.old.parts.now.nodes.now right }
        ensures does { (h : Header) (s : Parts) → ProgramOf h s self.old.parts.now
            → Acts (exchanging_if (slot_of self.old.slots.now) (reading_at h s condition).as_expr (place_of h s left) (place_of h s right))
            self.old.cells.now trace.old self.new.cells.now result trace.new }
        ensures keeps { KeepsSlots self.old self.new }
        ensures same { SameRun trace.old trace.new }
    {
        let parts = self.parts;
        let cells = std::mem::take(&mut self.cells);
        let slots = std::mem::take(&mut self.slots);
        let verdict = conditional_swap(parts, cells, slots, trace, condition, left, right);
        self.cells = cells;
        self.slots = slots;
        verdict
    }
}
