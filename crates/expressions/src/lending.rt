// Arguments: what an L-value lends is written to the slot of a parameter.
ghost use Rattle.std.specs.Prelude.{◌≡◌, ℕ, ◌+◌, ◌-◌, ◌≤◌, ◌<◌, List, length};
ghost use Rattle.rules.specs.Image.{Header, Parts};
ghost use Rattle.rules.specs.Tree.{reading_at};
ghost use Rattle.rules.specs.Machine.{Env, lent, arguments};
ghost use Rattle.records.specs.Cases.{place_of};
ghost use Rattle.expressions.specs.Relations.{slot_of, Agree, Chained, Apart, Traced};
ghost use Rattle.expressions.specs.Names.{WithinLs};
ghost use Rattle.expressions.specs.Standing.{LendsBy, SameSteps, KeepsCells, ProgramOf};

use crate::memory::slot_at;
use crate::{Memory, Reading, Trace};
use records::{LValue, Rule, Slot, Verdict};

// The number of a cell as a slot has it. By `as`, since a larger number is cut and not refused.
fn low16(i: u64) -> u16
    ensures { i < 65536 → result ≡ i }
{
    (i % 65536) as u16
}

// What an L-value lends, its cell being i, is written to slot y: a whole variable's slot, or one cell of an array.
fn lend(slots: &mut [Slot], y: usize, target: LValue, i: u64)
    ensures apart { Apart slots.old slots.new y 1 }
    ensures lends { i < 65536 → y < length slots.old → (h : Header) (s : Parts)
        → slot_of slots.new y ≡ lent (slot_of slots.old) (place_of h s target) i }
    ensures long { length slots.new ≡ length slots.old }
{
    let slot = slot_at(slots, target.root());
    let lent = match target {
        LValue::Variable { .. } => slot,
        LValue::Element { .. } | LValue::Unsafe { .. } => Slot {
            base: low16(i),
            cells: 1,
            ..slot
        },
    };
    records::put(slots, y, lent);
}

// What the arguments from node n on lend is written to the slots from y on: the first, then the rest, as the clause has them.
// The target is tested by `let .. else`, the form that docs/FORMS.md names, as in records.
pub fn arguments(
    parts: &records::Parts<'_>,
    cells: &[u64],
    slots: &mut [Slot],
    trace: &mut Trace<'_>,
    y: usize,
    n: u16,
) -> Verdict
    requires chained { Chained parts.now.nodes.now n }
    requires n_bound { y + (65535 - n) < 1048576 }
    ensures apart { (h : Header) (s : Parts) → ProgramOf h s parts.now
        → (ρ : Env) (lo hi : ℕ) → Agree slots.old ρ lo hi → WithinLs lo hi (reading_at h s n).as_arguments → y + length (reading_at h s n).as_arguments ≤ lo
        → Apart slots.old slots.new y (length (reading_at h s n).as_arguments)
        × ((events : List ℕ) → Traced trace.old.events.now trace.old.run.entries events
        → LendsBy (arguments ρ cells.now (reading_at h s n).as_arguments) y events slots.new result trace.new) }
    ensures long { length slots.new ≡ length slots.old }
    ensures same { SameSteps trace.old trace.new }
{
    if n == records::MISSING {
        return Ok(());
    }
    let Some(target) = records::lvalue_at(parts.nodes, n) else {
        return Err(Rule::NodeRecord.at(n));
    };
    let memory = Reading {
        parts,
        cells,
        slots,
    };
    let i = memory.address(trace, target)?;
    let next = records::next_at(parts.nodes, n);
    lend(slots, y, target, i);
    arguments(parts, cells, slots, trace, y + 1, next)
}

impl Memory<'_, '_, '_, '_> {
    // What the arguments lend of it. Cells and slots are taken out of it for the call, as in updates.rt.
    pub fn arguments(&mut self, trace: &mut Trace<'_>, y: usize, n: u16) -> Verdict
        requires chained { Chained self.old.parts.now.nodes.now n }
        requires n_bound { y + (65535 - n) < 1048576 }
        ensures apart { (h : Header) (s : Parts) → ProgramOf h s self.old.parts.now
            → (ρ : Env) (lo hi : ℕ) → Agree self.old.slots.now ρ lo hi → WithinLs lo hi (reading_at h s n).as_arguments → y + length (reading_at h s n).as_arguments ≤ lo
            → Apart self.old.slots.now self.new.slots.now y (length (reading_at h s n).as_arguments)
            × ((events : List ℕ) → Traced trace.old.events.now trace.old.run.entries events
            → LendsBy (arguments ρ self.old.cells.now (reading_at h s n).as_arguments) y events self.new.slots.now result trace.new) }
        ensures keeps { KeepsCells self.old self.new }
        ensures same { SameSteps trace.old trace.new }
    {
        let parts = self.parts;
        let cells = std::mem::take(&mut self.cells);
        let slots = std::mem::take(&mut self.slots);
        let verdict = arguments(parts, cells, slots, trace, y, n);
        self.cells = cells;
        self.slots = slots;
        verdict
    }
}
