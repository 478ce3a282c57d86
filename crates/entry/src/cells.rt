// Where the cells are: "the store, then every local scalar, counter and array of the image in variable order".
// The table of slots says for each variable where it lives.
ghost use Rattle.std.specs.Prelude.{◌≡◌, ◌+◌, ◌*◌, ◌-◌, ◌<◌, ◌≤◌, length, get_or};
ghost use Rattle.rules.specs.Image.{is_secret};
ghost use Rattle.rules.specs.Walk.{type_of};
ghost use Rattle.rules.specs.Machine.{no_slot};
ghost use Rattle.rules.specs.Run.{room_of, room_before, home, store_slots, sum};
ghost use Rattle.records.specs.Records.{as_header, as_procedure, as_variable};
ghost use Rattle.records.specs.Parts.{as_parts};
ghost use Rattle.entry.specs.Cells.{cells_by, Walked};
ghost use Rattle.entry.specs.Slots.{slot_placed, slots_placed};

use records::{Header, Parts, Procedure, Slot, Variable};

// How many cells variable x has as a local of the procedure q: parameters and constants have none.
#[tactic(auto, unfolding(crate::specs::Cells::cells_by))]
fn cells_of(q: Procedure, v: Variable, x: u16) -> u16
    ensures { result ≡ cells_by (as_procedure q) (as_variable v) x }
{
    if u32::from(x) < q.locals() || v.is_constant() {
        0
    } else if v.is_array() {
        v.extra
    } else {
        1
    }
}

// A variable on the way through all of them: its owner, its record, and how many cells it has as a local.
#[derive(Clone, Copy)]
struct Local {
    owner: u16,
    variable: Variable,
    cells: u16,
}

// Variable x, where the owner of the one before it is `from`.
fn local_at(h: Header, parts: &Parts, from: u16, x: u16) -> Local
    requires { Walked (as_header h) (as_parts parts.now) from x }
    ensures walked { Walked (as_header h) (as_parts parts.now) result.owner (x + 1) }
    ensures read { (as_variable result.variable ≡ type_of (as_parts parts.now) x) × (result.cells ≡ room_of (as_header h) (as_parts parts.now) x) }
{
    let owner = form::owner_from(parts.procedures, from, h.procedures, x).unwrap_or(h.procedures);
    let variable = records::variable_at(parts.variables, x);
    let cells = cells_of(records::procedure_at(parts.procedures, owner), variable, x);
    Local {
        owner,
        variable,
        cells,
    }
}

// How many cells all locals of the image have together.
// Here and in `place_locals` a loop walks by `local_at`: a walk for both would take a closure for what is done with each variable, and
// be longer than the loop.
pub fn room(h: Header, parts: &Parts) -> u64
    ensures { (result ≡ room_before (as_header h) (as_parts parts.now) h.variables) × (result < 4294967296) }
{
    let mut total = 0;
    let mut owner = 0;
    for x in 0..h.variables {
        let local = local_at(h, parts, owner, x);
        total += u64::from(local.cells);
        owner = local.owner;
    }
    total
}

// The slot of variable x: its cells from base on, its size and its secrecy.
#[tactic(auto, unfolding(crate::specs::Slots::slot_placed))]
fn place(slots: &mut [Slot], x: u16, base: u16, cells: u16, v: Variable)
    requires { x < length slots.old }
    ensures { slots.new ≡ slot_placed slots.old x (record { base = base; cells = cells; width = v.size; hidden = is_secret (as_variable v) }) }
{
    slots[usize::from(x)] = Slot {
        base,
        cells,
        width: u16::from(v.size),
        hidden: v.is_secret(),
    };
}

// The slots of all variables, each at its home behind the store, which has `stored` cells; and how many cells there are.
pub fn place_locals(h: Header, parts: &Parts, stored: u16, slots: &mut [Slot]) -> u16
    requires { (h.variables ≤ length slots.old) × (stored + room_before (as_header h) (as_parts parts.now) h.variables ≤ 4096) }
    ensures { (result ≡ stored + room_before (as_header h) (as_parts parts.now) h.variables)
        × (slots.new ≡ slots_placed (home (as_header h) (as_parts parts.now) stored) 0 h.variables slots.old) }
{
    let mut base = stored;
    let mut owner = 0;
    for x in 0..h.variables {
        let local = local_at(h, parts, owner, x);
        place(slots, x, base, local.cells, local.variable);
        base += local.cells;
        owner = local.owner;
    }
    base
}

// The slots of the last procedure's parameters, from variable `first` on: the store's cells in order, by these lengths.
// `as` cuts nothing: the clause keeps each place j below 1,024 and each length n to 4,096.
pub fn place_store(parts: &Parts, first: u16, lengths: &[u64], slots: &mut [Slot])
    requires { (first + length lengths.now ≤ length slots.old) × (first + length lengths.now ≤ 1024) × (sum lengths.now ≤ 4096) }
    ensures { slots.new ≡ slots_placed (λ y. get_or (store_slots (as_parts parts.now) first 0 lengths.now) (y - first) no_slot) first (length lengths.now) slots.old }
{
    let mut base = 0;
    for (j, n) in lengths.iter().enumerate() {
        let x = first + j as u16;
        let v = records::variable_at(parts.variables, x);
        let cells = *n as u16;
        place(slots, x, base, cells, v);
        base += cells;
    }
}
