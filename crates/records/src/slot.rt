// Where a variable lives while its image runs.

// A variable's slot: its first cell, how many it has, their size, and whether they are secret.
#[derive(Clone, Copy)]
pub struct Slot {
    pub base: u16,
    pub cells: u16,
    pub width: u16,
    pub hidden: bool,
}

// The slot of what is no variable: it has no cells. A slot and no `Option`, as `no_slot` of rules/Machine is.
pub const NO_SLOT: Slot = Slot {
    base: 0,
    cells: 0,
    width: 64,
    hidden: false,
};
