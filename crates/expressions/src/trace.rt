// The trace, and how far a run has come.
ghost use Rattle.std.specs.Prelude.{◌≡◌, ℕ, ◌<◌, List, OnOk};
ghost use Rattle.rules.specs.Machine.{cell_event, step, done};
ghost use Rattle.expressions.specs.Standing.{Emits, SameSteps, SameRun, Acts};

use records::{Rule, Verdict};

// How far a run has come: how many events there are, and the steps that are left. `entries` is no length: what does not fit is counted.
#[derive(Clone, Copy)]
pub struct Run {
    pub entries: u64,
    pub left: u32,
}

// The trace that is lent: a run's first events, as far as they fit, and how far it has come.
#[derive(Drop)]
pub struct Trace<'a> {
    pub events: &'a mut [u32],
    pub run: Run,
}

impl Trace<'_> {
    // One more event at the end, written where it fits. By `as`, since there is no `From` between `u64` and `usize`.
    pub fn push(&mut self, event: u32)
        ensures emits { Emits event self.old self.new }
        ensures same { SameSteps self.old self.new }
    {
        records::put(self.events, self.run.entries as usize, event);
        self.run.entries = self.run.entries.saturating_add(1);
    }

    // The event of a cell. A cell of a run is below 131,072, as `address` says, so that nothing is cut by `as`.
    pub fn push_cell(&mut self, i: u64)
        requires { i < 131072 }
        ensures emits { Emits (cell_event i) self.old self.new }
        ensures same { SameSteps self.old self.new }
    {
        self.push(65536 + i as u32);
    }

    // One step at node n, or 23.
    #[tactic(auto, using(crate::proofs::Laws::passed))]
    pub fn step(&mut self, n: u16) -> Verdict
        ensures does { (σ : List ℕ) → Acts (step n done) σ self.old σ result self.new }
        ensures fewer { OnOk result (self.new.run.left < self.old.run.left) }
        ensures same { SameRun self.old self.new }
    {
        Rule::Budget.given(n, self.run.left == 0)?;
        self.run.left -= 1;
        self.push(u32::from(n));
        Ok(())
    }
}
