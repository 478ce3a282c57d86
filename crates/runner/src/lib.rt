// The run of an image: everything is cleared first, then checked, then run in the work words; the store changes only where nothing
// was refused, and the work words are 0 afterwards, whatever the answer is.
// `Statement`, `Bodies` and `SameRun` stand in the clauses as in executors, for the reasons given there.
#![tactic(auto)]

ghost use Rattle.std.specs.Prelude.{◌≡◌, ◌^◌, ◌<◌, ◌≤◌, length};
ghost use Rattle.rules.specs.Promised.{Ran};
ghost use Rattle.records.specs.Records.{as_header};
ghost use Rattle.records.specs.Refusals.{as_verdict};
ghost use Rattle.records.specs.Parts.{as_parts};
ghost use Rattle.expressions.specs.Standing.{SameRun};
ghost use Rattle.executors.specs.World.{Statement, Bodies};
ghost use Rattle.runner.specs.Runs.{as_given, Ready, Placing, Placed, Begins, Executed, Worked, Finished, RanBy};

use expressions::{Memory, Run, Trace};
use records::{Header, NO_SLOT, Parts, Slot, Verdict};

// "Answer: number, place, steps, trace entries."
#[derive(Clone, Copy, Debug, PartialEq, Eq)]
pub struct Answer {
    pub verdict: Verdict,
    pub steps: u32,
    pub entries: u64,
}

// Where every name of the run lives, and how many cells there are.
fn placed(h: Header, parts: &Parts, lengths: &[u64], stored: u16, slots: &mut [Slot]) -> u16
    requires { Placing (as_header h) (as_parts parts.now) lengths.now stored (length slots.old) }
    ensures { Placed (as_header h) (as_parts parts.now) lengths.now stored slots.old slots.new result }
{
    let total = entry::cells::place_locals(h, parts, stored, slots);
    let last = records::procedure_at(parts.procedures, h.procedures - 1);
    entry::cells::place_store(parts, last.first, lengths, slots);
    total
}

// Node n of procedure p over the cells of the run. Slices go one by one as far as here, as `run` has them from C: were `Memory` made over a
// part of the work words where that is cut, the proof would lose what the cells are at the end.
fn executed(
    parts: &Parts,
    inverse: bool,
    p: u16,
    n: u16,
    cells: &mut [u64],
    slots: &mut [Slot],
    trace: &mut Trace<'_>,
) -> Verdict
    requires { Statement parts.now.nodes.now n × Bodies parts.now.nodes.now parts.now.procedures.now p }
    ensures executed { Executed (as_parts parts.now) inverse p n cells.old slots.old trace.old cells.new slots.new result trace.new }
    ensures same { SameRun trace.old trace.new }
{
    let mut memory = Memory {
        parts,
        cells,
        slots,
    };
    executors::statement(&mut memory, trace, inverse, p, n)
}

// The last procedure's body over the first work words, which hold the store and the locals; slices one by one, as in `executed`. The
// store has at most 4,096 cells by 22, so that its length is not cut by `as`.
fn worked(
    h: Header,
    parts: &Parts,
    inverse: bool,
    lengths: &[u64],
    store: &[u64],
    work: &mut [u64],
    trace: &mut Trace<'_>,
) -> Verdict
    requires ready { Ready (as_header h) (as_parts parts.now) (length work.old) lengths.now store.now }
    requires begins { Begins work.old trace.old }
    ensures worked { Worked (as_header h) (as_parts parts.now) inverse lengths.now store.now trace.old work.new result trace.new }
    ensures same { SameRun trace.old trace.new }
{
    let mut slots = [NO_SLOT; 1024];
    let total = usize::from(placed(h, parts, lengths, store.len() as u16, &mut slots));
    entry::work::copy_in(work, store);
    let p = h.procedures - 1;
    let body = records::procedure_at(parts.procedures, p).body;
    executed(
        parts,
        inverse,
        p,
        body,
        &mut work[..total],
        &mut slots,
        trace,
    )
}

// The end of a run: the store copied out where nothing was refused, and the work words cleared.
fn finished(store: &mut [u64], words: &mut [u64], verdict: Verdict)
    requires { length store.old ≤ length words.old }
    ensures { Finished store.old words.old verdict store.new words.new }
{
    if verdict.is_ok() {
        entry::work::copy_out(store, words);
    }
    entry::work::clear(words);
}

// The run as far as it is let: the check's refusals come first, then 19 to 22, then the execution. Slices one by one, as in `executed`.
fn ran(
    image: &[u8],
    inverse: bool,
    lengths: &[u64],
    store: &mut [u64],
    work: &mut [u64],
    trace: &mut Trace<'_>,
) -> Verdict
    requires begins { Begins work.old trace.old }
    requires left { trace.old.run.left < 2 ^ 32 }
    ensures ran { RanBy image.now inverse lengths.now store.old work.old trace.old result store.new work.new trace.new }
    ensures same { SameRun trace.old trace.new }
{
    checker::check(image)?;
    let h = records::header_of(image);
    let parts = records::parts_of(image);
    entry::refusals::entry_refusal(h, &parts, lengths, store, work.len())?;
    let verdict = worked(h, &parts, inverse, lengths, store, work, trace);
    finished(store, work, verdict);
    verdict
}

// The run of an image over a lent store: "number, place, steps, trace entries". What is lent comes one by one, as the C interface has it.
pub fn run(
    image: &[u8],
    inverse: bool,
    lengths: &[u64],
    store: &mut [u64],
    work: &mut [u64],
    budget: u32,
    trace: &mut [u32],
) -> Answer
    ensures { Ran (as_given image.now inverse lengths.now store.old (length work.old) budget (length trace.old))
        (as_verdict result.verdict).number (as_verdict result.verdict).place result.steps result.entries store.new work.new trace.new }
{
    entry::work::clear(work);
    trace.fill(0);
    let mut trace = Trace {
        events: trace,
        run: Run {
            entries: 0,
            left: budget,
        },
    };
    let verdict = ran(image, inverse, lengths, store, work, &mut trace);
    Answer {
        verdict,
        steps: budget - trace.run.left,
        entries: trace.run.entries,
    }
}
