// The C boundary: the functions of `firmware` under their names in C. Each slice passes as a pointer, then a length; slices must not overlap.
#![tactic(auto)]

ghost use Rattle.std.specs.Prelude.{length};
ghost use Rattle.rules.specs.Promised.{CheckedInto, RanInto};
ghost use Rattle.runner.specs.Runs.{as_given};

// The verdict of an image: number and place.
#[unsafe(no_mangle)]
pub extern "C" fn hermes_check(image: &[u8], answer: &mut [u64])
    ensures { CheckedInto image.now (length answer.old) answer.new }
{
    firmware::hermes_check(image, answer);
}

// The run of an image over a lent store: number, place, steps and trace entries.
#[unsafe(no_mangle)]
pub extern "C" fn hermes_run(
    image: &[u8],
    inverse: bool,
    lengths: &[u64],
    store: &mut [u64],
    work: &mut [u64],
    budget: u32,
    trace: &mut [u32],
    answer: &mut [u64],
)
    ensures { RanInto (as_given image.now inverse lengths.now store.old (length work.old) budget (length trace.old))
        (length answer.old) store.new work.new trace.new answer.new }
{
    firmware::hermes_run(image, inverse, lengths, store, work, budget, trace, answer);
}
