// The two functions of the C boundary, which firmware_c exports. Nothing needs to be checked first.
#![tactic(auto)]

ghost use Rattle.std.specs.Prelude.{◌≡◌, length};
ghost use Rattle.rules.specs.Run.{fitted};
ghost use Rattle.rules.specs.Promised.{CheckedInto, RanInto};
ghost use Rattle.runner.specs.Runs.{as_given};

// The answer gets these numbers as far as they fit, then zeros.
fn answered<const N: usize>(answer: &mut [u64], numbers: [u64; N])
    ensures { answer.new ≡ fitted (length answer.old) numbers.entry }
{
    let told = answer.len().min(N);
    answer[..told].copy_from_slice(&numbers[..told]);
    answer[told..].fill(0);
}

// The verdict of an image: number and place.
pub fn hermes_check(image: &[u8], answer: &mut [u64])
    ensures { CheckedInto image.now (length answer.old) answer.new }
{
    let (number, place) = records::numbers(checker::check(image));
    answered(answer, [number.into(), place.into()]);
}

// The run of an image over a lent store: number, place, steps and trace entries. The parameters are those of the C interface.
pub fn hermes_run(
    image: &[u8],
    inverse: bool,
    lengths: &[u64],
    store: &mut [u64],
    work: &mut [u64],
    budget: u32,
    trace: &mut [u32],
    answer: &mut [u64],
)
    ensures { RanInto (as_given image.now inverse lengths.now store.old (length work.old) budget (length trace.old))
        (length answer.old) store.new work.new trace.new answer.new }
{
    let ran = runner::run(image, inverse, lengths, store, work, budget, trace);
    let (number, place) = records::numbers(ran.verdict);
    answered(
        answer,
        [number.into(), place.into(), ran.steps.into(), ran.entries],
    );
}
