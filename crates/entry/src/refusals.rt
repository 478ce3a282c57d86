// Refusals 19 to 22, "in order".
ghost use Rattle.std.specs.Prelude.{◌≡◌, cond, ◌&&◌, ◌+◌, ◌^◌, ◌<◌, ◌≤◌, eqb, leb, ltb, length, get_or};
ghost use Rattle.rules.specs.Image.{is_array};
ghost use Rattle.rules.specs.Run.{lengths_fit, sum, per_cell};
ghost use Rattle.records.specs.Records.{as_header, as_variable};
ghost use Rattle.records.specs.Refusals.{as_verdict};
ghost use Rattle.records.specs.Parts.{as_parts};
ghost use Rattle.tree.specs.Search.{found};
ghost use Rattle.entry.specs.Refusals.{Called, entry_tests};

use records::{Header, Parts, Rule, Variable, Verdict};

// Whether a parameter can have n cells: a scalar has 1, an array at most 4,096.
fn length_fits(v: Variable, n: u64) -> bool
    ensures { result ≡ cond (is_array (as_variable v)) (leb n 4096) (eqb n 1) }
{
    if v.is_array() { n <= 4096 } else { n == 1 }
}

// Whether 20 is not given, in one pass that tests and sums: as many lengths as parameters, each fits its parameter, and together they are the store's length.
// The parts, the first parameter and the lengths go one by one, here, below and in `place_store`: as fields of a struct each would
// stand in these clauses behind `self.now`, and no clause would be shorter.
// `as` cuts nothing: each place j is below `parameters`, and `stored` is a usize.
pub fn lengths_fit(
    parts: &Parts,
    first: u16,
    parameters: u16,
    lengths: &[u64],
    stored: usize,
) -> bool
    requires { first + parameters ≤ 65535 }
    ensures { result ≡ (eqb (length lengths.now) parameters && (lengths_fit (as_parts parts.now) first lengths.now && eqb (sum lengths.now) stored)) }
{
    if lengths.len() != usize::from(parameters) {
        return false;
    }
    let mut total = 0;
    for (j, n) in lengths.iter().enumerate() {
        let v = records::variable_at(parts.variables, first + j as u16);
        if !length_fits(v, *n) {
            return false;
        }
        total += *n;
    }
    total == stored as u64
}

// Whether a cell is below 2^z.
fn cell_fits(cell: u64, z: u8) -> bool
    ensures { result ≡ ltb cell (2 ^ z) }
{
    64 <= z || cell < 1 << z
}

// The first cell that is not below 2^z.
fn first_wide_in(cells: &[u64], z: u8) -> Option<usize>
    ensures { result ≡ found (λ i. ltb (get_or cells.now i 0) (2 ^ z)) 0 (length cells.now) }
{
    cells.iter().position(|cell| !cell_fits(*cell, z))
}

// The first cell of the store that is not below 2^z, z the size of its parameter.
// `as` cuts nothing: the clause keeps each place j below 65,535 and each length n to the store's.
pub fn first_wide_cell(parts: &Parts, first: u16, lengths: &[u64], store: &[u64]) -> Option<usize>
    requires { (first + length lengths.now ≤ 65535) × (sum lengths.now ≡ length store.now) }
    ensures { result ≡ found (λ i. ltb (get_or store.now i 0) (2 ^ get_or (per_cell (λ v. v.size) (as_parts parts.now) first lengths.now) i 0)) 0 (length store.now) }
{
    let mut from = 0;
    for (j, n) in lengths.iter().enumerate() {
        let end = from + *n as usize;
        let v = records::variable_at(parts.variables, first + j as u16);
        if let Some(i) = first_wide_in(&store[from..end], v.size) {
            return Some(from + i);
        }
        from = end;
    }
    None
}

// 19 to 22: the first that is given. `as` cuts nothing: where 20 is not given, the store has at most 16 * 4,096 cells.
pub fn entry_refusal(
    h: Header,
    parts: &Parts,
    lengths: &[u64],
    store: &[u64],
    works: usize,
) -> Verdict
    requires { Called (as_header h) (as_parts parts.now) }
    ensures { as_verdict result ≡ entry_tests (as_header h) (as_parts parts.now) works lengths.now store.now }
{
    Rule::Work.given(0, works < 8192)?;
    let last = records::procedure_at(parts.procedures, h.procedures - 1);
    let fit = lengths_fit(parts, last.first, last.parameters, lengths, store.len());
    Rule::Lengths.given(0, !fit)?;
    if let Some(i) = first_wide_cell(parts, last.first, lengths, store) {
        return Err(Rule::WideCell.at(i as u16));
    }
    let room = crate::cells::room(h, parts);
    Rule::Room.given(0, 4096 < store.len() as u64 + room)
}
