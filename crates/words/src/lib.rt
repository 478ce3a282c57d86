// The word arithmetic of a run: what each operator of an expression gives, what each update leaves in a cell of z bits, and a
// conditional exchange. Each contract is one equation with the definition of `rules`, by the operator's name there.
#![tactic(auto, unfolding(rules::specs::Words::operate, rules::specs::Words::operate1, rules::specs::Words::truth, rules::specs::Words::divides, rules::specs::Words::changed_by, rules::specs::Words::undoing, rules::specs::Words::exchanged,))]

ghost use Rattle.std.specs.Prelude.{◌≡◌, ◌%◌, ◌^◌, ◌<◌, ◌≤◌, true, ◌&&◌, ◌==◌};
ghost use Rattle.rules.specs.Words.{plus, minus, times, quotient, remainder, conjunction, disjunction, exclusive};
ghost use Rattle.rules.specs.Words.{equal, unequal, below, above, at_most, at_least, shift_left, shift_right};
ghost use Rattle.rules.specs.Words.{operate, binary_of, divides, complement, operate1, truth};
ghost use Rattle.rules.specs.Words.{increase, decrease, toggle, rotate_left, rotate_right, rotated_left, changed_by, update_of, undoing};
ghost use Rattle.rules.specs.Words.{exchanged};

// Operators of expressions

pub fn plus(a: u64, b: u64) -> u64
    ensures { result ≡ operate plus a b }
{
    a.wrapping_add(b)
}

pub fn minus(a: u64, b: u64) -> u64
    ensures { result ≡ operate minus a b }
{
    a.wrapping_sub(b)
}

pub fn times(a: u64, b: u64) -> u64
    ensures { result ≡ operate times a b }
{
    a.wrapping_mul(b)
}

pub fn quotient(a: u64, b: u64) -> u64
    requires { 0 < b }
    ensures { result ≡ operate quotient a b }
{
    a / b
}

pub fn remainder(a: u64, b: u64) -> u64
    requires { 0 < b }
    ensures { result ≡ operate remainder a b }
{
    a % b
}

pub fn conjunction(a: u64, b: u64) -> u64
    ensures { result ≡ operate conjunction a b }
{
    a & b
}

pub fn disjunction(a: u64, b: u64) -> u64
    ensures { result ≡ operate disjunction a b }
{
    a | b
}

pub fn exclusive(a: u64, b: u64) -> u64
    ensures { result ≡ operate exclusive a b }
{
    a ^ b
}

pub fn complement(a: u64) -> u64
    ensures { result ≡ operate1 complement a }
{
    !a
}

// The word of a test's answer.
fn truth_word(holds: bool) -> u64
    ensures { result ≡ truth holds }
{
    if holds { u64::MAX } else { 0 }
}

pub fn equal(a: u64, b: u64) -> u64
    ensures { result ≡ operate equal a b }
{
    truth_word(a == b)
}

pub fn unequal(a: u64, b: u64) -> u64
    ensures { result ≡ operate unequal a b }
{
    truth_word(a != b)
}

pub fn below(a: u64, b: u64) -> u64
    ensures { result ≡ operate below a b }
{
    truth_word(a < b)
}

pub fn above(a: u64, b: u64) -> u64
    ensures { result ≡ operate above a b }
{
    truth_word(a > b)
}

pub fn at_most(a: u64, b: u64) -> u64
    ensures { result ≡ operate at_most a b }
{
    truth_word(a <= b)
}

pub fn at_least(a: u64, b: u64) -> u64
    ensures { result ≡ operate at_least a b }
{
    truth_word(a >= b)
}

// `checked_shl` takes a u32, to which b would be cut.
pub fn shift_left(a: u64, b: u64) -> u64
    ensures { result ≡ operate shift_left a b }
{
    if b < 64 { a << b } else { 0 }
}

pub fn shift_right(a: u64, b: u64) -> u64
    ensures { result ≡ operate shift_right a b }
{
    if b < 64 { a >> b } else { 0 }
}

// Is it the number of an operator that divides?
fn is_division(op: u8) -> bool
    ensures { result ≡ divides (binary_of op) }
{
    matches!(op, 4 | 5)
}

// Would the operator of that number divide by 0? Where not, `divisor` of numbers/Laws has what `binary` requires.
pub fn zero_divisor(op: u8, b: u64) -> bool
    ensures { result ≡ (b == 0 && divides (binary_of op)) }
{
    b == 0 && is_division(op)
}

// The operator of that number in a node. No node of an accepted image has a number that no arm names. The number stays a `u8`, since
// the contract speaks of every u8; 1 has its own arm beside `_`, so that the table has all sixteen.
#[tactic(auto)]
pub fn binary(op: u8, a: u64, b: u64) -> u64
    requires { divides (binary_of op) ≡ true → 0 < b }
    ensures { result ≡ operate (binary_of op) a b }
{
    match op {
        1 => plus(a, b),
        2 => minus(a, b),
        3 => times(a, b),
        4 => quotient(a, b),
        5 => remainder(a, b),
        6 => conjunction(a, b),
        7 => disjunction(a, b),
        8 => exclusive(a, b),
        9 => equal(a, b),
        10 => unequal(a, b),
        11 => below(a, b),
        12 => above(a, b),
        13 => at_most(a, b),
        14 => at_least(a, b),
        15 => shift_left(a, b),
        16 => shift_right(a, b),
        _ => plus(a, b),
    }
}

// Updates of a cell of z bits: x is what it has, v the update's value. z is a `u64` with its bounds in each clause: a type of sizes would
// be narrower than what these functions take.

// The z low bits of x: the mask has as many ones.
pub fn cut(x: u64, z: u64) -> u64
    requires { (0 < z) × (z ≤ 64) }
    ensures { result ≡ x % 2 ^ z }
{
    x & (u64::MAX >> (64 - z))
}

pub fn increase(x: u64, v: u64, z: u64) -> u64
    requires { (0 < z) × (z ≤ 64) }
    ensures { result ≡ changed_by increase z v x }
{
    cut(plus(x, v), z)
}

pub fn decrease(x: u64, v: u64, z: u64) -> u64
    requires { (0 < z) × (z ≤ 64) }
    ensures { result ≡ changed_by decrease z v x }
{
    cut(minus(x, v), z)
}

pub fn toggle(x: u64, v: u64, z: u64) -> u64
    requires { (0 < z) × (z ≤ 64) }
    ensures { result ≡ changed_by toggle z v x }
{
    exclusive(x, cut(v, z))
}

// By how many places a rotation turns. Most values are below z already, and the division is spared.
fn places(v: u64, z: u64) -> u64
    requires { (0 < z) × (z ≤ 64) }
    ensures { (result ≡ v % 2 ^ z % z) × (result < z) }
{
    if v < z { v } else { cut(v, z) % z }
}

// The cell turned left by less than z places. The high part comes down by two shifts, since the machine has no shift by 64.
fn turned_left(x: u64, by: u64, z: u64) -> u64
    requires { (by < z) × (z ≤ 64) }
    ensures { result ≡ rotated_left z by x }
{
    let kept = z - by;
    (cut(x, kept) << by) + (x >> 1 >> (kept - 1))
}

pub fn rotate_left(x: u64, v: u64, z: u64) -> u64
    requires { (0 < z) × (z ≤ 64) }
    ensures { result ≡ changed_by rotate_left z v x }
{
    turned_left(x, places(v, z), z)
}

// To turn right is to turn left by the rest of the way round.
pub fn rotate_right(x: u64, v: u64, z: u64) -> u64
    requires { (0 < z) × (z ≤ 64) }
    ensures { result ≡ changed_by rotate_right z v x }
{
    let by = places(v, z);
    if by == 0 {
        x
    } else {
        turned_left(x, z - by, z)
    }
}

// The update of that number in a node: a `u8`, as at `binary`.
pub fn updated(op: u8, x: u64, v: u64, z: u64) -> u64
    requires { (0 < z) × (z ≤ 64) }
    ensures { result ≡ changed_by (update_of op) z v x }
{
    match op {
        1 => increase(x, v, z),
        2 => decrease(x, v, z),
        3 => toggle(x, v, z),
        4 => rotate_left(x, v, z),
        5 => rotate_right(x, v, z),
        _ => increase(x, v, z),
    }
}

// The number of the update that undoes that one: a `u8`, as at `binary`.
pub fn undoing_op(op: u8) -> u8
    ensures { (update_of result ≡ undoing (update_of op)) × (1 ≤ result) × (result ≤ 5) }
{
    match op {
        1 => 2,
        2 => 1,
        3 => 3,
        4 => 5,
        5 => 4,
        _ => 2,
    }
}

// A conditional exchange

// What two cells have afterwards: any condition but 0 exchanges them.
pub fn exchange(condition: u64, a: u64, b: u64) -> (u64, u64)
    ensures { (result.0 ≡ exchanged condition a b) × (result.1 ≡ exchanged condition b a) }
{
    if condition == 0 { (a, b) } else { (b, a) }
}
