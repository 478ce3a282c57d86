// What the fields of a node are, by the table of the rules.
ghost use Rattle.std.specs.Prelude.{ℕ, ◌≡◌, get_or};
ghost use Rattle.rules.specs.Form.{class_of};
ghost use Rattle.records.specs.Fields.{class_number, row_numbers};

use Class::{
    Constant, Expression, FirstArgument, FirstDeclared, FirstStatement, HowMany, LValue,
    NextLValue, NextStatement, NoNext, Procedure, Statement, Unused, Variable,
};

// What stands in a field that refers to no node. A number and no `Option`: it is what the image has, and the clauses on chains
// (`KnownChain`, `Chain`, `Chained`) speak of it.
pub const MISSING: u16 = 65535;

// What a field is: what it may refer to, or how it counts.
#[derive(Clone, Copy, Debug, PartialEq, Eq)]
pub enum Class {
    Unused,
    Expression,
    LValue,
    Statement,
    FirstArgument,
    FirstStatement,
    Procedure,
    Variable,
    Constant,
    FirstDeclared,
    HowMany,
    NextStatement,
    NextLValue,
    NoNext,
}

// The row of a kind that is no node's.
const NO_KIND: (u8, [Class; 5]) = (0, [Unused, Unused, Unused, Unused, Unused]);

// "One table says what each field of each kind is": how many operators, then what a, b, c, d and next are.
const FIELDS: [(u8, [Class; 5]); 27] = [
    NO_KIND,
    (0, [Unused, Unused, Unused, Unused, NextStatement]),
    (5, [LValue, Expression, Unused, Unused, NextStatement]),
    (0, [LValue, LValue, Unused, Unused, NextStatement]),
    (0, [Expression, LValue, LValue, Unused, NextStatement]),
    (0, [Expression, Statement, Statement, Unused, NextStatement]),
    (
        0,
        [Variable, Expression, Expression, Statement, NextStatement],
    ),
    (0, [Procedure, FirstArgument, Unused, Unused, NextStatement]),
    (0, [Procedure, FirstArgument, Unused, Unused, NextStatement]),
    (
        0,
        [
            FirstDeclared,
            HowMany,
            FirstStatement,
            Unused,
            NextStatement,
        ],
    ),
    NO_KIND,
    NO_KIND,
    NO_KIND,
    NO_KIND,
    NO_KIND,
    NO_KIND,
    NO_KIND,
    NO_KIND,
    NO_KIND,
    NO_KIND,
    (0, [Constant, Unused, Unused, Unused, NoNext]),
    (0, [Variable, Unused, Unused, Unused, NextLValue]),
    (0, [Variable, Expression, Unused, Unused, NextLValue]),
    (0, [Variable, Expression, Unused, Unused, NextLValue]),
    (0, [Variable, Unused, Unused, Unused, NoNext]),
    (16, [Expression, Expression, Unused, Unused, NoNext]),
    (0, [Expression, Unused, Unused, Unused, NoNext]),
];

// What a node's operator and fields are: how many operators its kind has, and the class of each field.
#[derive(Clone, Copy)]
pub struct Fields {
    pub operators: u8,
    pub a: Class,
    pub b: Class,
    pub c: Class,
    pub d: Class,
    pub next: Class,
}

// The kind's row of the table; of a kind that the table does not have, no field is used.
// A test and an index: by `get_or` a row goes through memory once more, and a check takes a third longer.
fn row_of(kind: u8) -> (u8, [Class; 5])
    ensures { (field : ℕ) → get_or (row_numbers result) field 0 ≡ class_of kind field }
{
    let k = usize::from(kind);
    if k < FIELDS.len() { FIELDS[k] } else { NO_KIND }
}

// What the kind's fields are: the row is looked up once for all of them.
pub fn classes_of(kind: u8) -> Fields
    ensures operators { result.operators ≡ class_of kind 0 }
    ensures a { class_number result.a ≡ class_of kind 1 }
    ensures b { class_number result.b ≡ class_of kind 2 }
    ensures c { class_number result.c ≡ class_of kind 3 }
    ensures d { class_number result.d ≡ class_of kind 4 }
    ensures next { class_number result.next ≡ class_of kind 5 }
{
    let (operators, [a, b, c, d, next]) = row_of(kind);
    Fields {
        operators,
        a,
        b,
        c,
        d,
        next,
    }
}
