// The header and the four parts of an image, read where they stand, and a node taken apart into its case.
// Every reader is total: what stands past the end of a part reads as 0.
#![tactic(auto)]

mod bytes;
mod fields;
mod parts;
mod refusal;
mod slices;
mod slot;

ghost use Rattle.std.specs.Prelude.{◌≡◌, true, ◌+◌, ◌*◌, ◌<◌, get_or, length};
ghost use Rattle.rules.specs.Image.{le16, le32, le64, header_of, procedure_of, variable_of, node_of, constant_of, is_array, is_constant, is_counter, is_secret, is_statement, is_expression, is_lvalue};
ghost use Rattle.records.specs.Records.{as_header, as_procedure, as_variable, as_node};
ghost use Rattle.records.specs.Decode.{lvalue_by, lvalue_at, update_by, swap_by, conditional_swap_by, expression_by, decoded_by, decoded_at, argument_at};
ghost use Rattle.records.specs.LValues.{node_of_lvalue, root_of, index_of};

pub use bytes::{u8_at, u16_at, u64_at};
use bytes::{bytes_at, le16};
pub use fields::{Class, Fields, MISSING, classes_of};
pub use parts::{Parts, part, parts_of};
pub use refusal::{Refusal, Rule, Verdict, numbers};
pub use slices::{get_or, put};
pub use slot::{NO_SLOT, Slot};

// Header and parts are handed on side by side, as the rules take them: a clause that says `form_refusal (as_header h) (as_parts parts.now)`
// would say `form_refusal (as_header image.now.header) (as_parts image.now.parts)` of one struct. What a checked layout says of a header,
// `h.nodes ≤ 4096`, is asked where it is needed and is no invariant, since every image has a header.
#[derive(Clone, Copy)]
pub struct Header {
    pub format: u16,
    pub procedures: u16,
    pub variables: u16,
    pub nodes: u16,
    pub constants: u16,
    pub procedure_part: u16,
    pub variable_part: u16,
    pub node_part: u16,
    pub constant_part: u16,
    pub total: u16,
}

// The header of an image.
pub fn header_of(image: &[u8]) -> Header
    ensures { as_header result ≡ header_of image.now }
{
    let b: [u8; 20] = bytes_at(image, 0);
    Header {
        format: le16(b[0], b[1]),
        procedures: le16(b[2], b[3]),
        variables: le16(b[4], b[5]),
        nodes: le16(b[6], b[7]),
        constants: le16(b[8], b[9]),
        procedure_part: le16(b[10], b[11]),
        variable_part: le16(b[12], b[13]),
        node_part: le16(b[14], b[15]),
        constant_part: le16(b[16], b[17]),
        total: le16(b[18], b[19]),
    }
}

#[derive(Clone, Copy)]
pub struct Procedure {
    pub first: u16,
    pub count: u16,
    pub parameters: u16,
    pub body: u16,
}

impl Procedure {
    // Where its variables end.
    pub fn end(self) -> u32
        ensures { result ≡ self.first + self.count }
    {
        u32::from(self.first) + u32::from(self.count)
    }

    // Where its locals begin: "parameters come first".
    pub fn locals(self) -> u32
        ensures { result ≡ self.first + self.parameters }
    {
        u32::from(self.first) + u32::from(self.parameters)
    }
}

// The record of procedure p in the procedures' part.
pub fn procedure_at(part: &[u8], p: u16) -> Procedure
    ensures { as_procedure result ≡ procedure_of part.now p }
{
    let b: [u8; 8] = bytes_at(part, usize::from(p) * 8);
    Procedure {
        first: le16(b[0], b[1]),
        count: le16(b[2], b[3]),
        parameters: le16(b[4], b[5]),
        body: le16(b[6], b[7]),
    }
}

// Kind and secrecy are the bytes as they stand, and so is a node's kind: verdicts 4 and 5 are asked of every byte.
#[derive(Clone, Copy)]
pub struct Variable {
    pub kind: u8,
    pub secrecy: u8,
    pub size: u8,
    pub zero: u8,
    pub extra: u16,
}

// The record of variable x in the variables' part.
pub fn variable_at(part: &[u8], x: u16) -> Variable
    ensures { as_variable result ≡ variable_of part.now x }
{
    let b: [u8; 6] = bytes_at(part, usize::from(x) * 6);
    Variable {
        kind: b[0],
        secrecy: b[1],
        size: b[2],
        zero: b[3],
        extra: le16(b[4], b[5]),
    }
}

impl Variable {
    pub fn is_array(&self) -> bool
        ensures { result ≡ is_array (as_variable self.now) }
    {
        self.kind == 1
    }

    pub fn is_constant(&self) -> bool
        ensures { result ≡ is_constant (as_variable self.now) }
    {
        self.kind == 2
    }

    pub fn is_counter(&self) -> bool
        ensures { result ≡ is_counter (as_variable self.now) }
    {
        self.kind == 3
    }

    pub fn is_secret(&self) -> bool
        ensures { result ≡ is_secret (as_variable self.now) }
    {
        self.secrecy == 1
    }
}

// The value of constant k in the constants' part.
pub fn constant_at(part: &[u8], k: u16) -> u64
    ensures { result ≡ constant_of part.now k }
{
    u64_at(part, usize::from(k) * 8)
}

// A node's record, field by field.
#[derive(Clone, Copy)]
pub struct RawNode {
    pub kind: u8,
    pub operator: u8,
    pub a: u16,
    pub b: u16,
    pub c: u16,
    pub d: u16,
    pub next: u16,
}

impl RawNode {
    pub fn is_statement(&self) -> bool
        ensures { result ≡ is_statement self.now.kind }
    {
        matches!(self.kind, 1..=9)
    }

    pub fn is_expression(&self) -> bool
        ensures { result ≡ is_expression self.now.kind }
    {
        matches!(self.kind, 20..=26)
    }

    pub fn is_lvalue(&self) -> bool
        ensures { result ≡ is_lvalue self.now.kind }
    {
        matches!(self.kind, 21..=23)
    }
}

// The record of node n in the nodes' part.
pub fn record_at(nodes: &[u8], n: u16) -> RawNode
    ensures { as_node result ≡ node_of nodes.now n }
{
    let b: [u8; 12] = bytes_at(nodes, usize::from(n) * 12);
    RawNode {
        kind: b[0],
        operator: b[1],
        a: le16(b[2], b[3]),
        b: le16(b[4], b[5]),
        c: le16(b[6], b[7]),
        d: le16(b[8], b[9]),
        next: le16(b[10], b[11]),
    }
}

// "Kinds 21 to 23 are L-values": the node, the variable that it names, and the index's node.
#[derive(Clone, Copy)]
pub enum LValue {
    Variable { node: u16, variable: u16 },
    Element { node: u16, array: u16, index: u16 },
    Unsafe { node: u16, array: u16, index: u16 },
}

impl LValue {
    // The node of the L-value itself.
    pub fn node(self) -> u16
        ensures { result ≡ node_of_lvalue self }
    {
        match self {
            LValue::Variable { node, .. }
            | LValue::Element { node, .. }
            | LValue::Unsafe { node, .. } => node,
        }
    }

    // The variable that it names.
    pub fn root(self) -> u16
        ensures { result ≡ root_of self }
    {
        match self {
            LValue::Variable { variable, .. } => variable,
            LValue::Element { array, .. } | LValue::Unsafe { array, .. } => array,
        }
    }

    // The node of its index, if it is an element.
    pub fn index(self) -> Option<u16>
        ensures { result ≡ index_of self }
    {
        match self {
            LValue::Variable { .. } => None,
            LValue::Element { index, .. } | LValue::Unsafe { index, .. } => Some(index),
        }
    }
}

// A node is one of these cases, each with its own fields. An L-value is a value where an expression is
// asked for, and an argument, with what follows it, where a call's arguments are.
#[derive(Clone, Copy)]
pub enum Node {
    Empty,
    Update {
        target: LValue,
        value: u16,
        operator: u8,
    },
    Swap {
        left: LValue,
        right: LValue,
    },
    ConditionalSwap {
        left: LValue,
        right: LValue,
        condition: u16,
    },
    If {
        condition: u16,
        yes: u16,
        no: u16,
    },
    For {
        counter: u16,
        first: u16,
        second: u16,
        body: u16,
    },
    Call {
        procedure: u16,
        argument: u16,
    },
    Uncall {
        procedure: u16,
        argument: u16,
    },
    Block {
        first: u16,
        count: u16,
        statement: u16,
    },
    Constant {
        constant: u16,
    },
    Value {
        lvalue: LValue,
    },
    Size {
        variable: u16,
    },
    Binary {
        operator: u8,
        left: u16,
        right: u16,
    },
    Not {
        operand: u16,
    },
    Argument {
        target: LValue,
        next: u16,
    },
}

// The L-value that node n with the record r is, or that it is none.
fn lvalue_of(n: u16, r: RawNode) -> Option<LValue>
    ensures { result ≡ lvalue_by n (as_node r) }
{
    match r.kind {
        21 => Some(LValue::Variable {
            node: n,
            variable: r.a,
        }),
        22 => Some(LValue::Element {
            node: n,
            array: r.a,
            index: r.b,
        }),
        23 => Some(LValue::Unsafe {
            node: n,
            array: r.a,
            index: r.b,
        }),
        _ => None,
    }
}

// The L-value that node n is, or that it is none.
pub fn lvalue_at(nodes: &[u8], n: u16) -> Option<LValue>
    ensures { result ≡ lvalue_at nodes.now n }
{
    lvalue_of(n, record_at(nodes, n))
}

// The record r of node n as an update. Each of the three below tests its own targets by `let .. else`, the form that docs/FORMS.md names.
fn update_of(nodes: &[u8], n: u16, r: RawNode) -> Result<Node, Refusal>
    ensures { result ≡ update_by nodes.now n (as_node r) }
{
    let Some(target) = lvalue_at(nodes, r.a) else {
        return Err(Rule::NodeRecord.at(n));
    };
    Ok(Node::Update {
        target,
        value: r.b,
        operator: r.operator,
    })
}

// The record r of node n as a swap.
fn swap_of(nodes: &[u8], n: u16, r: RawNode) -> Result<Node, Refusal>
    ensures { result ≡ swap_by nodes.now n (as_node r) }
{
    let Some(left) = lvalue_at(nodes, r.a) else {
        return Err(Rule::NodeRecord.at(n));
    };
    let Some(right) = lvalue_at(nodes, r.b) else {
        return Err(Rule::NodeRecord.at(n));
    };
    Ok(Node::Swap { left, right })
}

// The record r of node n as a conditional swap.
fn conditional_swap_of(nodes: &[u8], n: u16, r: RawNode) -> Result<Node, Refusal>
    ensures { result ≡ conditional_swap_by nodes.now n (as_node r) }
{
    let Some(left) = lvalue_at(nodes, r.b) else {
        return Err(Rule::NodeRecord.at(n));
    };
    let Some(right) = lvalue_at(nodes, r.c) else {
        return Err(Rule::NodeRecord.at(n));
    };
    Ok(Node::ConditionalSwap {
        left,
        right,
        condition: r.a,
    })
}

// The record r of node n taken apart: its case, or the refusal with the place. Inlined, here and in `node_at`, so that the case does
// not go through memory (D23).
#[inline(always)]
fn taken_apart(nodes: &[u8], n: u16, r: RawNode) -> Result<Node, Refusal>
    ensures { result ≡ decoded_by nodes.now n (as_node r) }
{
    match r.kind {
        1 => Ok(Node::Empty),
        2 => update_of(nodes, n, r),
        3 => swap_of(nodes, n, r),
        4 => conditional_swap_of(nodes, n, r),
        5 => Ok(Node::If {
            condition: r.a,
            yes: r.b,
            no: r.c,
        }),
        6 => Ok(Node::For {
            counter: r.a,
            first: r.b,
            second: r.c,
            body: r.d,
        }),
        7 => Ok(Node::Call {
            procedure: r.a,
            argument: r.b,
        }),
        8 => Ok(Node::Uncall {
            procedure: r.a,
            argument: r.b,
        }),
        9 => Ok(Node::Block {
            first: r.a,
            count: r.b,
            statement: r.c,
        }),
        _ => expression_taken_apart(n, r),
    }
}

// The record r of node n, which is no statement, taken apart.
fn expression_taken_apart(n: u16, r: RawNode) -> Result<Node, Refusal>
    ensures { result ≡ expression_by n (as_node r) }
{
    match r.kind {
        20 => Ok(Node::Constant { constant: r.a }),
        24 => Ok(Node::Size { variable: r.a }),
        25 => Ok(Node::Binary {
            operator: r.operator,
            left: r.a,
            right: r.b,
        }),
        26 => Ok(Node::Not { operand: r.a }),
        _ => {
            let Some(lvalue) = lvalue_of(n, r) else {
                return Err(Rule::NodeRecord.at(n));
            };
            Ok(Node::Value { lvalue })
        }
    }
}

// Node n, which is an expression, as its case, or the refusal with the place.
pub fn expression_at(nodes: &[u8], n: u16) -> Result<Node, Refusal>
    requires { is_expression (node_of nodes.now n).kind ≡ true }
    ensures { result ≡ decoded_at nodes.now n }
{
    expression_taken_apart(n, record_at(nodes, n))
}

// Node n as its case, or the refusal with the place.
#[inline(always)]
pub fn node_at(nodes: &[u8], n: u16) -> Result<Node, Refusal>
    ensures { result ≡ decoded_at nodes.now n }
{
    taken_apart(nodes, n, record_at(nodes, n))
}

// Node n as an argument with the next one, or the refusal; node `by` refers to it. The argument case of docs/FORMS.md: the checker
// and the runner read an argument as an L-value, with what follows it.
pub fn argument_at(nodes: &[u8], by: u16, n: u16) -> Result<Node, Refusal>
    ensures { result ≡ argument_at nodes.now by n }
{
    let r = record_at(nodes, n);
    let Some(target) = lvalue_of(n, r) else {
        return Err(Rule::NodeRecord.at(by));
    };
    Ok(Node::Argument {
        target,
        next: r.next,
    })
}

// What follows node n in its chain.
pub fn next_at(nodes: &[u8], n: u16) -> u16
    ensures { result ≡ (node_of nodes.now n).next }
{
    u16_at(nodes, usize::from(n) * 12 + 10)
}
