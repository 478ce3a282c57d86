// Verdicts 1 to 6: the layout, the records, the table of fields, the tree.
// The header and the part that is asked are handed over side by side: as fields of a struct each would stand in the clauses behind
// `self.now`, and no clause would be shorter.
#![tactic(auto)]

ghost use Rattle.std.specs.Prelude.{◌≡◌, Some, None, not, cond, ◌&&◌, ◌+◌, ◌-◌, ◌*◌, ◌≤◌, eqb, leb, ltb, unwrap_or};
ghost use Rattle.rules.specs.Image.{header_of, parts_of, procedure_of, node_of};
ghost use Rattle.rules.specs.Form.{◌then◌, given, format_refusal, counts_fit, parts_follow, layout_refusal, procedure_fits, owner, is_parameter, extra_fits, size_fits, variable_fits, field_fits, operator_fits, record_fits};
ghost use Rattle.rules.specs.Check.{form_refusal};
ghost use Rattle.records.specs.Records.{as_header, as_procedure, as_variable, as_node};
ghost use Rattle.records.specs.Parts.{as_parts};
ghost use Rattle.records.specs.Fields.{class_number};
ghost use Rattle.records.specs.Refusals.{as_verdict};
ghost use Rattle.tree.specs.Search.{found};
ghost use Rattle.form.specs.Tests.{referred, procedure_fits_by, variable_fits_at, range_fits, record_fits_at};

use records::{Class, Header, Parts, Procedure, RawNode, Rule, Variable, Verdict};

// 1: "under 20 or over 65,535 bytes, or format not 1".
#[tactic(auto, unfolding(rules::specs::Form::format_refusal))]
fn format(image: &[u8]) -> Verdict
    ensures { as_verdict result ≡ format_refusal image.now }
{
    let bytes = image.len();
    let other = records::u16_at(image, 0) != 1;
    Rule::Format.given(0, bytes < 20 || 65535 < bytes || other)
}

// Whether each count is in its range.
#[tactic(auto, unfolding(rules::specs::Form::counts_fit))]
fn counts_fit(h: Header) -> bool
    ensures { result ≡ counts_fit (as_header h) }
{
    matches!(h.procedures, 1..=32)
        && h.variables <= 1024
        && matches!(h.nodes, 1..=4096)
        && h.constants <= 512
}

// Whether a part of so many records of this size, from there on, ends at `end`.
fn ends_at(end: u16, from: u16, count: u16, size: usize) -> bool
    requires { size ≤ 12 }
    ensures { result ≡ eqb end (from + count * size) }
{
    usize::from(end) == usize::from(from) + usize::from(count) * size
}

// "Parts follow the header and each other without gaps; the total is the slice's length."
#[tactic(auto, unfolding(rules::specs::Form::parts_follow))]
fn parts_follow(h: Header, bytes: usize) -> bool
    ensures { result ≡ parts_follow (as_header h) bytes }
{
    h.procedure_part == 20
        && ends_at(h.variable_part, h.procedure_part, h.procedures, 8)
        && ends_at(h.node_part, h.variable_part, h.variables, 6)
        && ends_at(h.constant_part, h.node_part, h.nodes, 12)
        && ends_at(h.total, h.constant_part, h.constants, 8)
        && usize::from(h.total) == bytes
}

// 2: "a count, offset or total breaks the layout".
fn layout(h: Header, bytes: usize) -> Verdict
    ensures { as_verdict result ≡ given 2 0 (not (counts_fit (as_header h) && parts_follow (as_header h) bytes)) }
{
    Rule::Layout.given(0, !(counts_fit(h) && parts_follow(h, bytes)))
}

// Whether the record r of procedure p fits, where so many variables are shared out before it.
#[tactic(auto, unfolding(crate::specs::Tests::procedure_fits_by))]
fn procedure_fits(h: Header, p: u16, shared: u32, r: Procedure) -> bool
    ensures { result ≡ procedure_fits_by (as_header h) p shared (as_procedure r) }
{
    let variables = u32::from(h.variables);
    u32::from(r.first) == shared
        && r.end() <= variables
        && r.parameters <= 16
        && r.parameters <= r.count
        && r.body < h.nodes
        && (u32::from(p) + 1 < u32::from(h.procedures) || r.end() == variables)
}

// The first procedure whose record does not fit. A loop, and no search, since each record says where the next one begins.
fn first_bad_procedure(h: Header, procedures: &[u8]) -> Option<u16>
    ensures { result ≡ found (procedure_fits (as_header h) procedures.now) 0 h.procedures }
{
    let mut shared = 0;
    for p in 0..h.procedures {
        let r = records::procedure_at(procedures, p);
        if !procedure_fits(h, p, shared, r) {
            return Some(p);
        }
        shared = r.end();
    }
    None
}

// The lowest procedure from `from` on whose variables end behind x.
pub fn owner_from(procedures: &[u8], from: u16, count: u16, x: u16) -> Option<u16>
    requires { from ≤ count }
    ensures { result ≡ found (λ p. leb ((procedure_of procedures.now p).first + (procedure_of procedures.now p).count) x) from (count - from) }
{
    (from..count).find(|&p| u32::from(x) < records::procedure_at(procedures, p).end())
}

// Whose variable x is: the lowest procedure whose range ends behind it.
pub fn owner(h: Header, procedures: &[u8], x: u16) -> Option<u16>
    ensures owner { unwrap_or result h.procedures ≡ owner (as_header h) procedures.now x }
    ensures lowest { result ≡ found (λ p. leb ((procedure_of procedures.now p).first + (procedure_of procedures.now p).count) x) 0 h.procedures }
{
    owner_from(procedures, 0, h.procedures, x)
}

// "parameters come first"; of a variable that no procedure has, the record behind the last is asked.
#[tactic(auto, unfolding(rules::specs::Form::is_parameter))]
pub fn is_parameter(h: Header, procedures: &[u8], x: u16) -> bool
    ensures { result ≡ is_parameter (as_header h) procedures.now x }
{
    let p = owner(h, procedures, x).unwrap_or(h.procedures);
    u32::from(x) < records::procedure_at(procedures, p).locals()
}

// "Extra is a local array's length, 1 to 4,096; a constant's number, below K; else 0, array parameters included."
#[tactic(auto, unfolding(rules::specs::Form::extra_fits))]
fn extra_fits(h: Header, parameter: bool, v: Variable) -> bool
    ensures { result ≡ extra_fits (as_header h) parameter (as_variable v) }
{
    if v.is_array() && !parameter {
        matches!(v.extra, 1..=4096)
    } else if v.is_constant() {
        v.extra < h.constants
    } else {
        v.extra == 0
    }
}

#[tactic(auto, unfolding(rules::specs::Form::size_fits))]
fn size_fits(z: u8) -> bool
    ensures { result ≡ size_fits z }
{
    matches!(z, 8 | 16 | 32 | 64)
}

// "Constants and counters are public, 64. Parameters are kind 0 or 1."
// Kind and secrecy are tested as the bytes they are and not as cases, since verdict 4 is asked of every byte.
#[tactic(auto, unfolding(rules::specs::Form::variable_fits))]
fn variable_fits(h: Header, parameter: bool, v: Variable) -> bool
    ensures { result ≡ variable_fits (as_header h) parameter (as_variable v) }
{
    v.kind <= 3
        && v.secrecy <= 1
        && size_fits(v.size)
        && v.zero == 0
        && extra_fits(h, parameter, v)
        && (v.kind <= 1 || (v.secrecy == 0 && v.size == 64))
        && (!parameter || v.kind <= 1)
}

// The first variable whose record does not fit.
fn first_bad_variable(h: Header, procedures: &[u8], variables: &[u8]) -> Option<u16>
    ensures { result ≡ found (variable_fits_at (as_header h) procedures.now variables.now) 0 h.variables }
{
    (0..h.variables).find(|&x| {
        !variable_fits(
            h,
            is_parameter(h, procedures, x),
            records::variable_at(variables, x),
        )
    })
}

// The record of a node, and what it is tested against.
#[derive(Clone, Copy)]
struct Entry<'a> {
    header: Header,
    nodes: &'a [u8],
    node: u16,
    fields: RawNode,
}

impl<'a> Entry<'a> {
    // "References, next too, go to a larger node number": the kind of the node that v refers to.
    fn referred(&self, v: u16) -> Option<u8>
        ensures { result ≡ referred (as_header self.now.header) self.now.nodes.now self.now.node v }
    {
        if self.node < v && v < self.header.nodes {
            Some(records::u8_at(self.nodes, usize::from(v) * 12))
        } else {
            None
        }
    }

    // Whether v can stand in a field of this class. Inlined, since a check asks five times for each node (D23).
    // Of the node that v refers to the kind alone is read, and its ranges are patterns here: `is_expression` and its kin ask a whole record.
    #[inline(always)]
    #[tactic(auto, unfolding(rules::specs::Form::field_fits, rules::specs::Form::refers))]
    fn field_fits(&self, class: Class, v: u16) -> bool
        ensures { result ≡ field_fits (as_header self.now.header) self.now.nodes.now self.now.node self.now.fields.b (class_number class) v }
    {
        match class {
            Class::Unused => v == 0,
            Class::Expression => matches!(self.referred(v), Some(20..=26)),
            Class::LValue => matches!(self.referred(v), Some(21..=23)),
            Class::Statement => matches!(self.referred(v), Some(1..=9)),
            Class::FirstArgument | Class::NextLValue => v == records::MISSING
                || matches!(self.referred(v), Some(21..=23)),
            Class::FirstStatement | Class::NextStatement => v == records::MISSING
                || matches!(self.referred(v), Some(1..=9)),
            Class::Procedure => v < self.header.procedures,
            Class::Variable => v < self.header.variables,
            Class::Constant => v < self.header.constants,
            Class::FirstDeclared => range_fits(self.header, v, self.fields.b),
            Class::HowMany => true,
            Class::NoNext => v == records::MISSING,
        }
    }

    // Whether the record fits, field by field as the table says.
    #[tactic(auto, unfolding(rules::specs::Form::record_fits))]
    fn fits(&self) -> bool
        ensures { result ≡ record_fits (as_header self.now.header) self.now.nodes.now self.now.node (as_node self.now.fields) }
    {
        let r = self.fields;
        let classes = records::classes_of(r.kind);
        (r.is_statement() || r.is_expression())
            && operator_fits(classes.operators, r.operator)
            && self.field_fits(classes.a, r.a)
            && self.field_fits(classes.b, r.b)
            && self.field_fits(classes.c, r.c)
            && self.field_fits(classes.d, r.d)
            && self.field_fits(classes.next, r.next)
    }
}

// Whether a block's range fits: none at 0, or inside the variables.
fn range_fits(h: Header, first: u16, count: u16) -> bool
    ensures { result ≡ range_fits (as_header h) first count }
{
    if count == 0 {
        first == 0
    } else {
        u32::from(first) + u32::from(count) <= u32::from(h.variables)
    }
}

// The operator is one of 1 to how many the kind has, or 0 where it has none.
#[tactic(auto, unfolding(rules::specs::Form::operator_fits))]
fn operator_fits(operators: u8, o: u8) -> bool
    ensures { result ≡ operator_fits operators o }
{
    if operators == 0 {
        o == 0
    } else {
        (1..=operators).contains(&o)
    }
}

// The first node whose record does not fit.
fn first_bad_node(h: Header, nodes: &[u8]) -> Option<u16>
    ensures { result ≡ found (record_fits_at (as_header h) nodes.now) 0 h.nodes }
{
    (0..h.nodes).find(|&n| {
        let entry = Entry {
            header: h,
            nodes,
            node: n,
            fields: records::record_at(nodes, n),
        };
        !entry.fits()
    })
}

// 3 to 6, "tested in that order, lowest place first".
fn parts_form(h: Header, parts: &Parts) -> Verdict
    requires { h.nodes ≤ 4096 }
    ensures { as_verdict result ≡ form_refusal (as_header h) (as_parts parts.now) }
{
    tree::lowest(
        Rule::ProcedureRecord,
        first_bad_procedure(h, parts.procedures),
    )?;
    tree::lowest(
        Rule::VariableRecord,
        first_bad_variable(h, parts.procedures, parts.variables),
    )?;
    tree::lowest(Rule::NodeRecord, first_bad_node(h, parts.nodes))?;
    tree::tree(h, parts)
}

// The verdict of an image, 1 to 6.
pub fn form(image: &[u8]) -> Verdict
    ensures { as_verdict result ≡ (format_refusal image.now then layout_refusal image.now then form_refusal (header_of image.now) (parts_of image.now)) }
{
    format(image)?;
    let h = records::header_of(image);
    layout(h, image.len())?;
    parts_form(h, &records::parts_of(image))
}
