// "one small reader keeps the image and its four offsets together": its methods read a record each,
// and plain functions above it are for callers that hold nothing but an image.
#![tactic(auto)]

ghost use Rattle.std.specs.Prelude.{◌≡◌};
ghost use Rattle.rules.specs.Image.{parts_of, procedure_of, variable_of, node_of, constant_of};
ghost use Rattle.records.specs.Records.{as_procedure, as_variable, as_node};
ghost use Rattle.records.specs.Parts.{as_parts};
ghost use Rattle.reader.specs.Blame.{as_blame, blame_of};
ghost use Rattle.reader.specs.Parts.{offsets_of, parts_by};

use records::{Parts, Procedure, RawNode, Variable, part};

// "offsets of these four parts in that order". They are kept, and not the parts, since "the reader keeps the image and its four offsets together".
#[derive(Clone, Copy)]
pub struct Offsets {
    pub procedures: u16,
    pub variables: u16,
    pub nodes: u16,
    pub constants: u16,
}

// The offsets that an image's header has.
fn offsets_of(image: &[u8]) -> Offsets
    ensures { result ≡ offsets_of image.now }
{
    let h = records::header_of(image);
    Offsets {
        procedures: h.procedure_part,
        variables: h.variable_part,
        nodes: h.node_part,
        constants: h.constant_part,
    }
}

// An image and the offsets of its four parts.
#[derive(Clone, Copy)]
pub struct Reader<'a> {
    pub image: &'a [u8],
    pub offsets: Offsets,
}

impl<'a> Reader<'a> {
    // The reader over an image, with the offsets that its header has.
    pub fn over(image: &'a [u8]) -> Reader<'a>
        ensures { (result.image ≡ image.entry) × (result.offsets ≡ offsets_of image.now) }
    {
        Reader {
            image,
            offsets: offsets_of(image),
        }
    }

    // The four parts, each from its offset to the next one's, and the last to the total. By the held offsets, which need not be those of the
    // image, as the clauses say (`parts_by`); `records::parts_of` goes by the image's own.
    fn parts(self) -> Parts<'a>
        ensures { as_parts result ≡ parts_by self.entry.image.now self.entry.offsets }
    {
        let o = self.offsets;
        let h = records::header_of(self.image);
        Parts {
            procedures: part(self.image, o.procedures, o.variables),
            variables: part(self.image, o.variables, o.nodes),
            nodes: part(self.image, o.nodes, o.constants),
            constants: part(self.image, o.constants, h.total),
        }
    }

    // The record of procedure p.
    pub fn procedure(self, p: u16) -> Procedure
        ensures { as_procedure result ≡ procedure_of (parts_by self.entry.image.now self.entry.offsets).procedures p }
    {
        records::procedure_at(self.parts().procedures, p)
    }

    // The record of variable x.
    pub fn variable(self, x: u16) -> Variable
        ensures { as_variable result ≡ variable_of (parts_by self.entry.image.now self.entry.offsets).variables x }
    {
        records::variable_at(self.parts().variables, x)
    }

    // The record of node n.
    pub fn node(self, n: u16) -> RawNode
        ensures { as_node result ≡ node_of (parts_by self.entry.image.now self.entry.offsets).nodes n }
    {
        records::record_at(self.parts().nodes, n)
    }

    // Constant k.
    pub fn constant(self, k: u16) -> u64
        ensures { result ≡ constant_of (parts_by self.entry.image.now self.entry.offsets).constants k }
    {
        records::constant_at(self.parts().constants, k)
    }
}

// What the rules read in an image, for callers that hold the image and a number: the reader does not leave these functions.
pub fn procedure_of(image: &[u8], p: u16) -> Procedure
    ensures { as_procedure result ≡ procedure_of (parts_of image.now).procedures p }
{
    Reader::over(image).procedure(p)
}

pub fn variable_of(image: &[u8], x: u16) -> Variable
    ensures { as_variable result ≡ variable_of (parts_of image.now).variables x }
{
    Reader::over(image).variable(x)
}

pub fn node_of(image: &[u8], n: u16) -> RawNode
    ensures { as_node result ≡ node_of (parts_of image.now).nodes n }
{
    Reader::over(image).node(n)
}

// The record to look at after a refusal.
#[derive(Clone, Copy)]
pub enum Blamed {
    Procedure(Procedure),
    Variable(Variable),
    Node(RawNode),
}

// The record that the number and place of an answer blame: what a trainee is shown, who has the two numbers alone.
pub fn blame(image: &[u8], number: u16, place: u16) -> Option<Blamed>
    ensures { as_blame result ≡ blame_of image.now number place }
{
    match number {
        3 => Some(Blamed::Procedure(procedure_of(image, place))),
        4 | 8 => Some(Blamed::Variable(variable_of(image, place))),
        5..=13 | 23..=28 => Some(Blamed::Node(node_of(image, place))),
        _ => None,
    }
}
