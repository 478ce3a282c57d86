// Expressions and L-values: what is worked out from the memory, with the trace's events.
ghost use Rattle.std.specs.Prelude.{◌≡◌, ℕ, ◌<◌, List, [], cond};
ghost use Rattle.rules.specs.Words.{binary_of};
ghost use Rattle.rules.specs.Image.{Header, Parts, is_expression, variable_of, constant_of, is_constant};
ghost use Rattle.rules.specs.Tree.{constant, variable, reading_at};
ghost use Rattle.rules.specs.Machine.{inside, divided, eval, address};
ghost use Rattle.records.specs.Cases.{place_of};
ghost use Rattle.expressions.specs.Relations.{slot_of, Readable, Indexed, Gets};
ghost use Rattle.expressions.specs.Standing.{valued, Finds, SameSteps, ProgramOf};

use crate::{Memory, Reading, Trace};
use records::{LValue, Node, Refusal, Rule};

// The operator of that number on two values, or 25 at the operator's node n. Inlined, as `named` is: `value`, which recurses, would call
// them (D23).
#[inline(always)]
#[tactic(auto, using(crate::proofs::Laws::divided_found, crate::proofs::Laws::passed))]
fn combined(n: u16, operator: u8, v: u64, w: u64) -> Result<u64, Refusal>
    ensures { (trace : List ℕ) (entries : ℕ) → Gets (divided n (binary_of operator) v w) trace entries trace (valued result entries) }
{
    Rule::ZeroDivisor.given(n, words::zero_divisor(operator, w))?;
    Ok(words::binary(operator, v, w))
}

impl Reading<'_, '_, '_, '_> {
    // A variable's value: its number where it is a constant, else what its cell has.
    #[inline(always)]
    fn named(&self, trace: &mut Trace<'_>, x: u16) -> u64
        ensures finds { (n : ℕ) → Finds (eval (slot_of self.now.slots.now) self.now.cells.now
            (cond (is_constant (variable_of self.now.parts.now.variables.now x))
            (constant n x (constant_of self.now.parts.now.constants.now (variable_of self.now.parts.now.variables.now x).extra)) (variable n x)))
            trace.old (Ok result) trace.new }
        ensures same { SameSteps trace.old trace.new }
    {
        let record = records::variable_at(self.parts.variables, x);
        if record.is_constant() {
            return records::constant_at(self.parts.constants, record.extra);
        }
        self.loaded(trace, self.base_of(x))
    }

    // The cell of array x at this index, or 24 at the element's node n.
    #[tactic(auto, using(crate::proofs::Laws::inside_found, crate::proofs::Laws::passed))]
    fn indexed(&self, n: u16, x: u16, index: u64) -> Result<u64, Refusal>
        ensures below { (valued result 0).value < 131072 }
        ensures finds { (trace : List ℕ) (entries : ℕ) → Gets (inside n (slot_of self.now.slots.now x) index) trace entries trace (valued result entries) }
    {
        Rule::Index.given(n, self.count_of(x) <= index)?;
        Ok(self.base_of(x) + index)
    }

    // The value of the expression at node n. `Readable`, as `Indexed` below, is of a number and of the nodes lent beside it: as an invariant of
    // a type that has both it would have to be shown wherever a number is read out of a record, and each clause would name the two fields.
    pub fn value(&self, trace: &mut Trace<'_>, n: u16) -> Result<u64, Refusal>
        requires { Readable is_expression self.now.parts.now.nodes.now n }
        ensures finds { (h : Header) (s : Parts) → ProgramOf h s self.now.parts.now
            → Finds (eval (slot_of self.now.slots.now) self.now.cells.now (reading_at h s n).as_expr) trace.old result trace.new }
        ensures same { SameSteps trace.old trace.new }
    {
        match records::expression_at(self.parts.nodes, n)? {
            Node::Constant { constant } => {
                Ok(records::constant_at(self.parts.constants, constant))
            }
            Node::Value { lvalue } => match lvalue {
                LValue::Variable { variable, .. } => Ok(self.named(trace, variable)),
                LValue::Element { node, array, index } | LValue::Unsafe { node, array, index } => {
                    let at = self.value(trace, index)?;
                    let i = self.indexed(node, array, at)?;
                    Ok(self.loaded(trace, i))
                }
            },
            Node::Size { variable } => Ok(self.count_of(variable)),
            Node::Binary {
                operator,
                left,
                right,
            } => {
                let v = self.value(trace, left)?;
                let w = self.value(trace, right)?;
                combined(n, operator, v, w)
            }
            Node::Not { operand } => {
                let v = self.value(trace, operand)?;
                Ok(words::complement(v))
            }
            _ => Err(Rule::NodeRecord.at(n)),
        }
    }

    // The cell of an L-value, below 131,072. As in `value`, an index and then its cell: these two lines as a function of their own would be
    // one more member of `value`'s cycle.
    pub fn address(&self, trace: &mut Trace<'_>, target: LValue) -> Result<u64, Refusal>
        requires { Indexed self.now.parts.now.nodes.now target }
        ensures below { (valued result 0).value < 131072 }
        ensures finds { (h : Header) (s : Parts) → ProgramOf h s self.now.parts.now
            → Finds (address (slot_of self.now.slots.now) self.now.cells.now (place_of h s target)) trace.old result trace.new }
        ensures same { SameSteps trace.old trace.new }
    {
        match target {
            LValue::Variable { variable, .. } => Ok(self.base_of(variable)),
            LValue::Element { node, array, index } | LValue::Unsafe { node, array, index } => {
                let at = self.value(trace, index)?;
                self.indexed(node, array, at)
            }
        }
    }
}

impl Memory<'_, '_, '_, '_> {
    // The value of the expression at node n.
    pub fn value(&self, trace: &mut Trace<'_>, n: u16) -> Result<u64, Refusal>
        requires { Readable is_expression self.now.parts.now.nodes.now n }
        ensures finds { (h : Header) (s : Parts) → ProgramOf h s self.now.parts.now
            → Finds (eval (slot_of self.now.slots.now) self.now.cells.now (reading_at h s n).as_expr) trace.old result trace.new }
        ensures same { SameSteps trace.old trace.new }
    {
        self.reading().value(trace, n)
    }

    // The cell of an L-value, below 131,072.
    pub fn address(&self, trace: &mut Trace<'_>, target: LValue) -> Result<u64, Refusal>
        requires { Indexed self.now.parts.now.nodes.now target }
        ensures below { (valued result 0).value < 131072 }
        ensures finds { (h : Header) (s : Parts) → ProgramOf h s self.now.parts.now
            → Finds (address (slot_of self.now.slots.now) self.now.cells.now (place_of h s target)) trace.old result trace.new }
        ensures same { SameSteps trace.old trace.new }
    {
        self.reading().address(trace, target)
    }
}
