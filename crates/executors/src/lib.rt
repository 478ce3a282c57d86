// The cycle of executors: statement, list of statements, loop and called body, by node number, in both directions.
// A statement begins outside the cycle: its step, its operands and its own cells. What is left of it is one of a set of cases.
// Memory and trace are handed on side by side: a leaf borrows either of them alone.
// Direction is a `bool`: the clauses of `statement`, of `update` and of the runner speak of `direction_of inverse`.
// `Statement` and `Bodies` are of a node's or a procedure's number and of the parts lent beside it: as an invariant of a type that has both,
// either would have to be shown wherever a number is read out of a record, and each clause would name the type's fields.
// `KeepsSlots`, `SameMemory` and `SameRun` say of a lent struct, before and after, what a call leaves as it was: an invariant knows one moment.
#![tactic(auto)]

ghost use Rattle.std.specs.Prelude.{◌≡◌, ℕ, ◌<◌};
ghost use Rattle.rules.specs.Image.{is_expression};
ghost use Rattle.expressions.specs.Relations.{Readable, Chained, direction_of};
ghost use Rattle.expressions.specs.Standing.{KeepsSlots, SameMemory, SameRun};
ghost use Rattle.executors.specs.World.{Opened, Statement, Chain, Bodies};
ghost use Rattle.executors.specs.Ways.{Sound, stmt_at, stmts_at};
ghost use Rattle.executors.specs.Promises.{Decides, Bounds, Performs, Begins, Executes, Turns, Calls};

use expressions::{Memory, Trace};
use records::{Node, Refusal, Rule, Verdict};

// A for whose bounds are known: its node, its counter's cell, both bounds in the order of the direction, its body.
#[derive(Clone, Copy)]
pub struct Counting {
    pub node: u16,
    pub cell: u64,
    pub first: u64,
    pub second: u64,
    pub body: u16,
}

// What is left to do of a statement whose step is taken, whose operands are worked out and whose own cells are changed.
#[derive(Clone, Copy)]
pub enum Rest {
    Finished,
    Branch(u16),
    Turns(Counting),
    Call {
        inverse: bool,
        procedure: u16,
        argument: u16,
    },
    Block {
        first: u16,
        count: u16,
        statement: u16,
    },
}

// An if: the branch that its condition chooses.
fn decided(
    memory: &Memory<'_, '_, '_, '_>,
    trace: &mut Trace<'_>,
    condition: u16,
    chosen: u16,
    otherwise: u16,
) -> Result<Rest, Refusal>
    requires { Readable is_expression memory.now.parts.now.nodes.now condition }
    ensures by_index { (n : ℕ) → Statement memory.now.parts.now.nodes.now chosen × (n < chosen) → Statement memory.now.parts.now.nodes.now otherwise × (n < otherwise)
        → Sound memory.now.parts.now.nodes.now n result }
    ensures decides { Decides memory.now trace.old condition chosen otherwise result trace.new }
    ensures same { SameRun trace.old trace.new }
{
    let v = memory.value(trace, condition)?;
    if v == 0 {
        return Ok(Rest::Branch(otherwise));
    }
    Ok(Rest::Branch(chosen))
}

// A for: both bounds, worked out in this order.
fn bounded(
    memory: &Memory<'_, '_, '_, '_>,
    trace: &mut Trace<'_>,
    n: u16,
    counter: u16,
    first: u16,
    second: u16,
    body: u16,
) -> Result<Rest, Refusal>
    requires { Readable is_expression memory.now.parts.now.nodes.now first × Readable is_expression memory.now.parts.now.nodes.now second }
    ensures sound { Statement memory.now.parts.now.nodes.now body × (n < body) → Sound memory.now.parts.now.nodes.now n result }
    ensures bounds { Bounds memory.now trace.old n counter first second body result trace.new }
    ensures same { SameRun trace.old trace.new }
{
    let v = memory.value(trace, first)?;
    let w = memory.value(trace, second)?;
    Ok(Rest::Turns(Counting {
        node: n,
        cell: memory.base_of(counter),
        first: v,
        second: w,
        body,
    }))
}

// The statement at node n, taken apart, once its step is taken.
fn performed(
    memory: &mut Memory<'_, '_, '_, '_>,
    trace: &mut Trace<'_>,
    inverse: bool,
    n: u16,
    node: Node,
) -> Result<Rest, Refusal>
    requires { Opened memory.old.parts.now.nodes.now n node }
    ensures sound { Sound memory.old.parts.now.nodes.now n result }
    ensures performs { Performs memory.old trace.old (direction_of inverse) n node memory.new.cells.now result trace.new }
    ensures keeps { KeepsSlots memory.old memory.new }
    ensures same { SameRun trace.old trace.new }
{
    match node {
        Node::Empty => Ok(Rest::Finished),
        Node::Update {
            operator,
            target,
            value,
        } => {
            memory.update(trace, inverse, operator, target, value)?;
            Ok(Rest::Finished)
        }
        Node::Swap { left, right } => {
            memory.swap(trace, 1, left, right)?;
            Ok(Rest::Finished)
        }
        Node::ConditionalSwap {
            condition,
            left,
            right,
        } => {
            memory.conditional_swap(trace, condition, left, right)?;
            Ok(Rest::Finished)
        }
        Node::If { condition, yes, no } => decided(memory, trace, condition, yes, no),
        Node::For {
            counter,
            first,
            second,
            body,
        } => {
            if inverse {
                return bounded(memory, trace, n, counter, second, first, body);
            }
            bounded(memory, trace, n, counter, first, second, body)
        }
        Node::Call {
            procedure,
            argument,
        } => Ok(Rest::Call {
            inverse,
            procedure,
            argument,
        }),
        Node::Uncall {
            procedure,
            argument,
        } => Ok(Rest::Call {
            inverse: !inverse,
            procedure,
            argument,
        }),
        Node::Block {
            first,
            count,
            statement,
        } => Ok(Rest::Block {
            first,
            count,
            statement,
        }),
        _ => Err(Rule::NodeRecord.at(n)),
    }
}

// The statement at node n: its step, its operands, its own cells.
fn begun(
    memory: &mut Memory<'_, '_, '_, '_>,
    trace: &mut Trace<'_>,
    inverse: bool,
    n: u16,
) -> Result<Rest, Refusal>
    requires { Statement memory.old.parts.now.nodes.now n }
    ensures sound { Sound memory.old.parts.now.nodes.now n result }
    ensures begins { Begins memory.old trace.old (direction_of inverse) n memory.new.cells.now result trace.new }
    ensures keeps { KeepsSlots memory.old memory.new }
    ensures same { SameRun trace.old trace.new }
{
    trace.step(n)?;
    let node = records::node_at(memory.parts.nodes, n)?;
    performed(memory, trace, inverse, n, node)
}

// The statement at node n of procedure p.
#[cycle(called_statement_statements_turns)]
pub fn statement(
    memory: &mut Memory<'_, '_, '_, '_>,
    trace: &mut Trace<'_>,
    inverse: bool,
    p: u16,
    n: u16,
) -> Verdict
    requires { Statement memory.old.parts.now.nodes.now n × Bodies memory.old.parts.now.nodes.now memory.old.parts.now.procedures.now p }
    ensures executes { Executes memory.old trace.old p (direction_of inverse) memory.new result trace.new (λ w. stmt_at w n) }
    ensures keeps { SameMemory memory.old memory.new }
    ensures same { SameRun trace.old trace.new }
{
    match begun(memory, trace, inverse, n)? {
        Rest::Finished => Ok(()),
        Rest::Branch(m) => statement(memory, trace, inverse, p, m),
        Rest::Turns(it) => turns(memory, trace, inverse, p, it),
        Rest::Call {
            inverse: turned,
            procedure,
            argument,
        } => called(memory, trace, turned, p, procedure, argument),
        Rest::Block {
            first,
            count,
            statement: m,
        } => {
            statements(memory, trace, inverse, p, m)?;
            memory.block_end(first, count, n)
        }
    }
}

// The statements from node n on, which may be missing: in order, or inverse, the last one first.
#[cycle(called_statement_statements_turns)]
fn statements(
    memory: &mut Memory<'_, '_, '_, '_>,
    trace: &mut Trace<'_>,
    inverse: bool,
    p: u16,
    n: u16,
) -> Verdict
    requires { Chain memory.old.parts.now.nodes.now n × Bodies memory.old.parts.now.nodes.now memory.old.parts.now.procedures.now p }
    ensures executes { Executes memory.old trace.old p (direction_of inverse) memory.new result trace.new (λ w. stmts_at w n) }
    ensures keeps { SameMemory memory.old memory.new }
    ensures same { SameRun trace.old trace.new }
{
    if n == records::MISSING {
        return Ok(());
    }
    let nodes = memory.parts.nodes;
    if inverse {
        statements(memory, trace, inverse, p, records::next_at(nodes, n))?;
        return statement(memory, trace, inverse, p, n);
    }
    // The chain is followed from node to node: nothing is counted, and an iterator over it would promise the whole chain.
    let mut at = n;
    while at != records::MISSING {
        statement(memory, trace, inverse, p, at)?;
        at = records::next_at(nodes, at);
    }
    Ok(())
}

// The turns of a for whose bounds are known: while the counter, which the body may change, differs from the second.
#[cycle(called_statement_statements_turns)]
fn turns(
    memory: &mut Memory<'_, '_, '_, '_>,
    trace: &mut Trace<'_>,
    inverse: bool,
    p: u16,
    it: Counting,
) -> Verdict
    requires { Statement memory.old.parts.now.nodes.now it.body × (it.node < it.body) × Bodies memory.old.parts.now.nodes.now memory.old.parts.now.procedures.now p }
    ensures executes { Turns memory.old trace.old p (direction_of inverse) memory.new result trace.new it }
    ensures keeps { SameMemory memory.old memory.new }
    ensures same { SameRun trace.old trace.new }
{
    memory.put(it.cell, it.first);
    while memory.cell(it.cell) != it.second {
        trace.step(it.node)?;
        statement(memory, trace, inverse, p, it.body)?;
        if memory.cell(it.cell) == it.first {
            return Err(Rule::LoopBack.at(it.node));
        }
    }
    memory.put(it.cell, 0);
    Ok(())
}

// The body of procedure q, which is below p, with what the arguments from this node on lend.
#[cycle(called_statement_statements_turns)]
fn called(
    memory: &mut Memory<'_, '_, '_, '_>,
    trace: &mut Trace<'_>,
    inverse: bool,
    p: u16,
    q: u16,
    argument: u16,
) -> Verdict
    requires { Chained memory.old.parts.now.nodes.now argument × Bodies memory.old.parts.now.nodes.now memory.old.parts.now.procedures.now p }
    ensures executes { Calls memory.old trace.old p (direction_of inverse) memory.new result trace.new q argument }
    ensures keeps { SameMemory memory.old memory.new }
    ensures same { SameRun trace.old trace.new }
{
    if p <= q {
        return Err(Rule::Mismatch.at(argument));
    }
    let callee = records::procedure_at(memory.parts.procedures, q);
    memory.arguments(trace, usize::from(callee.first), argument)?;
    statement(memory, trace, inverse, q, callee.body)
}
