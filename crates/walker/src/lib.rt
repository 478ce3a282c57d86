// Verdicts 7 and 9 to 13: the walk of a procedure.
// A test that is handed on joins its parts by `&` and `|`: by `&&` and `||` a proof has the branches, and no equation of the joined value.
// That a node is `Walkable` stands in each clause, as `Known` does in names, for the same reason.
#![tactic(auto)]

mod calls;
mod expressions;
mod nested;
mod targets;

ghost use Rattle.std.specs.Prelude.{◌≡◌, Ok};
ghost use Rattle.names.specs.Sound.{AsStatement, AsStatements};
ghost use Rattle.walker.specs.Judge.{nodes_of};
ghost use Rattle.walker.specs.Nested.{Walked, Walkable, WalkableChain};
ghost use Rattle.records.specs.Decode.{decoded_at};
ghost use Rattle.records.specs.declared.Node.TheVariants.{If, For, Block};

use names::Names;
use records::{Node, Parts, Rule, Verdict};

// The walk of one procedure of an image.
#[derive(Clone, Copy)]
pub struct Walk<'a> {
    pub parts: Parts<'a>,
    pub procedure: u16,
}

impl<'a> Walk<'a> {
    // The statement at node n. Takes the names that it declares in. Scope and taken names go side by side, here and below: a for and a
    // block hand on a larger scope with the same taken names, so that a struct of both would be made anew there.
    #[cycle(block_for_statement_if_statement_list_statement)]
    pub fn statement(&self, scope: &Names, taken: &mut Names, n: u16) -> Verdict
        requires { Walkable self.now n }
        ensures { AsStatement (nodes_of self.now) n (λ s t. Walked self.now scope.now taken.old taken.new s t result) }
    {
        match records::node_at(self.parts.nodes, n)? {
            Node::Empty => Ok(()),
            Node::Update { target, value, .. } => self.update(scope, n, target, value),
            Node::Swap { left, right } => self.swap(scope, n, left, right),
            Node::ConditionalSwap {
                condition,
                left,
                right,
            } => self.conditional_swap(scope, n, condition, left, right),
            Node::If { condition, yes, no } => self.if_statement(
                scope, taken, n, condition, yes, no,
            ),
            Node::For {
                counter,
                first,
                second,
                body,
            } => self.for_statement(scope, taken, n, counter, first, second, body),
            Node::Call {
                procedure,
                argument,
            }
            | Node::Uncall {
                procedure,
                argument,
            } => self.call(scope, n, procedure, argument),
            Node::Block {
                first,
                count,
                statement,
            } => self.block(scope, taken, n, first, count, statement),
            _ => Err(Rule::NodeRecord.at(n)),
        }
    }

    // The if at node n: its condition, its branches, its own rules.
    #[cycle(block_for_statement_if_statement_list_statement)]
    fn if_statement(
        &self,
        scope: &Names,
        taken: &mut Names,
        n: u16,
        condition: u16,
        yes: u16,
        no: u16,
    ) -> Verdict
        requires { (Walkable self.now n) × (decoded_at (nodes_of self.now) n ≡ Ok (If condition yes no)) }
        ensures { AsStatement (nodes_of self.now) n (λ s t. Walked self.now scope.now taken.old taken.new s t result) }
    {
        let secret = self.expression(scope, condition)?;
        self.statement(scope, taken, yes)?;
        self.statement(scope, taken, no)?;
        self.if_rules(n, secret, condition, yes, no)
    }

    // The for at node n: its bounds, its counter, its body, its own rules.
    #[cycle(block_for_statement_if_statement_list_statement)]
    fn for_statement(
        &self,
        scope: &Names,
        taken: &mut Names,
        n: u16,
        counter: u16,
        first: u16,
        second: u16,
        body: u16,
    ) -> Verdict
        requires { (Walkable self.now n) × (decoded_at (nodes_of self.now) n ≡ Ok (For counter first second body)) }
        ensures { AsStatement (nodes_of self.now) n (λ s t. Walked self.now scope.now taken.old taken.new s t result) }
    {
        let a = self.expression(scope, first)?;
        let b = self.expression(scope, second)?;
        self.counter_rules(taken, n, counter)?;
        let mut inner = *scope;
        inner.insert(counter);
        taken.insert(counter);
        self.statement(&inner, taken, body)?;
        self.for_rules(n, a | b, first, second, body)
    }

    // The block at node n: its names, then its statements.
    #[cycle(block_for_statement_if_statement_list_statement)]
    fn block(
        &self,
        scope: &Names,
        taken: &mut Names,
        n: u16,
        first: u16,
        count: u16,
        start: u16,
    ) -> Verdict
        requires { (Walkable self.now n) × (decoded_at (nodes_of self.now) n ≡ Ok (Block first count start)) }
        ensures { AsStatement (nodes_of self.now) n (λ s t. Walked self.now scope.now taken.old taken.new s t result) }
    {
        self.block_rules(taken, n, first, count)?;
        let mut inner = *scope;
        inner.insert_range(first, count);
        taken.insert_range(first, count);
        self.list(&inner, taken, start)
    }

    // The statements from node n on.
    #[cycle(block_for_statement_if_statement_list_statement)]
    fn list(&self, scope: &Names, taken: &mut Names, n: u16) -> Verdict
        requires { WalkableChain self.now n }
        ensures { AsStatements (nodes_of self.now) n (λ s t. Walked self.now scope.now taken.old taken.new s t result) }
    {
        if n == records::MISSING {
            return Ok(());
        }
        self.statement(scope, taken, n)?;
        self.list(scope, taken, records::next_at(self.parts.nodes, n))
    }
}
