// The own rules of if, for and block: 7, 9, 10 and 11.
ghost use Rattle.std.specs.Prelude.{◌≡◌, List, ℕ, ◌+◌, ◌≤◌, ◌<◌};
ghost use Rattle.rules.specs.Image.{is_expression, is_statement, procedure_of};
ghost use Rattle.rules.specs.Tree.{range};
ghost use Rattle.rules.specs.Walk.{declarable, every};
ghost use Rattle.records.specs.Records.{as_procedure};
ghost use Rattle.names.specs.Marks.{most, Marks};
ghost use Rattle.names.specs.Sound.{Known};
ghost use Rattle.walker.specs.Judge.{nodes_of};
ghost use Rattle.walker.specs.Nested.{EitherChanges, IfRules, ForRules, CounterRules, BlockRules, NoCounters};

use crate::Walk;
use names::Names;
use records::{Procedure, Rule, Verdict};

// 7: "declared twice", "declaring a parameter or another procedure's variable".
fn can_declare(q: Procedure, taken: &Names, x: u16) -> bool
    ensures { (D : List ℕ) → Marks taken.now D → x < most → result ≡ declarable (as_procedure q) D x }
{
    (q.locals()..q.end()).contains(&u32::from(x)) && !taken.contains(x)
}

// 7 of the count names from x on. That they are names, `x + count ≤ most`, is asked here and below, and by `Names::insert_range`: it is what a
// block's two fields mean together, and they are fields of a record.
fn can_declare_all(q: Procedure, taken: &Names, x: u16, count: u16) -> bool
    requires { x + count ≤ most }
    ensures { (D : List ℕ) → Marks taken.now D → result ≡ every (declarable (as_procedure q) D) (range x count) }
{
    (x..x + count).all(|y| can_declare(q, taken, y))
}

impl<'a> Walk<'a> {
    // 9: "a block that declares one", a counter, among the count names from x on.
    fn no_counters(&self, x: u16, count: u16) -> bool
        requires { x + count ≤ most }
        ensures { NoCounters self.now x count result }
    {
        (x..x + count).all(|y| !self.variable(y).is_counter())
    }

    // 11: whether one of two statements changes one of the names.
    fn either_changes(&self, yes: u16, no: u16, used: &Names) -> bool
        requires { (Known is_statement (nodes_of self.now) yes) × (Known is_statement (nodes_of self.now) no) }
        ensures { EitherChanges self.now yes no used.now result }
    {
        names::changes(self.parts.nodes, yes, used) || names::changes(self.parts.nodes, no, used)
    }

    // 10: "secret if condition". 11: "a variable of an if condition is changed in the branches".
    pub(crate) fn if_rules(
        &self,
        n: u16,
        secret: bool,
        condition: u16,
        yes: u16,
        no: u16,
    ) -> Verdict
        requires { (Known is_expression (nodes_of self.now) condition) × (Known is_statement (nodes_of self.now) yes) × (Known is_statement (nodes_of self.now) no) }
        ensures { IfRules self.now n secret condition yes no result }
    {
        Rule::Secrecy.given(n, secret)?;
        let mut used = Names::new();
        names::insert_variables(self.parts.nodes, condition, &mut used);
        Rule::Clash.given(n, self.either_changes(yes, no, &used))
    }

    // 10: "secret for bound". 11: "a variable of a for bound is changed in the body".
    pub(crate) fn for_rules(
        &self,
        n: u16,
        secret: bool,
        first: u16,
        second: u16,
        body: u16,
    ) -> Verdict
        requires { (Known is_expression (nodes_of self.now) first) × (Known is_expression (nodes_of self.now) second) × (Known is_statement (nodes_of self.now) body) }
        ensures { ForRules self.now n secret first second body result }
    {
        Rule::Secrecy.given(n, secret)?;
        let mut used = Names::new();
        names::insert_variables(self.parts.nodes, first, &mut used);
        names::insert_variables(self.parts.nodes, second, &mut used);
        Rule::Clash.given(n, names::changes(self.parts.nodes, body, &used))
    }

    // The record of the procedure that is walked.
    fn own(&self) -> Procedure
        ensures { as_procedure result ≡ procedure_of self.now.parts.procedures.now self.now.procedure }
    {
        records::procedure_at(self.parts.procedures, self.procedure)
    }

    // 7 and 9 of a for's counter.
    pub(crate) fn counter_rules(&self, taken: &Names, n: u16, x: u16) -> Verdict
        ensures { CounterRules self.now taken.now n x result }
    {
        Rule::Scope.given(n, !can_declare(self.own(), taken, x))?;
        Rule::Kind.given(n, !self.variable(x).is_counter())
    }

    // 7 and 9 of a block's names.
    pub(crate) fn block_rules(&self, taken: &Names, n: u16, x: u16, count: u16) -> Verdict
        requires { x + count ≤ most }
        ensures { BlockRules self.now taken.now n x count result }
    {
        Rule::Scope.given(n, !can_declare_all(self.own(), taken, x, count))?;
        Rule::Kind.given(n, !self.no_counters(x, count))
    }
}
