// Expressions, and L-values as values, targets and arguments: 7, 9, 10 and 13.
ghost use Rattle.std.specs.Prelude.{◌≡◌, List, ℕ, ◌<◌, Some};
ghost use Rattle.rules.specs.Words.{binary_of};
ghost use Rattle.rules.specs.Check.{slow};
ghost use Rattle.rules.specs.Image.{is_expression, variable_of};
ghost use Rattle.rules.specs.Tree.{index};
ghost use Rattle.rules.specs.Walk.{named};
ghost use Rattle.records.specs.Records.{as_variable};
ghost use Rattle.records.specs.Refusals.{as_verdict};
ghost use Rattle.records.specs.LValues.{index_of};
ghost use Rattle.names.specs.Marks.{most, Marks};
ghost use Rattle.names.specs.Sound.{Known, AsExpression};
ghost use Rattle.names.specs.Chains.{KnownNaming, AsPlace};
ghost use Rattle.walker.specs.Judge.{nodes_of, Scope, Judges, place_refusal, free_of, ElementJudged, ElementWalked, VariableJudged, SizeJudged, BinaryJudged, AsValue};

use crate::Walk;
use names::Names;
use records::{LValue, Node, Refusal, Rule, Variable, Verdict};

// 7: "variable outside its scope", then 9: "wrong kind of variable".
fn named(scope: &Names, n: u16, x: u16, wrong: bool) -> Verdict
    ensures { (Γ : List ℕ) → Marks scope.now Γ → x < most → as_verdict result ≡ named Γ n x wrong }
{
    Rule::Scope.given(n, !scope.contains(x))?;
    Rule::Kind.given(n, wrong)
}

// Whether an L-value is an unsafe element.
fn is_unsafe(l: LValue) -> bool
    ensures { result ≡ free_of l }
{
    matches!(l, LValue::Unsafe { .. })
}

// The operators / and %, which are forbidden on secrets: a question of its own (`slow`), apart from which ones divide in a run.
fn divides(operator: u8) -> bool
    ensures { result ≡ slow (binary_of operator) }
{
    matches!(operator, 4 | 5)
}

// 13: "/ or % with a secret operand": whether what the operator gives is secret.
fn binary(n: u16, operator: u8, left: bool, right: bool) -> Result<bool, Refusal>
    ensures { BinaryJudged n operator left right result }
{
    let secret = left | right;
    Rule::Slow.given(n, divides(operator) & secret)?;
    Ok(secret)
}

impl<'a> Walk<'a> {
    // A variable's record.
    pub(crate) fn variable(&self, x: u16) -> Variable
        ensures { as_variable result ≡ variable_of self.now.parts.variables.now x }
    {
        records::variable_at(self.parts.variables, x)
    }

    // 9: "an element of a non-array". 10: "secret index without unsafe, unsafe on a public array".
    fn element_rules(&self, scope: &Names, l: LValue, hidden: bool) -> Result<bool, Refusal>
        ensures { ElementJudged self.now scope.now l hidden result }
    {
        let n = l.node();
        let x = l.root();
        let v = self.variable(x);
        let free = is_unsafe(l);
        let secret = v.is_secret();
        named(scope, n, x, !v.is_array())?;
        Rule::Secrecy.given(n, (hidden & !free) | (free & !secret))?;
        Ok(secret)
    }

    // A variable as a value: a constant, or another that is no array.
    fn variable_value(&self, scope: &Names, n: u16, x: u16) -> Result<bool, Refusal>
        ensures { VariableJudged self.now scope.now n x result }
    {
        let v = self.variable(x);
        named(scope, n, x, v.is_array())?;
        Ok(!v.is_constant() & v.is_secret())
    }

    // The size of an array.
    fn size(&self, scope: &Names, n: u16, x: u16) -> Result<bool, Refusal>
        ensures { SizeJudged self.now scope.now n x result }
    {
        named(scope, n, x, !self.variable(x).is_array())?;
        Ok(false)
    }

    // The expression at node n: its refusal, or whether it is secret.
    #[cycle(element_expression_value)]
    pub(crate) fn expression(&self, scope: &Names, n: u16) -> Result<bool, Refusal>
        requires { Known is_expression (nodes_of self.now) n }
        ensures { AsExpression (nodes_of self.now) n (λ s e. (Γ : List ℕ) → Scope self.now scope.now s Γ → Judges s Γ e result) }
    {
        match records::expression_at(self.parts.nodes, n)? {
            Node::Constant { .. } => Ok(false),
            Node::Value { lvalue } => self.value(scope, lvalue),
            Node::Size { variable } => self.size(scope, n, variable),
            Node::Binary {
                operator,
                left,
                right,
            } => {
                let a = self.expression(scope, left)?;
                let b = self.expression(scope, right)?;
                binary(n, operator, a, b)
            }
            Node::Not { operand } => self.expression(scope, operand),
            _ => Err(Rule::NodeRecord.at(n)),
        }
    }

    // An L-value as a value.
    #[cycle(element_expression_value)]
    fn value(&self, scope: &Names, l: LValue) -> Result<bool, Refusal>
        requires { KnownNaming (nodes_of self.now) l }
        ensures { AsValue (nodes_of self.now) l (λ s e. (Γ : List ℕ) → Scope self.now scope.now s Γ → Judges s Γ e result) }
    {
        match l.index() {
            Some(index) => self.element(scope, l, index),
            None => self.variable_value(scope, l.node(), l.root()),
        }
    }

    // An element as a value, a target or an argument: its index, then its own rules.
    #[cycle(element_expression_value)]
    fn element(&self, scope: &Names, l: LValue, index: u16) -> Result<bool, Refusal>
        requires { (KnownNaming (nodes_of self.now) l) × (index_of l ≡ Some index) }
        ensures { ElementWalked self.now scope.now l index result }
    {
        let hidden = self.expression(scope, index)?;
        self.element_rules(scope, l, hidden)
    }

    // A target, or an argument, which may be a whole array: the flag is that of `place_refusal`. 9: "a constant as target of update, swap or argument".
    pub(crate) fn place(&self, scope: &Names, l: LValue, arrays: bool) -> Verdict
        requires { KnownNaming (nodes_of self.now) l }
        ensures { AsPlace (nodes_of self.now) l (λ s p. (Γ : List ℕ) → Scope self.now scope.now s Γ → as_verdict result ≡ place_refusal arrays s Γ p) }
    {
        if let Some(index) = l.index() {
            self.element(scope, l, index)?;
            return Ok(());
        }
        let x = l.root();
        let v = self.variable(x);
        named(
            scope,
            l.node(),
            x,
            (!arrays & v.is_array()) | v.is_constant(),
        )
    }
}
