// Updates and swaps: 10, 11 and 12 of their targets.
ghost use Rattle.std.specs.Prelude.{◌≡◌, [], ◌∷◌};
ghost use Rattle.rules.specs.Image.{is_expression};
ghost use Rattle.rules.specs.Tree.{index, variables};
ghost use Rattle.rules.specs.Walk.{share};
ghost use Rattle.names.specs.Sound.{Known, AsExpression, AsStatement};
ghost use Rattle.names.specs.Chains.{KnownNaming, AsPlace};
ghost use Rattle.walker.specs.Judge.{nodes_of};
ghost use Rattle.walker.specs.Simple.{UpdateAt, SwapAt, ConditionalAt, Plain, SameType, UpdateClash, SwapClash, ConditionClash};

use crate::Walk;
use names::Names;
use records::{LValue, Rule, Verdict};

impl<'a> Walk<'a> {
    // 11: "the root of an update's target occurs in its value or its own index".
    fn update_clash(&self, target: LValue, value: u16) -> bool
        requires { (KnownNaming (nodes_of self.now) target) × (Known is_expression (nodes_of self.now) value) }
        ensures { UpdateClash self.now target value result }
    {
        let root = target.root();
        names::occurs(self.parts.nodes, value, root)
            || names::index_occurs(self.parts.nodes, target, root)
    }

    // 10: "secret value into a public target", then 11.
    pub(crate) fn update(&self, scope: &Names, n: u16, target: LValue, value: u16) -> Verdict
        requires { UpdateAt (nodes_of self.now) n target value }
        ensures { AsStatement (nodes_of self.now) n (λ s t. Plain self.now scope.now s t result) }
    {
        self.place(scope, target, false)?;
        let secret = self.expression(scope, value)?;
        let public = !self.variable(target.root()).is_secret();
        Rule::Secrecy.given(n, secret & public)?;
        Rule::Clash.given(n, self.update_clash(target, value))
    }

    // 11: whether one of two names occurs in an L-value's index.
    fn either_in_index(&self, l: LValue, x: u16, y: u16) -> bool
        requires { KnownNaming (nodes_of self.now) l }
        ensures { AsPlace (nodes_of self.now) l (λ s p. result ≡ share (x ∷ y ∷ []) (index p)) }
    {
        names::index_occurs(self.parts.nodes, l, x) || names::index_occurs(self.parts.nodes, l, y)
    }

    // 11: "the root of either swap target occurs in either index".
    fn swap_clash(&self, left: LValue, right: LValue) -> bool
        requires { (KnownNaming (nodes_of self.now) left) × (KnownNaming (nodes_of self.now) right) }
        ensures { SwapClash self.now left right result }
    {
        let x = left.root();
        let y = right.root();
        self.either_in_index(left, x, y) || self.either_in_index(right, x, y)
    }

    // 11, then 12.
    pub(crate) fn swap(&self, scope: &Names, n: u16, left: LValue, right: LValue) -> Verdict
        requires { SwapAt (nodes_of self.now) n left right }
        ensures { AsStatement (nodes_of self.now) n (λ s t. Plain self.now scope.now s t result) }
    {
        self.place(scope, left, false)?;
        self.place(scope, right, false)?;
        Rule::Clash.given(n, self.swap_clash(left, right))?;
        Rule::Mismatch.given(n, !self.same_type(left.root(), right.root()))
    }

    // 12: "Swap targets of different types are 12 too."
    pub(crate) fn same_type(&self, x: u16, y: u16) -> bool
        ensures { SameType self.now x y result }
    {
        let v = self.variable(x);
        let w = self.variable(y);
        v.secrecy == w.secrecy && v.size == w.size
    }

    // 11: whether one of two names occurs in the expression at node n.
    fn either_occurs(&self, n: u16, x: u16, y: u16) -> bool
        requires { Known is_expression (nodes_of self.now) n }
        ensures { AsExpression (nodes_of self.now) n (λ s e. result ≡ share (x ∷ y ∷ []) (variables e)) }
    {
        names::occurs(self.parts.nodes, n, x) || names::occurs(self.parts.nodes, n, y)
    }

    // 11: "or in the condition".
    fn condition_clash(&self, condition: u16, left: LValue, right: LValue) -> bool
        requires { (Known is_expression (nodes_of self.now) condition) × (KnownNaming (nodes_of self.now) left) × (KnownNaming (nodes_of self.now) right) }
        ensures { ConditionClash self.now condition left right result }
    {
        self.swap_clash(left, right) || self.either_occurs(condition, left.root(), right.root())
    }

    // 10: "secret swap condition with a public target", then 11 and 12.
    pub(crate) fn conditional_swap(
        &self,
        scope: &Names,
        n: u16,
        condition: u16,
        left: LValue,
        right: LValue,
    ) -> Verdict
        requires { ConditionalAt (nodes_of self.now) n condition left right }
        ensures { AsStatement (nodes_of self.now) n (λ s t. Plain self.now scope.now s t result) }
    {
        let secret = self.expression(scope, condition)?;
        self.place(scope, left, false)?;
        self.place(scope, right, false)?;
        let both = self.variable(left.root()).is_secret() & self.variable(right.root()).is_secret();
        Rule::Secrecy.given(n, secret & !both)?;
        Rule::Clash.given(n, self.condition_clash(condition, left, right))?;
        Rule::Mismatch.given(n, !self.same_type(left.root(), right.root()))
    }
}
