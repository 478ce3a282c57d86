// Calls: their arguments, and 11 and 12.
ghost use Rattle.std.specs.Prelude.{◌≡◌, List, ℕ, ◌≤◌};
ghost use Rattle.rules.specs.Image.{is_lvalue};
ghost use Rattle.rules.specs.Check.{slow};
ghost use Rattle.rules.specs.Walk.{arguments_refusal, call_fits};
ghost use Rattle.records.specs.Refusals.{as_verdict};
ghost use Rattle.names.specs.Sound.{KnownChain, AsStatement, AsArguments};
ghost use Rattle.walker.specs.Judge.{nodes_of, Scope, Passes, ArgumentFits};
ghost use Rattle.walker.specs.Ways.{fitting};
ghost use Rattle.walker.specs.Simple.{CallAt, Callable, Called};

use crate::Walk;
use names::Names;
use records::{LValue, Rule, Verdict};

impl<'a> Walk<'a> {
    // The arguments from node n on, each by itself.
    fn arguments(&self, scope: &Names, n: u16) -> Verdict
        requires { KnownChain is_lvalue (nodes_of self.now) n }
        ensures { AsArguments (nodes_of self.now) n (λ s ls. (Γ : List ℕ) → Scope self.now scope.now s Γ → as_verdict result ≡ arguments_refusal slow s Γ ls) }
    {
        let Some((l, rest)) = names::first_argument(self.parts.nodes, n) else {
            return Ok(());
        };
        self.place(scope, l, true)?;
        self.arguments(scope, rest)
    }

    // An element is no array, a name is one if its variable is.
    fn passes_array(&self, l: LValue) -> bool
        ensures { Passes self.now l result }
    {
        match l.index() {
            Some(_) => false,
            None => self.variable(l.root()).is_array(),
        }
    }

    // 12: "secrecy, size, or scalar against array differs", of an argument and parameter y.
    fn argument_fits(&self, l: LValue, y: u16) -> bool
        ensures { ArgumentFits self.now l y result }
    {
        self.same_type(l.root(), y) && self.passes_array(l) == self.variable(y).is_array()
    }

    // 12: whether the arguments from node n on are as many as the parameters from y to the end, and each fits its own.
    fn arguments_fit(&self, n: u16, y: u16, end: u16) -> bool
        requires { (KnownChain is_lvalue (nodes_of self.now) n) × (y ≤ end) }
        ensures { AsArguments (nodes_of self.now) n (λ s ls. s.variables ≡ self.now.parts.variables.now → result ≡ fitting s y end ls) }
    {
        let Some((l, rest)) = names::first_argument(self.parts.nodes, n) else {
            return y == end;
        };
        if y == end {
            return false;
        }
        self.argument_fits(l, y) && self.arguments_fit(rest, y + 1, end)
    }

    // 12: "the called procedure's number is not smaller than the caller's; argument count differs; secrecy, size, ..".
    // The end of the parameters is a name, a u16, as `Callable` says; `Procedure::locals` is wider.
    fn call_fits(&self, q: u16, argument: u16) -> bool
        requires { (KnownChain is_lvalue (nodes_of self.now) argument) × (Callable self.now q) }
        ensures { AsArguments (nodes_of self.now) argument
            (λ s ls. s.variables ≡ self.now.parts.variables.now → s.procedures ≡ self.now.parts.procedures.now → result ≡ call_fits s self.now.procedure q ls) }
    {
        let r = records::procedure_at(self.parts.procedures, q);
        q < self.procedure && self.arguments_fit(argument, r.first, r.first + r.parameters)
    }

    // A call or an uncall.
    pub(crate) fn call(&self, scope: &Names, n: u16, q: u16, argument: u16) -> Verdict
        requires { (CallAt (nodes_of self.now) n q argument) × (Callable self.now q) }
        ensures { AsStatement (nodes_of self.now) n (λ s t. Called self.now scope.now s t result) }
    {
        self.arguments(scope, argument)?;
        Rule::Clash.given(n, names::arguments_clash(self.parts.nodes, argument))?;
        Rule::Mismatch.given(n, !self.call_fits(q, argument))
    }
}
