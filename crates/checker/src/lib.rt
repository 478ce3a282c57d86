// The check of an image: verdicts 1 to 6, then the walk of its procedures, 7 to 13.
#![tactic(auto)]

ghost use Rattle.std.specs.Prelude.{◌≡◌, ◌-◌, ◌≤◌, ◌<◌};
ghost use Rattle.rules.specs.Walk.{undeclared_refusal, body_refusal, walk_refusal};
ghost use Rattle.rules.specs.Tree.{Stmt, declared, body_of};
ghost use Rattle.rules.specs.Check.{slow, verdict};
ghost use Rattle.records.specs.Records.{as_header, as_procedure};
ghost use Rattle.records.specs.Parts.{as_parts};
ghost use Rattle.records.specs.Refusals.{as_verdict};
ghost use Rattle.tree.specs.Search.{found};
ghost use Rattle.names.specs.Marks.{Marks, marked};
ghost use Rattle.checker.specs.Prepared.{Prepared, Ranged};

use names::Names;
use records::{Header, Parts, Procedure, Rule, Verdict};
use walker::Walk;

// The lowest name from `from` up to `end` that is not taken.
fn first_untaken(taken: &Names, from: u16, end: u16) -> Option<u16>
    requires { from ≤ end }
    ensures { result ≡ found (marked taken.now) from (end - from) }
{
    (from..end).find(|&x| !taken.contains(x))
}

// 8: "non-parameter variable declared nowhere", the lowest of procedure q. Its ends are names, u16s, as `Ranged` says; those of `Procedure`
// are wider.
fn undeclared(taken: &Names, q: Procedure) -> Verdict
    requires { Ranged q }
    ensures { (t : Stmt) → Marks taken.now (declared t) → as_verdict result ≡ undeclared_refusal (as_procedure q) t }
{
    let end = q.first + q.count;
    tree::lowest(
        Rule::Undeclared,
        first_untaken(taken, q.first + q.parameters, end),
    )
}

// The walk of procedure p, then 8.
fn body(h: Header, parts: &Parts, p: u16) -> Verdict
    requires { Prepared (as_header h) (as_parts parts.now) × (p < h.procedures) }
    ensures { as_verdict result ≡ body_refusal slow (as_parts parts.now) p (body_of (as_header h) (as_parts parts.now) p) }
{
    let q = records::procedure_at(parts.procedures, p);
    let mut scope = Names::new();
    scope.insert_range(q.first, q.parameters);
    let mut taken = Names::new();
    let walk = Walk {
        parts: *parts,
        procedure: p,
    };
    walk.statement(&scope, &mut taken, q.body)?;
    undeclared(&taken, q)
}

// The walk of all procedures, in order.
fn walk(h: Header, parts: &Parts) -> Verdict
    requires { Prepared (as_header h) (as_parts parts.now) }
    ensures { as_verdict result ≡ walk_refusal slow (as_header h) (as_parts parts.now) 0 h.procedures }
{
    for p in 0..h.procedures {
        body(h, parts, p)?;
    }
    Ok(())
}

// The verdict of an image: "a number and a place, 0 and 0 when accepted".
pub fn check(image: &[u8]) -> Verdict
    ensures { as_verdict result ≡ verdict image.now }
{
    form::form(image)?;
    walk(records::header_of(image), &records::parts_of(image))
}
