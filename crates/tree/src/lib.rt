// Verdict 6, "no tree": every node is referred to exactly once, and stands where it may.
#![tactic(auto)]

ghost use Rattle.std.specs.Prelude.{ℕ, ◌≡◌, unwrap_or, is_some, ◌≤◌, ◌<◌, eqb, get_or, replicate};
ghost use Rattle.std.specs.List.{All};
ghost use Rattle.rules.specs.Form.{given};
ghost use Rattle.rules.specs.Tree.{is_reference, reference, references_of, node_references, bodies, reference_refusal, place_refusal, tree_refusal};
ghost use Rattle.records.specs.Records.{as_header, as_node};
ghost use Rattle.records.specs.Parts.{as_parts};
ghost use Rattle.records.specs.Fields.{class_number};
ghost use Rattle.records.specs.Refusals.{number_of, as_verdict};
ghost use Rattle.tree.specs.Search.{found};
ghost use Rattle.tree.specs.Tally.{bumped, tally};
ghost use Rattle.tree.specs.Places.{nowhere, placed, body_placed, bodies_placed, child_placed, children_placed, all_placed, AtMost, stands_by, stands_at};

use records::{Class, Header, Parts, RawNode, Rule, Verdict};

// The verdict of a search for the lowest place: refused there, or accepted where it found none.
#[tactic(auto, unfolding(rules::specs::Form::given))]
pub fn lowest(rule: Rule, place: Option<u16>) -> Verdict
    ensures { as_verdict result ≡ given (number_of rule) (unwrap_or place 0) (is_some place) }
{
    match place {
        Some(place) => Err(rule.at(place)),
        None => Ok(()),
    }
}

// Whether a field of this class refers to a node.
fn is_reference(class: Class) -> bool
    ensures { result ≡ is_reference (class_number class) }
{
    matches!(
        class,
        Class::Expression
            | Class::LValue
            | Class::Statement
            | Class::FirstArgument
            | Class::FirstStatement
    )
}

// One reference more to node n: never, once or more. A number past the end, as a missing one, is none.
#[tactic(auto, unfolding(crate::specs::Tally::bumped, crate::specs::Tally::one_more))]
fn bump(counts: &mut [u8], n: u16)
    ensures { counts.new ≡ bumped counts.old n }
{
    let k = usize::from(n);
    let count = records::get_or(counts, k, 0);
    records::put(counts, k, count.saturating_add(1).min(2));
}

// Counts what a field of this class refers to.
#[tactic(auto, unfolding(crate::specs::Tally::tally))]
fn count_field(class: Class, v: u16, counts: &mut [u8])
    ensures { counts.new ≡ tally (reference (class_number class) v) counts.old }
{
    if is_reference(class) {
        bump(counts, v);
    }
}

// Counts what the record of a node refers to.
fn count_node(r: RawNode, counts: &mut [u8])
    ensures { counts.new ≡ tally (references_of (as_node r)) counts.old }
{
    let classes = records::classes_of(r.kind);
    count_field(classes.a, r.a, counts);
    count_field(classes.b, r.b, counts);
    count_field(classes.c, r.c, counts);
    count_field(classes.d, r.d, counts);
    bump(counts, r.next);
}

// Counts what the first count nodes refer to.
fn count_nodes(nodes: &[u8], count: u16, counts: &mut [u8])
    ensures { counts.new ≡ tally (node_references nodes.now 0 count) counts.old }
{
    for n in 0..count {
        count_node(records::record_at(nodes, n), counts);
    }
}

// Counts the bodies of the first count procedures. A closure shared with `place_bodies` would be longer than
// the loop that it saves.
fn count_bodies(procedures: &[u8], count: u16, counts: &mut [u8])
    ensures { counts.new ≡ tally (bodies procedures.now 0 count) counts.old }
{
    for p in 0..count {
        bump(counts, records::procedure_at(procedures, p).body);
    }
}

// The first of the count nodes that is not counted exactly once.
fn first_not_once(counts: &[u8], count: u16) -> Option<u16>
    ensures { result ≡ found (λ n. eqb (get_or counts.now n 0) 1) 0 count }
{
    (0..count).find(|&n| records::get_or(counts, usize::from(n), 0) != 1)
}

// "first, a node not referred to exactly once (procedure bodies count as references)"
fn references(h: Header, parts: &Parts) -> Verdict
    requires { h.nodes ≤ 4096 }
    ensures { as_verdict result ≡ reference_refusal (as_header h) (as_parts parts.now) }
{
    let mut counts = [0u8; 4096];
    count_bodies(parts.procedures, h.procedures, &mut counts);
    count_nodes(parts.nodes, h.nodes, &mut counts);
    lowest(Rule::Tree, first_not_once(&counts, h.nodes))
}

// What is found of a node: whether it is a body, its depth, and whether it is a block's statement or an argument.
// Of a node that nothing has placed, nothing is found.
#[derive(Clone, Copy, Default)]
struct Place {
    body: bool,
    depth: u16,
    chained: bool,
}

// The place of node n.
fn place_at(places: &[Place], n: u16) -> Place
    ensures { result ≡ get_or places.now n nowhere }
{
    records::get_or(places, usize::from(n), Place::default())
}

// Makes node n a body; a number past the end changes nothing.
#[tactic(auto, unfolding(crate::specs::Places::body_placed))]
fn place_body(places: &mut [Place], n: u16)
    ensures { places.new ≡ body_placed places.old n }
{
    let place = Place {
        body: true,
        depth: 1,
        ..place_at(places, n)
    };
    records::put(places, usize::from(n), place);
}

// Places node n as its parent says; a number past the end changes nothing.
#[tactic(auto, unfolding(crate::specs::Places::placed))]
fn place_node(places: &mut [Place], n: u16, depth: u16, chained: bool)
    ensures { places.new ≡ placed places.old n depth chained }
{
    let place = Place {
        depth,
        chained,
        ..place_at(places, n)
    };
    records::put(places, usize::from(n), place);
}

// Places the bodies of the first count procedures.
fn place_bodies(procedures: &[u8], count: u16, places: &mut [Place])
    ensures { places.new ≡ bodies_placed procedures.now 0 count places.old }
{
    for p in 0..count {
        place_body(places, records::procedure_at(procedures, p).body);
    }
}

// Places what a field of this class refers to: a child is one deeper than its parent.
#[tactic(auto, unfolding(crate::specs::Places::child_placed))]
fn place_child(class: Class, v: u16, own: Place, places: &mut [Place])
    requires { own.depth < 65535 }
    ensures { places.new ≡ child_placed own (class_number class) v places.old }
{
    let depth = own.depth + 1;
    match class {
        Class::FirstArgument | Class::FirstStatement => place_node(places, v, depth, true),
        Class::Expression | Class::LValue | Class::Statement => place_node(places, v, depth, false),
        _ => {}
    }
}

// Places what a node at this place refers to: its children by their class, and next as the node itself.
fn place_children(r: RawNode, own: Place, places: &mut [Place])
    requires { own.depth < 65535 }
    ensures { places.new ≡ children_placed own (as_node r) places.old }
{
    let classes = records::classes_of(r.kind);
    place_child(classes.a, r.a, own, places);
    place_child(classes.b, r.b, own, places);
    place_child(classes.c, r.c, own, places);
    place_child(classes.d, r.d, own, places);
    place_node(places, r.next, own.depth, own.chained);
}

// Places what the first count nodes refer to, in the order of the nodes.
fn place_all(nodes: &[u8], count: u16, places: &mut [Place])
    requires { (count ≤ 4096) × All (AtMost 1) places.old }
    ensures { places.new ≡ all_placed nodes.now 0 count places.old }
{
    for n in 0..count {
        let own = place_at(places, n);
        place_children(records::record_at(nodes, n), own, places);
    }
}

// "a body that is no statement, a depth over 32, or a next on a node that is neither a block's statement nor an argument"
fn stands(place: Place, r: RawNode) -> bool
    ensures { result ≡ stands_by place (as_node r) }
{
    (!place.body || r.is_statement())
        && place.depth <= 32
        && (r.next == records::MISSING || place.chained)
}

// The first of the count nodes that does not stand in the tree.
fn first_out_of_place(nodes: &[u8], count: u16, places: &[Place]) -> Option<u16>
    ensures { result ≡ found (stands_at nodes.now places.now) 0 count }
{
    (0..count).find(|&n| !stands(place_at(places, n), records::record_at(nodes, n)))
}

// "then" the places: they begin nowhere, one for each node.
fn places_by(h: Header, parts: &Parts, places: &mut [Place]) -> Verdict
    requires { (h.nodes ≤ 4096) × (places.old ≡ replicate h.nodes nowhere) }
    ensures { as_verdict result ≡ place_refusal (as_header h) (as_parts parts.now) }
{
    place_bodies(parts.procedures, h.procedures, places);
    place_all(parts.nodes, h.nodes, places);
    lowest(Rule::Tree, first_out_of_place(parts.nodes, h.nodes, places))
}

// The places, in room of its own.
fn places(h: Header, parts: &Parts) -> Verdict
    requires { h.nodes ≤ 4096 }
    ensures { as_verdict result ≡ place_refusal (as_header h) (as_parts parts.now) }
{
    let mut places = [Place::default(); 4096];
    places_by(h, parts, &mut places[..usize::from(h.nodes)])
}

// 6: "no tree".
pub fn tree(h: Header, parts: &Parts) -> Verdict
    requires { h.nodes ≤ 4096 }
    ensures { as_verdict result ≡ tree_refusal (as_header h) (as_parts parts.now) }
{
    references(h, parts)?;
    places(h, parts)
}
