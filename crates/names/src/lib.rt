// Sets of names, and the names that an expression or a statement holds.
// That a node, an L-value or a chain is known (`Known`, `KnownNaming`, `KnownChain`) stands in each clause: it is of a number and of the nodes
// beside it. As the invariant of a type of both it would have to be shown wherever a number is read out of a record, and a clause that
// says `Known is_expression nodes.now n` would name two fields of that type for it.
#![tactic(auto)]

mod marks;

ghost use Rattle.std.specs.Prelude.{◌≡◌, ◌∷◌, [], ◌<◌, ◌||◌};
ghost use Rattle.rules.specs.Image.{is_expression, is_statement, is_lvalue};
ghost use Rattle.rules.specs.Tree.{member, variables, index, roots, indices, changed};
ghost use Rattle.rules.specs.Walk.{share, repeats};
ghost use Rattle.names.specs.Marks.{most, Adds, Touches, Repeats};
ghost use Rattle.names.specs.Sound.{Known, KnownChain, AsExpression, AsStatement, AsStatements, AsArguments};
ghost use Rattle.names.specs.Chains.{root_of, KnownNaming, AsPlace, FirstArgument};

pub use marks::Names;
use records::{LValue, Node};

// Whether a name is one of the variables of the expression at node n.
#[cycle(index_occurs_occurs)]
pub fn occurs(nodes: &[u8], n: u16, x: u16) -> bool
    requires { Known is_expression nodes.now n }
    ensures { AsExpression nodes.now n (λ s e. result ≡ member x (variables e)) }
{
    match records::expression_at(nodes, n) {
        Ok(Node::Value { lvalue }) => lvalue.root() == x || index_occurs(nodes, lvalue, x),
        Ok(Node::Binary { left, right, .. }) => occurs(nodes, left, x) || occurs(nodes, right, x),
        Ok(Node::Not { operand }) => occurs(nodes, operand, x),
        _ => false,
    }
}

// Whether a name is one of the variables of an L-value's index.
#[cycle(index_occurs_occurs)]
pub fn index_occurs(nodes: &[u8], l: LValue, x: u16) -> bool
    requires { KnownNaming nodes.now l }
    ensures { AsPlace nodes.now l (λ s p. result ≡ member x (index p)) }
{
    match l.index() {
        Some(i) => occurs(nodes, i, x),
        None => false,
    }
}

// Takes the variables of the expression at node n in.
// It stays beside `occurs`, which stops at the first one: a walk for both would have to promise
// at which names, and in what order, it calls the closure that tells them apart.
#[cycle(insert_index_insert_variables)]
pub fn insert_variables(nodes: &[u8], n: u16, names: &mut Names)
    requires { Known is_expression nodes.now n }
    ensures { AsExpression nodes.now n (λ s e. Adds names.old names.new (variables e)) }
{
    match records::expression_at(nodes, n) {
        Ok(Node::Value { lvalue }) => {
            names.insert(lvalue.root());
            insert_index(nodes, lvalue, names);
        }
        Ok(Node::Binary { left, right, .. }) => {
            insert_variables(nodes, left, names);
            insert_variables(nodes, right, names);
        }
        Ok(Node::Not { operand }) => insert_variables(nodes, operand, names),
        _ => {}
    }
}

// Takes the variables of an L-value's index in.
#[cycle(insert_index_insert_variables)]
fn insert_index(nodes: &[u8], l: LValue, names: &mut Names)
    requires { KnownNaming nodes.now l }
    ensures { AsPlace nodes.now l (λ s p. Adds names.old names.new (index p)) }
{
    if let Some(i) = l.index() {
        insert_variables(nodes, i, names);
    }
}

// The first of the arguments from node n on, and the node that the others begin at.
pub fn first_argument(nodes: &[u8], n: u16) -> Option<(LValue, u16)>
    requires { KnownChain is_lvalue nodes.now n }
    ensures { FirstArgument nodes.now n result }
{
    if n == records::MISSING {
        return None;
    }
    let l = records::lvalue_at(nodes, n)?;
    Some((l, records::next_at(nodes, n)))
}

// The three walks of a chain below share `first_argument`; what is left of each is its own answer.

// Whether the root of one of the arguments from node n on is among the names.
pub fn roots_marked(nodes: &[u8], n: u16, names: &Names) -> bool
    requires { KnownChain is_lvalue nodes.now n }
    ensures { AsArguments nodes.now n (λ s ls. Touches names.now (roots ls) result) }
{
    let Some((l, rest)) = first_argument(nodes, n) else {
        return false;
    };
    names.contains(l.root()) || roots_marked(nodes, rest, names)
}

// Whether a root of the arguments from node n on comes twice, or was seen already. Takes the roots that it passes in.
fn roots_repeat(nodes: &[u8], n: u16, seen: &mut Names) -> bool
    requires { KnownChain is_lvalue nodes.now n }
    ensures { AsArguments nodes.now n (λ s ls. Repeats seen.old (roots ls) result) }
{
    let Some((l, rest)) = first_argument(nodes, n) else {
        return false;
    };
    let root = l.root();
    if seen.contains(root) {
        return true;
    }
    seen.insert(root);
    roots_repeat(nodes, rest, seen)
}

// Takes the variables of the indices of the arguments from node n on in.
fn insert_indices(nodes: &[u8], n: u16, names: &mut Names)
    requires { KnownChain is_lvalue nodes.now n }
    ensures { AsArguments nodes.now n (λ s ls. Adds names.old names.new (indices ls)) }
{
    let Some((l, rest)) = first_argument(nodes, n) else {
        return;
    };
    insert_index(nodes, l, names);
    insert_indices(nodes, rest, names);
}

// 11: "two arguments have one root, or an argument's root occurs in any argument's index"
pub fn arguments_clash(nodes: &[u8], n: u16) -> bool
    requires { KnownChain is_lvalue nodes.now n }
    ensures { AsArguments nodes.now n (λ s ls. result ≡ (repeats (roots ls) || share (roots ls) (indices ls))) }
{
    let mut seen = Names::new();
    if roots_repeat(nodes, n, &mut seen) {
        return true;
    }
    let mut used = Names::new();
    insert_indices(nodes, n, &mut used);
    roots_marked(nodes, n, &used)
}

// "Changed means root of a target or argument": whether the statement at node n changes one of the names.
#[cycle(changes_list_changes)]
pub fn changes(nodes: &[u8], n: u16, names: &Names) -> bool
    requires { Known is_statement nodes.now n }
    ensures { AsStatement nodes.now n (λ s t. Touches names.now (changed t) result) }
{
    match records::node_at(nodes, n) {
        Ok(Node::Update { target, .. }) => names.contains(target.root()),
        Ok(Node::Swap { left, right } | Node::ConditionalSwap { left, right, .. }) => either_marked(
            names, left, right,
        ),
        Ok(Node::If { yes, no, .. }) => changes(nodes, yes, names) || changes(nodes, no, names),
        Ok(Node::For { body, .. }) => changes(nodes, body, names),
        Ok(Node::Call { argument, .. } | Node::Uncall { argument, .. }) => roots_marked(
            nodes, argument, names,
        ),
        Ok(Node::Block { statement, .. }) => list_changes(nodes, statement, names),
        _ => false,
    }
}

// Whether the root of one of two targets is among the names.
fn either_marked(names: &Names, left: LValue, right: LValue) -> bool
    ensures { root_of left < most → root_of right < most → Touches names.now (root_of left ∷ root_of right ∷ []) result }
{
    names.contains(left.root()) || names.contains(right.root())
}

// Whether one of the statements from node n on changes one of the names.
#[cycle(changes_list_changes)]
fn list_changes(nodes: &[u8], n: u16, names: &Names) -> bool
    requires { KnownChain is_statement nodes.now n }
    ensures { AsStatements nodes.now n (λ s t. Touches names.now (changed t) result) }
{
    if n == records::MISSING {
        return false;
    }
    changes(nodes, n, names) || list_changes(nodes, records::next_at(nodes, n), names)
}
