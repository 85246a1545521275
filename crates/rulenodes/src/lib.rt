// Reading a rule file: its words, heads, bodies, and each node as one of the fifteen kinds.
#![tactic(auto)]

ghost use Rattle.std.specs.Prelude.{◌≡◌, [], ℕ, ◌+◌, ◌*◌, ◌≤◌, ◌<◌, length};
ghost use Rattle.meaning.specs.Readings.{twos_complement};
ghost use Rattle.meaning.specs.View.{here, view_of, children_in};
ghost use Rattle.meaning.specs.RuleFile.{word_at, node_count, arity, head_at, body_at, bodies, bit, term_of, comparison_of, terms_of_body, sides_of, node_of, node_at, children_of};
ghost use Rattle.rulenodes.specs.Kinds.{HasNumber};
ghost use Rattle.meaning.specs.declared.Body.{Body};
ghost use Rattle.meaning.specs.declared.Comparison.TheVariants.{ShiftedLess};
ghost use Rattle.meaning.specs.declared.Node.TheVariants.{Atom};

use meaning::{
    Body, Children, Comparison, Head, Left, Node, Sides, Term, Terms, Times, View, Window,
};
use readings::twos_complement;

// A node's kind, by its number in the head. "keep" and "keep-shifted" are two kinds here, and one case of `Node`.
#[derive(Clone, Copy)]
pub enum Kind {
    Atom,
    And,
    AndNot,
    Keep,
    Or,
    Exists,
    Previous,
    Next,
    Since,
    NotSince,
    Until,
    NotUntil,
    Once,
    Eventually,
    KeepShifted,
    Unknown,
}

impl From<u8> for Kind {
    ghost from_gives = { λ n k. HasNumber k n };

    fn from(number: u8) -> Kind {
        match number {
            1 => Kind::Atom,
            2 => Kind::And,
            3 => Kind::AndNot,
            4 => Kind::Keep,
            5 => Kind::Or,
            6 => Kind::Exists,
            7 => Kind::Previous,
            8 => Kind::Next,
            9 => Kind::Since,
            10 => Kind::NotSince,
            11 => Kind::Until,
            12 => Kind::NotUntil,
            13 => Kind::Once,
            14 => Kind::Eventually,
            15 => Kind::KeepShifted,
            _ => Kind::Unknown,
        }
    }
}

// The word at byte k.
#[tactic(auto, unfolding(meaning::specs::RuleFile::word_at))]
pub fn word_at(s: &[u8], k: usize) -> u32
    requires { k + 4 ≤ length s.now }
    ensures { result ≡ word_at s.now k }
{
    u32::from_le_bytes([s[k], s[k + 1], s[k + 2], s[k + 3]])
}

// The head of node x.
#[tactic(auto, unfolding(meaning::specs::RuleFile::head_at))]
pub fn head_at(rule: &[u8], x: u8) -> Head
    requires { 12 + 4 * x + 4 ≤ length rule.now }
    ensures { result ≡ head_at rule.now x }
{
    let at = 12 + 4 * (x as usize);
    Head {
        kind: rule[at],
        left: rule[at + 1],
        right: rule[at + 2],
        mask: rule[at + 3],
    }
}

// The body of node x, from the part of the rule that begins with the bodies.
#[tactic(auto, unfolding(meaning::specs::RuleFile::body_at))]
pub fn body_at(bodies: &[u8], x: u8) -> Body
    requires { 16 * x + 16 ≤ length bodies.now }
    ensures { result ≡ body_at bodies.now x }
{
    let at = 16 * (x as usize);
    Body {
        word0: word_at(bodies, at),
        word1: word_at(bodies, at + 4),
        word2: word_at(bodies, at + 8),
        word3: word_at(bodies, at + 12),
    }
}

// The body of node x of a whole rule.
pub fn body_of(rule: &[u8], x: u8) -> Body
    requires { (length rule.now ≡ 12 + 20 * node_count rule.now) × (x < node_count rule.now) }
    ensures { result ≡ body_at (bodies rule.now) x }
{
    let b = 12 + 4 * (rule[2] as usize);
    body_at(&rule[b..], x)
}

// The arity at a relation's number, 0 past the end of the file.
pub fn arity_at(rule: &[u8], r: u8) -> u8
    ensures { result ≡ arity rule.now r }
{
    rule.get(4 + (r as usize)).copied().unwrap_or(0)
}

// Bit k of a mask, with p the k-th power of 2.
pub fn has_bit(mask: u8, p: u8) -> bool
    requires { 0 < p }
    ensures { result ≡ bit mask p }
{
    mask / p % 2 == 1
}

// A constant where the mask has the bit, else a variable.
fn term_of(mask: u8, p: u8, w: u32) -> Term
    requires { 0 < p }
    ensures { result ≡ term_of mask p w }
{
    if has_bit(mask, p) {
        Term::Constant(w)
    } else {
        Term::Variable(w)
    }
}

// The comparison of "keep", by its number. A From would stand beside the type, in `meaning`, which has types and no code, and be no plainer.
fn comparison_of(n: u8) -> Comparison
    ensures { result ≡ comparison_of n }
{
    match n {
        0 => Comparison::Equal,
        1 => Comparison::Different,
        2 => Comparison::Less,
        _ => Comparison::NotLess,
    }
}

// The comparison of "keep-shifted", with the word of its number.
fn shifted_by(w: u32) -> Comparison
    ensures { result ≡ ShiftedLess (twos_complement w) }
{
    Comparison::ShiftedLess(twos_complement(w))
}

// An atom's terms, as many as its relation's arity.
fn terms_of(count: u8, mask: u8, w: Body) -> Terms
    ensures { result ≡ terms_of_body count mask w }
{
    Terms {
        first: term_of(mask, 1, w.word0),
        second: term_of(mask, 2, w.word1),
        third: term_of(mask, 4, w.word2),
        fourth: term_of(mask, 8, w.word3),
        count,
    }
}

// The two terms that "keep" and "keep-shifted" compare.
fn sides_of(mask: u8, w: Body) -> Sides
    ensures { result ≡ sides_of mask w }
{
    Sides {
        first: term_of(mask, 1, w.word0),
        second: term_of(mask, 2, w.word1),
    }
}

// The node that a head and a body make, with the arity of the relation that the head may name.
#[tactic(auto, unfolding(meaning::specs::RuleFile::node_of))]
pub fn node_of(arity: u8, h: Head, w: Body) -> Node
    ensures { result ≡ node_of arity h w }
{
    let window = Window {
        start: w.word0,
        end: w.word1,
    };
    match Kind::from(h.kind) {
        Kind::Atom => Node::Atom(h.left, terms_of(arity, h.mask, w)),
        Kind::And => Node::And(h.left, h.right),
        Kind::AndNot => Node::AndNot(h.left, h.right),
        Kind::Keep => Node::Keep(h.left, comparison_of(h.right), sides_of(h.mask, w)),
        Kind::KeepShifted => Node::Keep(h.left, shifted_by(w.word2), sides_of(h.mask, w)),
        Kind::Or => Node::Or(h.left, h.right),
        Kind::Exists => Node::Exists(h.left, w.word0),
        Kind::Previous => Node::Previous(h.left, window),
        Kind::Next => Node::Next(h.left, window),
        Kind::Since => Node::Since(h.left, h.right, window),
        Kind::NotSince => Node::NotSince(h.left, h.right, window),
        Kind::Until => Node::Until(h.left, h.right, window),
        Kind::NotUntil => Node::NotUntil(h.left, h.right, window),
        Kind::Once => Node::Once(h.left, window),
        Kind::Eventually | Kind::Unknown => Node::Eventually(h.left, window),
    }
}

// Node x of a rule.
#[tactic(auto, unfolding(meaning::specs::RuleFile::node_at))]
pub fn node_at(rule: &[u8], x: u8) -> Node
    requires { (length rule.now ≡ 12 + 20 * node_count rule.now) × (x < node_count rule.now) }
    ensures { result ≡ node_at rule.now x }
{
    let h = head_at(rule, x);
    node_of(arity_at(rule, h.left), h, body_of(rule, x))
}

// What an atom is made of.
#[derive(Clone, Copy)]
pub struct AtomParts {
    pub relation: u8,
    pub terms: Terms,
}

// The parts of node x, which has no children: it is an atom, and isn't taken apart by its kind.
#[tactic(auto, using(crate::proofs::Childless::childless), unfolding(meaning::specs::RuleFile::node_at))]
pub fn atom_at(rule: &[u8], x: u8) -> AtomParts
    requires { (length rule.now ≡ 12 + 20 * node_count rule.now) × (x < node_count rule.now) × (children_of (node_at rule.now x) ≡ []) }
    ensures { (node_at rule.now x ≡ Atom result.relation result.terms) × (arity rule.now result.relation ≡ result.terms.count) }
{
    let h = head_at(rule, x);
    let terms = terms_of(arity_at(rule, h.left), h.mask, body_of(rule, x));
    AtomParts {
        relation: h.left,
        terms,
    }
}

// The view of a node without a window.
fn here(children: Children) -> View
    ensures { result ≡ here children }
{
    View {
        children,
        times: Times::Here,
        left: Left::Always,
        window: Window { start: 0, end: 0 },
    }
}

// A node's view.
pub fn view_of(node: Node) -> View
    ensures { result ≡ view_of node }
{
    match node {
        Node::Atom(_, _) => here(Children::None),
        Node::And(a, b) | Node::AndNot(a, b) | Node::Or(a, b) => here(Children::Two(a, b)),
        Node::Keep(a, _, _) | Node::Exists(a, _) => here(Children::One(a)),
        Node::Previous(a, w) => View {
            children: Children::One(a),
            times: Times::Before,
            left: Left::Always,
            window: w,
        },
        Node::Next(a, w) => View {
            children: Children::One(a),
            times: Times::After,
            left: Left::Always,
            window: w,
        },
        Node::Since(a, b, w) => View {
            children: Children::Two(a, b),
            times: Times::Past,
            left: Left::Holds,
            window: w,
        },
        Node::NotSince(a, b, w) => View {
            children: Children::Two(a, b),
            times: Times::Past,
            left: Left::Denied,
            window: w,
        },
        Node::Until(a, b, w) => View {
            children: Children::Two(a, b),
            times: Times::Future,
            left: Left::Holds,
            window: w,
        },
        Node::NotUntil(a, b, w) => View {
            children: Children::Two(a, b),
            times: Times::Future,
            left: Left::Denied,
            window: w,
        },
        Node::Once(a, w) => View {
            children: Children::One(a),
            times: Times::Past,
            left: Left::Always,
            window: w,
        },
        Node::Eventually(a, w) => View {
            children: Children::One(a),
            times: Times::Future,
            left: Left::Always,
            window: w,
        },
    }
}

// The children of a node, left first.
pub fn children_of(node: Node) -> Children
    ensures { children_in result ≡ children_of node }
{
    view_of(node).children
}

// The children by the head alone, whatever its relation's arity and the node's body.
#[tactic(auto, unfolding(meaning::specs::RuleFile::node_of))]
fn children_by(h: Head) -> Children
    ensures { (arity : ℕ) (w : Body) → children_in result ≡ children_of (node_of arity h w) }
{
    match Kind::from(h.kind) {
        Kind::Atom => Children::None,
        Kind::And
        | Kind::AndNot
        | Kind::Or
        | Kind::Since
        | Kind::NotSince
        | Kind::Until
        | Kind::NotUntil => Children::Two(h.left, h.right),
        _ => Children::One(h.left),
    }
}

// The children of node x of a rule: of its bytes only the head is read.
#[tactic(auto, unfolding(meaning::specs::RuleFile::node_at))]
pub fn children_at(rule: &[u8], x: u8) -> Children
    requires { 12 + 4 * x + 4 ≤ length rule.now }
    ensures { children_in result ≡ children_of (node_at rule.now x) }
{
    children_by(head_at(rule, x))
}

// The kind of node x of a rule.
#[tactic(auto, unfolding(meaning::specs::RuleFile::head_at))]
fn kind_at(rule: &[u8], x: u8) -> Kind
    requires { 12 + 4 * x + 4 ≤ length rule.now }
    ensures { HasNumber result (head_at rule.now x).kind }
{
    let at = 12 + 4 * (x as usize);
    Kind::from(rule[at])
}

// Which points of its children node x of a rule looks at: of its bytes only the kind is read.
#[tactic(auto, unfolding(meaning::specs::RuleFile::node_at, meaning::specs::RuleFile::node_of))]
pub fn times_at(rule: &[u8], x: u8) -> Times
    requires { 12 + 4 * x + 4 ≤ length rule.now }
    ensures { result ≡ (view_of (node_at rule.now x)).times }
{
    match kind_at(rule, x) {
        Kind::Previous => Times::Before,
        Kind::Next => Times::After,
        Kind::Since | Kind::NotSince | Kind::Once => Times::Past,
        Kind::Until | Kind::NotUntil | Kind::Eventually | Kind::Unknown => Times::Future,
        _ => Times::Here,
    }
}

// The word of node x's body that is a window's end where its kind has a window.
#[tactic(auto, unfolding(meaning::specs::RuleFile::body_at))]
pub fn end_at(rule: &[u8], x: u8) -> u32
    requires { (length rule.now ≡ 12 + 20 * node_count rule.now) × (x < node_count rule.now) }
    ensures { result ≡ (body_at (bodies rule.now) x).word1 }
{
    let b = 12 + 4 * (rule[2] as usize);
    let at = 16 * (x as usize) + 4;
    word_at(&rule[b..], at)
}
