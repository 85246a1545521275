// Refusal 6 of a node: its free variables, as a mask, and the condition on them, both from the masks of lower nodes.
#![tactic(auto)]

ghost use Rattle.std.specs.Prelude.{◌≡◌, ◌+◌, ◌*◌, ◌≤◌, get_or};
ghost use Rattle.meaning.specs.Lists.{any};
ghost use Rattle.meaning.specs.Formula.{terms_of, is_variable, term_within};
ghost use Rattle.meaning.specs.RuleFile.{one_if, mask_of};
ghost use Rattle.rulefree.specs.Mask.{variable_in, either_mask, mask_without, mask_within, sides_within, node_mask, node_fits};

use meaning::{Node, Sides, Term, Terms};
use rulenodes::has_bit;

// The mask of the variables whose tests hold.
fn mask_of(a: bool, b: bool, c: bool, d: bool) -> u8
    ensures { result ≡ one_if a + 2 * one_if b + 4 * one_if c + 8 * one_if d }
{
    u8::from(a) + 2 * u8::from(b) + 4 * u8::from(c) + 8 * u8::from(d)
}

// Whether a term is variable x. `kinds` has the same test: one for both would stand in `meaning`, which has types and no code, and be no plainer.
fn names(t: Term, x: u32) -> bool
    ensures { result ≡ is_variable x t }
{
    match t {
        Term::Variable(y) => x == y,
        Term::Constant(_) => false,
    }
}

// Whether variable x is among an atom's terms.
fn atom_names(t: Terms, x: u32) -> bool
    ensures { result ≡ any (is_variable x) (terms_of t) }
{
    let n = t.count;
    ((0 < n) & names(t.first, x))
        | (((1 < n) & names(t.second, x))
            | (((2 < n) & names(t.third, x)) | ((3 < n) & names(t.fourth, x))))
}

// The mask of a term's variable; 0 for a constant.
fn term_mask(t: Term) -> u8
    ensures { result ≡ mask_of (λ x. is_variable x t) }
{
    mask_of(names(t, 0), names(t, 1), names(t, 2), names(t, 3))
}

// The mask of an atom's variables. Most atoms have one term, and are then asked for no other.
fn atom_mask(t: Terms) -> u8
    ensures { result ≡ mask_of (λ x. any (is_variable x) (terms_of t)) }
{
    if t.count == 1 {
        return term_mask(t.first);
    }
    mask_of(
        atom_names(t, 0),
        atom_names(t, 1),
        atom_names(t, 2),
        atom_names(t, 3),
    )
}

// The variables of m and those of n.
fn either_mask(m: u8, n: u8) -> u8
    ensures { result ≡ either_mask m n }
{
    mask_of(
        has_bit(m, 1) | has_bit(n, 1),
        has_bit(m, 2) | has_bit(n, 2),
        has_bit(m, 4) | has_bit(n, 4),
        has_bit(m, 8) | has_bit(n, 8),
    )
}

// The variables of m but v.
fn mask_without(m: u8, v: u32) -> u8
    ensures { result ≡ mask_without m v }
{
    mask_of(
        has_bit(m, 1) & (0 != v),
        has_bit(m, 2) & (1 != v),
        has_bit(m, 4) & (2 != v),
        has_bit(m, 8) & (3 != v),
    )
}

// Whether variable v, below 4, is among those of m.
fn variable_in(m: u8, v: u32) -> bool
    ensures { result ≡ variable_in m v }
{
    has_bit(m, 1 << v.min(3))
}

// Whether the variables of m lie among those of n.
fn mask_within(m: u8, n: u8) -> bool
    ensures { result ≡ mask_within m n }
{
    let first = !has_bit(m, 1) | has_bit(n, 1);
    let second = !has_bit(m, 2) | has_bit(n, 2);
    let third = !has_bit(m, 4) | has_bit(n, 4);
    let fourth = !has_bit(m, 8) | has_bit(n, 8);
    first & (second & (third & fourth))
}

// Whether a term's variable, if it has one, is among those of m.
fn term_within(t: Term, m: u8) -> bool
    ensures { result ≡ term_within t (variable_in m) }
{
    match t {
        Term::Variable(v) => variable_in(m, v),
        Term::Constant(_) => true,
    }
}

// Whether the variables of both sides are among those of m.
fn sides_within(s: Sides, m: u8) -> bool
    ensures { result ≡ sides_within s m }
{
    term_within(s.first, m) & term_within(s.second, m)
}

// The mask of node c; 0 past the end.
fn mask_at(masks: &[u8], c: u8) -> u8
    ensures { result ≡ get_or masks.now c 0 }
{
    masks.get(c as usize).copied().unwrap_or(0)
}

// The mask of a node's free variables.
pub fn node_mask(masks: &[u8], node: Node) -> u8
    ensures { result ≡ node_mask masks.now node }
{
    match node {
        Node::Atom(_, t) => atom_mask(t),
        Node::And(a, b) => either_mask(mask_at(masks, a), mask_at(masks, b)),
        Node::Exists(a, v) => mask_without(mask_at(masks, a), v),
        Node::AndNot(a, _)
        | Node::Keep(a, _, _)
        | Node::Or(a, _)
        | Node::Previous(a, _)
        | Node::Next(a, _)
        | Node::Once(a, _)
        | Node::Eventually(a, _) => mask_at(masks, a),
        Node::Since(_, b, _)
        | Node::NotSince(_, b, _)
        | Node::Until(_, b, _)
        | Node::NotUntil(_, b, _) => mask_at(masks, b),
    }
}

// Whether a node passes 6.
pub fn node_fits(masks: &[u8], node: Node) -> bool
    ensures { result ≡ node_fits masks.now node }
{
    match node {
        Node::AndNot(a, b) => mask_within(mask_at(masks, b), mask_at(masks, a)),
        Node::Keep(a, _, s) => sides_within(s, mask_at(masks, a)),
        Node::Or(a, b) => {
            let m = mask_at(masks, a);
            let n = mask_at(masks, b);
            mask_within(m, n) & mask_within(n, m)
        }
        Node::Exists(a, v) => variable_in(mask_at(masks, a), v),
        Node::Since(a, b, _)
        | Node::NotSince(a, b, _)
        | Node::Until(a, b, _)
        | Node::NotUntil(a, b, _) => mask_within(mask_at(masks, a), mask_at(masks, b)),
        Node::Atom(_, _)
        | Node::And(_, _)
        | Node::Previous(_, _)
        | Node::Next(_, _)
        | Node::Once(_, _)
        | Node::Eventually(_, _) => true,
    }
}
