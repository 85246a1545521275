// Check a rule: whether bytes are a rule file, and its reach and free variables.
#![tactic(auto)]

ghost use Rattle.std.specs.Prelude.{◌≡◌, true, ℕ, ◌+◌, ◌≤◌, ◌<◌, length, get_or};
ghost use Rattle.std.specs.List.{list_all, range_with_len};
ghost use mathlib.Core.List.{[], ◌∷◌, Memᴰ};
ghost use Rattle.meaning.specs.Lists.{occurrences};
ghost use Rattle.meaning.specs.Formula.{reach};
ghost use Rattle.meaning.specs.RuleFile.{node_count, arity_fits, sizes_fit, formula_at, checking, is_accepted};
ghost use Rattle.meaning.specs.View.{children_in};
ghost use Rattle.ruleshape.specs.Sound.{window_reach};
ghost use Rattle.rulefile.specs.Checked.{answer_of};
ghost use Rattle.rulefile.specs.Weighing.{Sized, AllFit, weighing, NodesWeighed, Masked, Tells, FirstStray, from_nodes};

use meaning::{Body, Children, Head, MOST_NODES, Node, Times};
use rulefree::{node_fits, node_mask};
use rulenodes::{arity_at, body_of, children_of, head_at, node_at, node_of, view_of};
use ruleshape::{range_fits, shape_fits};

// Nodes at most that a rule has, as a byte.
const NODES: u8 = MOST_NODES as u8;

// What "Check a rule" tells of a rule that is accepted: its reach, and its free variables as a mask.
#[derive(Clone, Copy)]
pub struct AcceptedRule {
    pub reach: u32,
    pub mask: u8,
}

// Why a rule is refused, with the node where it is one.
#[derive(Clone, Copy)]
pub enum RuleRefusal {
    Cut,
    OtherVersion,
    SizeOut,
    Misshapen(u8),
    WindowOut(u8),
    FreeBroken(u8),
    NotOneParent(u8),
}

// Whether a relation's arity is at most 4, and 0 beyond the relations of the rule.
fn arity_fits(rule: &[u8], relation: u8) -> bool
    requires { 12 ≤ length rule.now }
    ensures { result ≡ arity_fits rule.now relation }
{
    let a = arity_at(rule, relation);
    (a <= 4) & ((relation < rule[1]) | (a == 0))
}

// Whether the eight arities fit.
fn arities_fit(rule: &[u8]) -> bool
    requires { 12 ≤ length rule.now }
    ensures { result ≡ list_all (arity_fits rule.now) (range_with_len 0 8) }
{
    (0..8).all(|relation| arity_fits(rule, relation))
}

// Whether the sizes, but for the length, pass 3.
#[tactic(auto, unfolding(meaning::specs::RuleFile::sizes_fit))]
fn sizes_fit(rule: &[u8]) -> bool
    requires { 12 ≤ length rule.now }
    ensures { result ≡ sizes_fit rule.now }
{
    (1 <= rule[1])
        & (rule[1] <= 8)
        & (1 <= rule[2])
        & (rule[2] <= NODES)
        & (rule[3] == 0)
        & arities_fit(rule)
}

// The mask of node x, of this head and body, with the masks of the nodes below it; or refusal 4, 5 or 6.
fn weigh_node(
    rule: &[u8],
    x: u8,
    h: Head,
    w: Body,
    node: Node,
    masks: &[u8],
) -> Result<u8, RuleRefusal>
    requires { 12 ≤ length rule.now }
    ensures { result ≡ weighing rule.now x h w node masks.now }
{
    if !shape_fits(rule, x, h, w) {
        return Err(RuleRefusal::Misshapen(x));
    }
    if !range_fits(h, w) {
        return Err(RuleRefusal::WindowOut(x));
    }
    if !node_fits(masks, node) {
        return Err(RuleRefusal::FreeBroken(x));
    }
    Ok(node_mask(masks, node))
}

// Counts a child.
fn count_child(uses: &mut [u8], c: u8)
    requires { (c < length uses.old) × (get_or uses.old c 0 < 255) }
    ensures { (y : ℕ) → get_or uses.new y 0 ≡ get_or uses.old y 0 + occurrences y (c ∷ []) }
{
    uses[c as usize] += 1;
}

// Counts a node's children.
fn count_children(uses: &mut [u8], children: Children)
    requires { ((c : ℕ) → Memᴰ c (children_in children) → c < length uses.old) × ((y : ℕ) → get_or uses.old y 0 < 254) }
    ensures { (y : ℕ) → get_or uses.new y 0 ≡ get_or uses.old y 0 + occurrences y (children_in children) }
{
    match children {
        Children::None => {}
        Children::One(a) => count_child(uses, a),
        Children::Two(a, b) => {
            count_child(uses, a);
            count_child(uses, b);
        }
    }
}

// All nodes, lowest first, each read once: the last one's mask, and in the lent bytes the mask of each and how often it is a child.
fn weigh_nodes(rule: &[u8], masks: &mut [u8], uses: &mut [u8]) -> Result<u8, RuleRefusal>
    requires { Sized rule.now × (32 ≤ length masks.old) × (32 ≤ length uses.old) × ((y : ℕ) → get_or uses.old y 0 ≡ 0) }
    ensures { NodesWeighed rule.now masks.new uses.new result }
{
    let n = rule[2];
    for x in 0..n {
        let h = head_at(rule, x);
        let w = body_of(rule, x);
        let node = node_of(arity_at(rule, h.left), h, w);
        let mask = weigh_node(rule, x, h, w, node, masks)?;
        masks[x as usize] = mask;
        count_children(uses, children_of(node));
    }
    Ok(masks[n as usize - 1])
}

// The lowest node below n that isn't a child exactly once.
fn first_stray(uses: &[u8], n: u8) -> Option<u8>
    requires { n ≤ length uses.now }
    ensures { FirstStray uses.now n result }
{
    for y in 0..n {
        if uses[y as usize] != 1 {
            return Some(y);
        }
    }
    None
}

// Refusals 4 to 7 of a file whose sizes and length are right; else the last node's mask.
fn check_nodes(rule: &[u8], masks: &mut [u8]) -> Result<u8, RuleRefusal>
    requires { Sized rule.now × (32 ≤ length masks.old) }
    ensures { Tells rule.now masks.new (from_nodes rule.now) result }
{
    let mut uses = [0u8; MOST_NODES];
    let mask = weigh_nodes(rule, masks, &mut uses)?;
    match first_stray(&uses, rule[2] - 1) {
        Some(y) => Err(RuleRefusal::NotOneParent(y)),
        None => Ok(mask),
    }
}

// Everything of "Check a rule" but the reach: any bytes. Where no refusal applies, the lent bytes hold the mask of each node's free variables.
#[tactic(auto, using(crate::proofs::Answer::sized_from), unfolding(meaning::specs::RuleFile::checking))]
fn weigh_rule(rule: &[u8], masks: &mut [u8]) -> Result<u8, RuleRefusal>
    requires { 32 ≤ length masks.old }
    ensures { Tells rule.now masks.new (checking rule.now) result }
{
    if rule.len() < 12 {
        return Err(RuleRefusal::Cut);
    }
    if rule[0] != 1 {
        return Err(RuleRefusal::OtherVersion);
    }
    if !sizes_fit(rule) {
        return Err(RuleRefusal::SizeOut);
    }
    if rule.len() != 12 + 20 * (rule[2] as usize) {
        return Err(RuleRefusal::Cut);
    }
    check_nodes(rule, masks)
}

// Whether a rule is accepted: any bytes. Where it is, the lent bytes hold the mask of each node's free variables.
pub fn accepts(rule: &[u8], masks: &mut [u8]) -> bool
    requires { 32 ≤ length masks.old }
    ensures answer { result ≡ is_accepted (checking rule.now) }
    ensures known { result ≡ true → Masked rule.now masks.new }
{
    weigh_rule(rule, masks).is_ok()
}

// What a node adds to the greatest reach of its children.
fn window_reach(node: Node) -> u32
    ensures { result ≡ window_reach node }
{
    let view = view_of(node);
    match view.times {
        Times::Here | Times::Before | Times::After | Times::Past => 0,
        Times::Future => view.window.end,
    }
}

// The reach of node x, down the tree below it.
fn reach_of(rule: &[u8], x: u8) -> u32
    requires { AllFit rule.now × (x < node_count rule.now) }
    ensures { result ≡ reach (formula_at rule.now x) }
{
    let node = node_at(rule, x);
    let own = window_reach(node);
    match children_of(node) {
        Children::None => own,
        Children::One(a) => own + reach_of(rule, a),
        Children::Two(a, b) => own + reach_of(rule, a).max(reach_of(rule, b)),
    }
}

// Checks a rule: any bytes.
#[tactic(auto, using(crate::proofs::Accepted::accepted_fit))]
pub fn check(rule: &[u8]) -> Result<AcceptedRule, RuleRefusal>
    ensures { answer_of result ≡ checking rule.now }
{
    let mut masks = [0u8; MOST_NODES];
    let mask = weigh_rule(rule, &mut masks)?;
    let reach = reach_of(rule, rule[2] - 1);
    Ok(AcceptedRule { reach, mask })
}
