// Refusals 4 and 5 of a node: whether its fields fit its kind, and whether its window is in range.
#![tactic(auto)]

ghost use Rattle.std.specs.Prelude.{◌≡◌, ◌≤◌, ◌<◌, length};
ghost use Rattle.meaning.specs.RuleFile.{atom_word_fits, atom_fits, two_fit, sides_fit, keep_fits, shifted_fits, exists_fits, one_window_fits, two_window_fits, shape_fits, window_fits, range_fits};

use meaning::{Body, Head};
use rulenodes::{Kind, arity_at, has_bit};

// The longest window, in seconds.
const LONGEST: u32 = 604800;

// Whether word k of an atom of arity a is a term or, past the arity, is 0; with p the k-th power of 2.
fn atom_word_fits(a: u8, mask: u8, k: u8, p: u8, w: u32) -> bool
    requires { 0 < p }
    ensures { result ≡ atom_word_fits a mask k p w }
{
    let constant = has_bit(mask, p);
    if k < a {
        constant | (w < 4)
    } else {
        (w == 0) & !constant
    }
}

// Whether an atom's fields fit.
fn atom_fits(rule: &[u8], h: Head, w: Body) -> bool
    requires { 12 ≤ length rule.now }
    ensures { result ≡ atom_fits rule.now h w }
{
    let a = arity_at(rule, h.left);
    (h.left < rule[1])
        & (h.right == 0)
        & (h.mask < 16)
        & atom_word_fits(a, h.mask, 0, 1, w.word0)
        & atom_word_fits(a, h.mask, 1, 2, w.word1)
        & atom_word_fits(a, h.mask, 2, 4, w.word2)
        & atom_word_fits(a, h.mask, 3, 8, w.word3)
}

// Whether the fields of a kind with two children and no window fit.
fn two_fit(x: u8, h: Head, w: Body) -> bool
    ensures { result ≡ two_fit x h w }
{
    (h.left < x)
        & (h.right < x)
        & (h.mask == 0)
        & (w.word0 == 0)
        & (w.word1 == 0)
        & (w.word2 == 0)
        & (w.word3 == 0)
}

// Whether the two terms that "keep" and "keep-shifted" compare fit.
fn sides_fit(h: Head, w: Body) -> bool
    ensures { result ≡ sides_fit h w }
{
    (h.mask < 4)
        & (has_bit(h.mask, 1) | (w.word0 < 4))
        & (has_bit(h.mask, 2) | (w.word1 < 4))
        & (w.word3 == 0)
}

// Whether the fields of "keep" fit.
fn keep_fits(x: u8, h: Head, w: Body) -> bool
    ensures { result ≡ keep_fits x h w }
{
    (h.left < x) & (h.right <= 3) & sides_fit(h, w) & (w.word2 == 0)
}

// Whether the fields of "keep-shifted" fit.
fn shifted_fits(x: u8, h: Head, w: Body) -> bool
    ensures { result ≡ shifted_fits x h w }
{
    (h.left < x) & (h.right == 0) & sides_fit(h, w)
}

// Whether the fields of "exists" fit.
fn exists_fits(x: u8, h: Head, w: Body) -> bool
    ensures { result ≡ exists_fits x h w }
{
    (h.left < x)
        & (h.right == 0)
        & (h.mask == 0)
        & (w.word0 < 4)
        & (w.word1 == 0)
        & (w.word2 == 0)
        & (w.word3 == 0)
}

// Whether the fields of a kind with one child and a window fit.
fn one_window_fits(x: u8, h: Head, w: Body) -> bool
    ensures { result ≡ one_window_fits x h w }
{
    (h.left < x) & (h.right == 0) & (h.mask == 0) & (w.word2 == 0) & (w.word3 == 0)
}

// Whether the fields of a kind with two children and a window fit.
fn two_window_fits(x: u8, h: Head, w: Body) -> bool
    ensures { result ≡ two_window_fits x h w }
{
    (h.left < x) & (h.right < x) & (h.mask == 0) & (w.word2 == 0) & (w.word3 == 0)
}

// Whether node x, of this head and body, passes 4.
#[tactic(auto, unfolding(meaning::specs::RuleFile::shape_fits))]
pub fn shape_fits(rule: &[u8], x: u8, h: Head, w: Body) -> bool
    requires { 12 ≤ length rule.now }
    ensures { result ≡ shape_fits rule.now x h w }
{
    match Kind::from(h.kind) {
        Kind::Atom => atom_fits(rule, h, w),
        Kind::And | Kind::AndNot | Kind::Or => two_fit(x, h, w),
        Kind::Keep => keep_fits(x, h, w),
        Kind::KeepShifted => shifted_fits(x, h, w),
        Kind::Exists => exists_fits(x, h, w),
        Kind::Previous | Kind::Next | Kind::Once | Kind::Eventually => one_window_fits(x, h, w),
        Kind::Since | Kind::NotSince | Kind::Until | Kind::NotUntil => two_window_fits(x, h, w),
        Kind::Unknown => false,
    }
}

// Whether the window [c, d) is in range, where d = 0 means no end.
fn window_fits(c: u32, d: u32) -> bool
    ensures { result ≡ window_fits c d }
{
    if d == 0 {
        c < LONGEST
    } else {
        (c < d) & (d <= LONGEST)
    }
}

// Whether a node of this head and body passes 5.
#[tactic(auto, unfolding(meaning::specs::RuleFile::range_fits))]
pub fn range_fits(h: Head, w: Body) -> bool
    ensures { result ≡ range_fits h w }
{
    let fits = window_fits(w.word0, w.word1);
    let ends = 0 < w.word1;
    match Kind::from(h.kind) {
        Kind::Previous | Kind::Next | Kind::Since | Kind::NotSince | Kind::Once => fits,
        Kind::Until | Kind::NotUntil | Kind::Eventually => fits & ends,
        _ => true,
    }
}
