// Readings in hundredths: signed numbers in words, and the comparison of "keep-shifted".
#![tactic(auto)]

ghost use Rattle.std.specs.Prelude.{◌≡◌};
ghost use Rattle.meaning.specs.Readings.{twos_complement, word_of, reading_of};
ghost use Rattle.meaning.specs.Formula.{compares};
ghost use Rattle.meaning.specs.declared.Comparison.TheVariants.{ShiftedLess};

// What is added to a reading where it is stored.
const ADDED: i64 = 2147483648;

// The number that a word is in two's complement.
pub fn twos_complement(w: u32) -> i32
    ensures { result ≡ twos_complement w }
{
    w.cast_signed()
}

// The reading that a word stores.
pub fn reading_of(w: u32) -> i32
    ensures { result ≡ reading_of w }
{
    (i64::from(w) - ADDED) as i32
}

// The word that stores a reading.
pub fn word_of(h: i32) -> u32
    ensures { result ≡ word_of h }
{
    (i64::from(h) + ADDED) as u32
}

// Whether a + k is less than b, over whole numbers: no sum of a word and an i32 leaves an i64.
pub fn shifted_less(a: u32, k: i32, b: u32) -> bool
    ensures { result ≡ compares (ShiftedLess k) a b }
{
    i64::from(a) + i64::from(k) < i64::from(b)
}
