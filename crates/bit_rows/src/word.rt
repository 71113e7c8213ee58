//! One word of bits.
ghost use Rattle.std.specs.Prelude.{◌≡◌, ℕ, ◌<◌, ◌≤◌, ◌+◌, ◌↔◌, ◌⊎◌, IsTrue};
ghost use Rattle.bit_rows.specs.Relation.{Bit, wide_word};

/// Whether the word has the bit.
#[inline]
pub fn has_bit(word: u64, k: usize) -> bool
    requires { k < 64 }
    ensures { IsTrue result ↔ Bit word k }
{
    (word >> k) & 1 == 1
}

/// The word with the bit.
#[inline]
pub fn with_bit(word: u64, k: usize) -> u64
    requires { k < 64 }
    ensures { (b : ℕ) → Bit result b ↔ (Bit word b ⊎ (k ≡ b)) }
{
    word | (1 << k)
}

/// The bits of either word.
#[inline]
pub fn either(left: u64, right: u64) -> u64
    ensures { (b : ℕ) → Bit result b ↔ (Bit left b ⊎ Bit right b) }
{
    left | right
}

/// The bits of both words.
#[inline]
pub fn both(left: u64, right: u64) -> u64
    ensures { (b : ℕ) → Bit result b ↔ (Bit left b × Bit right b) }
{
    left & right
}

/// The bits of the left word that the right one has not.
#[inline]
pub fn left_alone(left: u64, right: u64) -> u64
    ensures { (b : ℕ) → Bit result b ↔ (Bit left b × (Bit right b → ⊥)) }
{
    left & !right
}

/// The bits of a word, and those of another where a third has the bit k.
#[inline]
pub fn union_where(word: u64, select: u64, k: usize, other: u64) -> u64
    requires { k < 64 }
    ensures { (b : ℕ) → Bit result b ↔ (Bit word b ⊎ (Bit select k × Bit other b)) }
{
    word | (0u64.wrapping_sub((select >> k) & 1) & other)
}

/// The word of the bits below a count.
pub fn lowest_bits(count: usize) -> u64
    requires { count ≤ 64 }
    ensures { (b : ℕ) → Bit result b ↔ (b < count) }
{
    if count == 0 {
        0
    } else {
        u64::MAX >> (64 - count)
    }
}

/// The word with the bit of an event, where the first bit stands for the event `at`.
#[inline]
pub fn own_bit(event: usize, at: usize) -> u64
    ensures { (b : ℕ) → Bit result b ↔ ((b < 64) × (event ≡ b + at)) }
{
    if event < at {
        return 0;
    }
    let k = event - at;
    if k < 64 { with_bit(0, k) } else { 0 }
}

/// How many of the events below a count have their bits in a low word.
pub fn in_low(count: usize) -> usize
    ensures few { result ≤ 64 }
    ensures cut { (b : ℕ) → b < 64 → (b < result ↔ (b < count)) }
{
    if count < 64 { count } else { 64 }
}

/// How many of the events below a count have their bits in a high word.
pub fn in_high(count: usize) -> usize
    requires { count ≤ 128 }
    ensures few { result ≤ 64 }
    ensures cut { (b : ℕ) → b < result ↔ (b + 64 < count) }
{
    if count < 64 { 0 } else { count - 64 }
}

/// Whether two words have the bit of an event: the low one below 64, and else the high one.
#[inline]
pub fn has_event(low: u64, high: u64, event: usize) -> bool
    requires { event < 128 }
    ensures { IsTrue result ↔ Bit (wide_word low high) event }
{
    if event < 64 {
        has_bit(low, event)
    } else {
        has_bit(high, event - 64)
    }
}

/// The word, or no bits.
#[inline]
pub fn word_if(is_wanted: bool, word: u64) -> u64
    ensures { (b : ℕ) → Bit result b ↔ (IsTrue is_wanted × Bit word b) }
{
    if is_wanted { word } else { 0 }
}

/// Whether the word has the bit of an event, where the first bit stands for the event `at`.
#[inline]
pub fn has_own_bit(word: u64, event: usize, at: usize) -> bool
    ensures { IsTrue result ↔ ((b : ℕ) × (b < 64) × (event ≡ b + at) × Bit word b) }
{
    if event < at {
        return false;
    }
    let k = event - at;
    if k < 64 { has_bit(word, k) } else { false }
}
