// Words, their bits, bytes and signed readings: the library's operations held to the manual's definitions.
#![tactic(auto, using(crate::specs::Cases::cases))]

ghost use Rattle.std.specs.Prelude.{◌≡◌, ◌+◌, ◌-◌, ◌*◌, ◌%◌, ◌^◌, ◌<◌, ◌≤◌};
ghost use Rattle.bits.specs.Fields.{bit_of, ◌⟨◌⟩, ◌⟨◌‥◌⟩};
ghost use Rattle.bits.specs.Integers.{signed, wrap};
ghost use Rattle.bits.specs.Words.{rotated_of, extended_of, lanes_of, joined_of, rev_of, rev16_of, revsh_of, reversed_of, zeros_above, ones_of};
ghost use Rattle.bits.specs.Laws.Range.{Within};

// 2^n.
pub fn power(n: u32) -> u64
    requires { n ≤ 32 }
    ensures { (result ≡ 2 ^ n) × (0 < result) × (result ≤ 2 ^ 32) }
{
    1u64 << n
}

// The low n bits.
pub fn low_bits(value: u32, n: u32) -> u32
    requires { n ≤ 32 }
    ensures { (result ≡ value % 2 ^ n) × (result < 2 ^ n) }
{
    (u64::from(value) % power(n)) as u32
}

// Bits hi down to lo.
pub fn bits(value: u32, lo: u32, hi: u32) -> u32
    requires { (lo ≤ hi) × (hi < 32) }
    ensures { result ≡ value ⟨ hi ‥ lo ⟩ }
{
    low_bits(value >> lo, hi - lo + 1)
}

// Bit n.
pub fn bit(value: u32, n: u32) -> bool
    requires { n < 32 }
    ensures { result ≡ value ⟨ n ⟩ }
{
    (value >> n) % 2 == 1
}

// The whole product of two words.
pub fn widening_mul(a: u32, b: u32) -> u64
    ensures { (result ≡ a * b) × (result ≤ (2 ^ 32 - 1) * (2 ^ 32 - 1)) }
{
    u64::from(a) * u64::from(b)
}

// The signed reading of the low n bits, with its bound, so that sums and products of readings are known to fit.
#[tactic(auto, using(crate::specs::Cases::cases, crate::specs::Laws::Range::reads_low, crate::specs::Laws::Range::reads_high, crate::specs::Laws::Range::reads_fit, crate::specs::Laws::Range::is_again, crate::specs::Laws::Range::told))]
pub fn signed(value: u32, n: u32) -> i64
    requires { (0 < n) × (n ≤ 32) }
    ensures { (result ≡ signed n (value % 2 ^ n)) × Within (2 ^ (n - 1)) result }
{
    let low = u64::from(low_bits(value, n));
    if low < power(n - 1) {
        low as i64
    } else {
        low as i64 - power(n) as i64
    }
}

// An integer modulo 2^64.
pub fn wrap_long(z: i64) -> u64
    ensures { result ≡ wrap 64 z }
{
    z.cast_unsigned()
}

// An integer modulo 2^32.
pub fn wrap_word(z: i64) -> u32
    ensures { result ≡ wrap 32 z }
{
    (wrap_long(z) % 0x1_0000_0000) as u32
}

// The low n bits as a signed number, in a word.
#[tactic(auto, using(crate::specs::Cases::cases), unfolding(crate::specs::Words::extended_of))]
pub fn sign_extend(value: u32, n: u32) -> u32
    requires { (0 < n) × (n ≤ 32) }
    ensures { result ≡ extended_of n value }
{
    wrap_word(signed(value, n))
}

// Rotation right by the low five bits of the amount.
#[tactic(auto, using(crate::specs::Cases::cases, crate::specs::Laws::Words::rotated_is))]
pub fn rotate_right(x: u32, amount: u32) -> u32
    ensures { result ≡ rotated_of x (amount % 32) }
{
    x.rotate_right(amount)
}

// A word as its four byte lanes, the lowest first.
pub fn split(x: u32) -> [u8; 4]
    ensures { result ≡ lanes_of x }
{
    x.to_le_bytes()
}

pub fn join(lanes: [u8; 4]) -> u32
    ensures { result ≡ joined_of lanes }
{
    u32::from_le_bytes(lanes)
}

// REV.
pub fn swap_bytes(x: u32) -> u32
    ensures { result ≡ rev_of x }
{
    x.swap_bytes()
}

// REV16.
#[tactic(auto, using(crate::specs::Cases::cases, crate::specs::Laws::Words::rev16_is))]
pub fn swap_bytes_in_halves(x: u32) -> u32
    ensures { result ≡ rev16_of x }
{
    rotate_right(swap_bytes(x), 16)
}

// REVSH.
#[tactic(auto, using(crate::specs::Cases::cases, crate::specs::Laws::Words::revsh_is))]
pub fn swap_low_half(x: u32) -> u32
    ensures { result ≡ revsh_of x }
{
    sign_extend(swap_bytes_in_halves(x), 16)
}

// RBIT.
#[tactic(auto, using(crate::specs::Cases::cases, crate::specs::Laws::Words::reversed_is))]
pub fn reverse_bits(x: u32) -> u32
    ensures { result ≡ reversed_of 32 x }
{
    x.reverse_bits()
}

#[tactic(auto, using(crate::specs::Cases::cases, crate::specs::Laws::Count::leading_is))]
pub fn leading_zeros(x: u32) -> u32
    ensures { result ≡ zeros_above 32 x }
{
    x.leading_zeros()
}

#[tactic(auto, using(crate::specs::Cases::cases, crate::specs::Laws::Count::ones_is))]
pub fn count_ones(x: u32) -> u32
    ensures { result ≡ ones_of 32 x }
{
    x.count_ones()
}
