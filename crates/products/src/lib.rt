// Every multiplication of the core, on numbers alone; with them the saturating sums, which share their place in the manual.
#![tactic(auto, using(bits::specs::Cases::cases))]

ghost use Rattle.std.specs.Prelude.{◌≡◌, ◌+◌, ◌*◌, ◌^◌, ◌<◌, pos, ◌+ℤ◌, ◌*ℤ◌};
ghost use Rattle.bits.specs.Integers.{signed};
ghost use Rattle.bits.specs.Laws.Range.{Within};
ghost use Rattle.products.specs.Products.{long_of, pair_of, sticky_of, total_of, mul_of, mla_of, umull_of, umlal_of, umaal_of, smull_of, smlal_of, half_of, smulxy_of, smlaxy_of, smlalxy_of, smulw_of, smlaw_of, qadd_of, qdadd_of};
ghost use Rattle.products.specs.Duals.{second_of, dual_of, smuad_of, smlad_of, smlald_of, most_of, smmul_of, smmla_of};

use alu::Fitted;

// A result of 64 bits.
#[derive(Clone, Copy)]
pub struct Long {
    pub lo: u32,
    pub hi: u32,
}

impl From<u64> for Long {
    ghost from_gives = { λ w x. x ≡ long_of (pos w) };

    #[tactic(auto, using(bits::specs::Cases::cases, crate::specs::Laws::Products::long_halves))]
    fn from(w: u64) -> Long {
        Long {
            lo: (w % 0x1_0000_0000) as u32,
            hi: (w / 0x1_0000_0000) as u32,
        }
    }
}

impl From<Long> for u64 {
    ghost from_gives = { λ x w. w ≡ pair_of x.lo x.hi };

    fn from(x: Long) -> u64 {
        u64::from(x.hi) * 0x1_0000_0000 + u64::from(x.lo)
    }
}

// Here and below, a product with nothing to add is not its sum with 0: that would add at run time.
pub fn mul(m: u32, s: u32) -> u32
    ensures { result ≡ mul_of m s }
{
    m.wrapping_mul(s)
}

pub fn mla(m: u32, s: u32, n: u32) -> u32
    ensures { result ≡ mla_of m s n }
{
    m.wrapping_mul(s).wrapping_add(n)
}

#[tactic(auto, using(bits::specs::Cases::cases), unfolding(crate::specs::Products::umull_of))]
pub fn umull(m: u32, s: u32) -> Long
    ensures { result ≡ umull_of m s }
{
    Long::from(bits::widening_mul(m, s))
}

#[tactic(auto, using(bits::specs::Cases::cases, crate::specs::Laws::Products::long_wrapping), unfolding(crate::specs::Products::umlal_of))]
pub fn umlal(m: u32, s: u32, sum: Long) -> Long
    ensures { result ≡ umlal_of m s sum.lo sum.hi }
{
    Long::from(bits::widening_mul(m, s).wrapping_add(u64::from(sum)))
}

// Two words are added, not one sum of 64 bits.
#[tactic(auto, using(bits::specs::Cases::cases), unfolding(crate::specs::Products::umaal_of))]
pub fn umaal(m: u32, s: u32, lo: u32, hi: u32) -> Long
    ensures { result ≡ umaal_of m s lo hi }
{
    Long::from(bits::widening_mul(m, s) + u64::from(lo) + u64::from(hi))
}

// The signed product of two words.
fn words(m: u32, s: u32) -> i64
    ensures { (result ≡ signed 32 m *ℤ signed 32 s) × Within (2 ^ 62) result }
{
    bits::signed(m, 32) * bits::signed(s, 32)
}

#[tactic(auto, using(bits::specs::Cases::cases, bits::specs::Laws::Wrap::wrap_add, crate::specs::Laws::Products::long_wrapped))]
fn accumulate(z: i64, sum: Long) -> Long
    ensures { result ≡ long_of (z +ℤ pos (pair_of sum.lo sum.hi)) }
{
    Long::from(bits::wrap_long(z).wrapping_add(u64::from(sum)))
}

#[tactic(auto, using(bits::specs::Cases::cases, crate::specs::Laws::Products::long_wrapped, bits::specs::Laws::Range::heard), unfolding(crate::specs::Products::smull_of))]
pub fn smull(m: u32, s: u32) -> Long
    ensures { result ≡ smull_of m s }
{
    Long::from(bits::wrap_long(words(m, s)))
}

#[tactic(auto, using(bits::specs::Cases::cases), unfolding(crate::specs::Products::smlal_of))]
pub fn smlal(m: u32, s: u32, sum: Long) -> Long
    ensures { result ≡ smlal_of m s sum.lo sum.hi }
{
    accumulate(words(m, s), sum)
}

// Flags, not closures, here and below: `top`, `x`, `y` and `subtract` are bits of the opcode, and the definitions take them.
#[tactic(auto, using(bits::specs::Cases::cases), unfolding(crate::specs::Products::half_of))]
fn half(w: u32, top: bool) -> i64
    ensures { (result ≡ half_of w top) × Within (2 ^ 15) result }
{
    if top {
        bits::signed(w / 65536, 16)
    } else {
        bits::signed(w, 16)
    }
}

// The product of the two halves that x and y pick.
fn halves(m: u32, s: u32, x: bool, y: bool) -> i64
    ensures { (result ≡ half_of m x *ℤ half_of s y) × Within (2 ^ 30) result }
{
    half(m, x) * half(s, y)
}

#[tactic(auto, using(bits::specs::Cases::cases), unfolding(crate::specs::Products::sticky_of, bits::specs::Integers::outside))]
fn mark(z: i64) -> Fitted
    ensures { result ≡ sticky_of z }
{
    Fitted {
        value: bits::wrap_word(z),
        q: (z < -0x8000_0000) | (0x7FFF_FFFF < z),
    }
}

#[tactic(auto, using(bits::specs::Cases::cases), unfolding(crate::specs::Products::smulxy_of))]
pub fn smulxy(m: u32, s: u32, x: bool, y: bool) -> u32
    ensures { result ≡ smulxy_of m s x y }
{
    bits::wrap_word(halves(m, s, x, y))
}

#[tactic(auto, using(bits::specs::Cases::cases), unfolding(crate::specs::Products::smlaxy_of))]
pub fn smlaxy(m: u32, s: u32, n: u32, x: bool, y: bool) -> Fitted
    ensures { result ≡ smlaxy_of m s n x y }
{
    mark(halves(m, s, x, y) + bits::signed(n, 32))
}

#[tactic(auto, using(bits::specs::Cases::cases), unfolding(crate::specs::Products::smlalxy_of))]
pub fn smlalxy(m: u32, s: u32, sum: Long, x: bool, y: bool) -> Long
    ensures { result ≡ smlalxy_of m s sum.lo sum.hi x y }
{
    accumulate(halves(m, s, x, y), sum)
}

#[tactic(auto, using(bits::specs::Cases::cases), unfolding(crate::specs::Products::smulw_of))]
pub fn smulw(m: u32, s: u32, y: bool) -> u32
    ensures { result ≡ smulw_of m s y }
{
    (bits::wrap_long(bits::signed(m, 32) * half(s, y)) / 65536 % 0x1_0000_0000) as u32
}

#[tactic(auto, using(bits::specs::Cases::cases), unfolding(crate::specs::Products::smlaw_of))]
pub fn smlaw(m: u32, s: u32, n: u32, y: bool) -> Fitted
    ensures { result ≡ smlaw_of m s n y }
{
    mark(bits::signed(smulw(m, s, y), 32) + bits::signed(n, 32))
}

// Not one with `lanes::add_or_subtract`: one `if` under other bounds, and each chapter has its own definition of it.
#[tactic(auto, using(bits::specs::Cases::cases), unfolding(crate::specs::Products::total_of))]
fn total(x: i64, y: i64, subtract: bool) -> i64
    requires { Within (2 ^ 32) x × Within (2 ^ 62) y }
    ensures { (result ≡ total_of x y subtract) × Within (2 ^ 32 + 2 ^ 62) result }
{
    if subtract { x - y } else { x + y }
}

#[tactic(auto, using(bits::specs::Cases::cases), unfolding(crate::specs::Products::qadd_of))]
pub fn qadd(m: u32, n: u32, subtract: bool) -> Fitted
    ensures { result ≡ qadd_of m n subtract }
{
    alu::saturate_i32(total(bits::signed(m, 32), bits::signed(n, 32), subtract))
}

#[tactic(auto, using(bits::specs::Cases::cases), unfolding(crate::specs::Products::qdadd_of, crate::specs::Products::doubled_of))]
pub fn qdadd(m: u32, n: u32, subtract: bool) -> Fitted
    ensures { result ≡ qdadd_of m n subtract }
{
    let doubled = alu::saturate_i32(bits::signed(n, 32) * 2);
    let sum = qadd(m, doubled.value, subtract);
    Fitted {
        value: sum.value,
        q: doubled.q | sum.q,
    }
}

#[tactic(auto, using(bits::specs::Cases::cases), unfolding(crate::specs::Duals::second_of))]
fn second(s: u32, x: bool) -> u32
    ensures { result ≡ second_of s x }
{
    if x { bits::rotate_right(s, 16) } else { s }
}

#[tactic(auto, using(bits::specs::Cases::cases), unfolding(crate::specs::Duals::dual_of))]
fn dual(m: u32, s: u32, subtract: bool, x: bool) -> i64
    ensures { (result ≡ dual_of m s subtract x) × Within (2 ^ 32 + 2 ^ 62) result }
{
    let b = second(s, x);
    total(
        halves(m, b, false, false),
        halves(m, b, true, true),
        subtract,
    )
}

#[tactic(auto, using(bits::specs::Cases::cases), unfolding(crate::specs::Duals::smuad_of))]
pub fn smuad(m: u32, s: u32, subtract: bool, x: bool) -> Fitted
    ensures { result ≡ smuad_of m s subtract x }
{
    mark(dual(m, s, subtract, x))
}

#[tactic(auto, using(bits::specs::Cases::cases), unfolding(crate::specs::Duals::smlad_of))]
pub fn smlad(m: u32, s: u32, n: u32, subtract: bool, x: bool) -> Fitted
    ensures { result ≡ smlad_of m s n subtract x }
{
    mark(dual(m, s, subtract, x) + bits::signed(n, 32))
}

#[tactic(auto, using(bits::specs::Cases::cases), unfolding(crate::specs::Duals::smlald_of))]
pub fn smlald(m: u32, s: u32, sum: Long, subtract: bool, x: bool) -> Long
    ensures { result ≡ smlald_of m s sum.lo sum.hi subtract x }
{
    accumulate(dual(m, s, subtract, x), sum)
}

// The base is below 2^64 - 2^31, so that rounding fits.
#[tactic(auto, using(bits::specs::Cases::cases, bits::specs::Laws::Range::heard, crate::specs::Laws::Duals::most_law))]
fn most(base: u64, m: u32, s: u32, subtract: bool, r: bool) -> u32
    requires { base + 2 ^ 31 < 2 ^ 64 }
    ensures { result ≡ most_of (pos base) m s subtract r }
{
    let product = bits::wrap_long(total(0, words(m, s), subtract));
    let sum = product.wrapping_add(base + u64::from(r) * 0x8000_0000);
    (sum / 0x1_0000_0000) as u32
}

#[tactic(auto, using(bits::specs::Cases::cases), unfolding(crate::specs::Duals::smmul_of))]
pub fn smmul(m: u32, s: u32, subtract: bool, r: bool) -> u32
    ensures { result ≡ smmul_of m s subtract r }
{
    most(0, m, s, subtract, r)
}

#[tactic(auto, using(bits::specs::Cases::cases, crate::specs::Laws::Duals::base_is), unfolding(crate::specs::Duals::smmla_of))]
pub fn smmla(m: u32, s: u32, n: u32, subtract: bool, r: bool) -> u32
    ensures { result ≡ smmla_of m s n subtract r }
{
    most(u64::from(n) * 0x1_0000_0000, m, s, subtract, r)
}
