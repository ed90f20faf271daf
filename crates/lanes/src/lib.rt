// The arithmetic of the media instructions on numbers and on four byte lanes: parallel sums, selection, packing, extension, saturation.
#![tactic(auto, using(bits::specs::Cases::cases))]

ghost use Rattle.std.specs.Prelude.{◌≡◌, pos, ◌+ℤ◌, ◌+◌, ◌*◌, ◌%◌, ◌^◌, ◌<◌, ◌≤◌, IfSome};
ghost use Rattle.bits.specs.Cases.{when◌then◌else◌};
ghost use Rattle.bits.specs.Integers.{wrap};
ghost use Rattle.bits.specs.Laws.Range.{Within};
ghost use Rattle.lanes.specs.Parallel.{result_of, signed_of, unsigned_of, wrapped_of, kept_of, halved_of, unsigned_from, lane_of, low_of, high_of, sets_ge, ge_of, halves_of, bytes_of, bytewise_of, parallel_of};
ghost use Rattle.lanes.specs.Bytes.{sel_of, distances_of, usad8_of, usada8_of};
ghost use Rattle.lanes.specs.Packing.{pkhbt_of, pkhtb_of, added_halves, added_of, extend_of};
ghost use Rattle.lanes.specs.Saturation.{ssat_of, usat_of, ssat16_of, usat16_of, beside_of};

use alu::Fitted;

// The manual's prefixes S, Q, SH, U, UQ, UH.
#[derive(Clone, Copy)]
pub enum Variant {
    Signed,
    Saturating,
    SignedHalving,
    Unsigned,
    UnsignedSaturating,
    UnsignedHalving,
}

// Asx and Sax are ADDSUBX and SUBADDX.
#[derive(Clone, Copy)]
pub enum Operation {
    Add16,
    Asx,
    Sax,
    Sub16,
    Add8,
    Sub8,
}

#[derive(Clone, Copy)]
pub enum Extension {
    Sxtab16,
    Sxtab,
    Sxtah,
    Uxtab16,
    Uxtab,
    Uxtah,
}

#[derive(Clone, Copy)]
pub struct Lane {
    pub value: u32,
    pub ge: bool,
}

// Four byte lanes, the lowest first; GE where the variant sets it.
#[derive(Clone, Copy)]
pub struct Combined {
    pub lanes: [u8; 4],
    pub ge: Option<u8>,
}

// An integer modulo 2^width.
#[tactic(auto, using(bits::specs::Cases::cases, bits::specs::Laws::Wrap::wrap_low))]
fn wrap_bits(width: u32, z: i64) -> u32
    requires { width ≤ 32 }
    ensures { (result ≡ wrap width z) × (result < 2 ^ width) }
{
    bits::low_bits(bits::wrap_word(z), width)
}

// `sub` is a flag here and below, not a closure: the definitions take it.
#[tactic(auto, using(bits::specs::Cases::cases), unfolding(crate::specs::Parallel::result_of))]
fn add_or_subtract(sub: bool, p: i64, q: i64) -> i64
    requires { Within 4294967296 p × Within 4294967296 q }
    ensures { result ≡ result_of sub p q }
{
    if sub { p - q } else { p + q }
}

// Widths are 8 and 16, as numbers: the definitions raise 2 to them, so an enum would be turned back at each place.
#[tactic(auto, using(bits::specs::Cases::cases, bits::specs::Laws::Range::read_back, crate::specs::Laws::Lanes::lane_heard))]
fn combine_signed(width: u32, sub: bool, x: u32, y: u32) -> i64
    requires { (0 < width) × (width ≤ 16) × (x < 2 ^ width) × (y < 2 ^ width) }
    ensures { result ≡ signed_of width sub x y }
{
    add_or_subtract(sub, bits::signed(x, width), bits::signed(y, width))
}

fn combine_unsigned(sub: bool, x: u32, y: u32) -> i64
    ensures { result ≡ unsigned_of sub x y }
{
    add_or_subtract(sub, i64::from(x), i64::from(y))
}

// The exact result modulo 2^width; GE where it is not below `from`.
fn wrap_lane(width: u32, z: i64, from: u64) -> Lane
    requires { (width ≤ 16) × (from ≤ 2 ^ 16) }
    ensures { (result ≡ wrapped_of width from z) × (result.value < 2 ^ width) }
{
    Lane {
        value: wrap_bits(width, z),
        ge: from as i64 <= z,
    }
}

// A saturated result in its lane.
fn keep_lane(width: u32, kept: Fitted) -> Lane
    requires { width ≤ 16 }
    ensures { (result ≡ kept_of width kept) × (result.value < 2 ^ width) }
{
    Lane {
        value: bits::low_bits(kept.value, width),
        ge: false,
    }
}

// Half of the exact result, rounded down.
fn halve_lane(width: u32, z: i64) -> Lane
    requires { width ≤ 16 }
    ensures { (result ≡ halved_of width z) × (result.value < 2 ^ width) }
{
    Lane {
        value: wrap_bits(width, z >> 1),
        ge: false,
    }
}

// The least exact result that sets GE of an unsigned lane.
#[tactic(auto, using(bits::specs::Cases::cases), unfolding(crate::specs::Parallel::unsigned_from))]
fn unsigned_from(width: u32, sub: bool) -> u64
    requires { width ≤ 16 }
    ensures { (result ≡ unsigned_from width sub) × (result ≤ 2 ^ 16) }
{
    if sub { 0 } else { bits::power(width) }
}

// One lane.
#[tactic(auto, using(bits::specs::Cases::cases), unfolding(crate::specs::Parallel::lane_of))]
fn combine(variant: Variant, width: u32, sub: bool, x: u32, y: u32) -> Lane
    requires { (0 < width) × (width ≤ 16) × (x < 2 ^ width) × (y < 2 ^ width) }
    ensures { (result ≡ lane_of variant width sub x y) × (result.value < 2 ^ width) }
{
    match variant {
        Variant::Signed => wrap_lane(width, combine_signed(width, sub, x, y), 0),
        Variant::Saturating => {
            keep_lane(
                width,
                alu::signed_saturate(combine_signed(width, sub, x, y), width),
            )
        }
        Variant::SignedHalving => halve_lane(width, combine_signed(width, sub, x, y)),
        Variant::Unsigned => {
            wrap_lane(
                width,
                combine_unsigned(sub, x, y),
                unsigned_from(width, sub),
            )
        }
        Variant::UnsignedSaturating => {
            keep_lane(
                width,
                alu::unsigned_saturate(combine_unsigned(sub, x, y), width),
            )
        }
        Variant::UnsignedHalving => halve_lane(width, combine_unsigned(sub, x, y)),
    }
}

// Bits 15-0 and 31-16 of a word of four bytes.
fn low_of(w: [u8; 4]) -> u32
    ensures { (result ≡ low_of w) × (result < 2 ^ 16) }
{
    u32::from(u16::from_le_bytes([w[0], w[1]]))
}

fn high_of(w: [u8; 4]) -> u32
    ensures { (result ≡ high_of w) × (result < 2 ^ 16) }
{
    u32::from(u16::from_le_bytes([w[2], w[3]]))
}

fn join_ge(a: bool, b: bool, c: bool, d: bool) -> u8
    ensures { result ≡ ge_of a b c d }
{
    u8::from(a) + u8::from(b) * 2 + u8::from(c) * 4 + u8::from(d) * 8
}

// S and U set GE.
pub fn sets_ge(variant: Variant) -> bool
    ensures { result ≡ sets_ge variant }
{
    matches!(variant, Variant::Signed | Variant::Unsigned)
}

#[tactic(auto, using(bits::specs::Cases::cases), unfolding(crate::specs::Parallel::halves_of))]
fn join_halves(variant: Variant, low: Lane, high: Lane) -> Combined
    requires { (low.value < 2 ^ 16) × (high.value < 2 ^ 16) }
    ensures { result ≡ halves_of variant low high }
{
    let p = (low.value as u16).to_le_bytes();
    let q = (high.value as u16).to_le_bytes();
    Combined {
        lanes: [p[0], p[1], q[0], q[1]],
        ge: sets_ge(variant).then_some(join_ge(low.ge, low.ge, high.ge, high.ge)),
    }
}

#[tactic(auto, using(bits::specs::Cases::cases), unfolding(crate::specs::Parallel::bytes_of))]
fn join_bytes(variant: Variant, a: Lane, b: Lane, c: Lane, d: Lane) -> Combined
    requires { (a.value < 2 ^ 8) × (b.value < 2 ^ 8) × (c.value < 2 ^ 8) × (d.value < 2 ^ 8) }
    ensures { result ≡ bytes_of variant a b c d }
{
    Combined {
        lanes: [a.value as u8, b.value as u8, c.value as u8, d.value as u8],
        ge: sets_ge(variant).then_some(join_ge(a.ge, b.ge, c.ge, d.ge)),
    }
}

fn combine_bytes(variant: Variant, sub: bool, x: u8, y: u8) -> Lane
    ensures { (result ≡ lane_of variant 8 sub x y) × (result.value < 2 ^ 8) }
{
    combine(variant, 8, sub, u32::from(x), u32::from(y))
}

// Bytes are written out here and below, as the definitions have them: with `from_fn` the proof of what its four calls gave did not close.
#[tactic(auto, using(bits::specs::Cases::cases), unfolding(crate::specs::Parallel::bytewise_of))]
fn bytewise(variant: Variant, sub: bool, n: [u8; 4], m: [u8; 4]) -> Combined
    ensures { result ≡ bytewise_of variant sub n m }
{
    join_bytes(
        variant,
        combine_bytes(variant, sub, n[0], m[0]),
        combine_bytes(variant, sub, n[1], m[1]),
        combine_bytes(variant, sub, n[2], m[2]),
        combine_bytes(variant, sub, n[3], m[3]),
    )
}

// A word with its halves exchanged.
fn exchange(w: [u8; 4]) -> [u8; 4]
    ensures { (low_of result ≡ high_of w) × (high_of result ≡ low_of w) }
{
    [w[2], w[3], w[0], w[1]]
}

// The halves are read here and not before the match over the operation, so that the bytes stay together for `bytewise`.
fn halfwise(variant: Variant, sublow: bool, subhigh: bool, n: [u8; 4], m: [u8; 4]) -> Combined
    ensures { result ≡ halves_of variant (lane_of variant 16 sublow (low_of n) (low_of m)) (lane_of variant 16 subhigh (high_of n) (high_of m)) }
{
    join_halves(
        variant,
        combine(variant, 16, sublow, low_of(n), low_of(m)),
        combine(variant, 16, subhigh, high_of(n), high_of(m)),
    )
}

// The parallel add and subtract instructions, on the bytes of Rn and Rm.
#[tactic(auto, using(bits::specs::Cases::cases, crate::specs::Laws::Ge::halves_below, crate::specs::Laws::Ge::bytewise_below), unfolding(crate::specs::Parallel::parallel_of))]
pub fn parallel(variant: Variant, operation: Operation, n: [u8; 4], m: [u8; 4]) -> Combined
    ensures { (result ≡ parallel_of variant operation n m) × IfSome result.ge (λ ge. ge < 16) }
{
    match operation {
        Operation::Add16 => halfwise(variant, false, false, n, m),
        Operation::Asx => halfwise(variant, true, false, n, exchange(m)),
        Operation::Sax => halfwise(variant, false, true, n, exchange(m)),
        Operation::Sub16 => halfwise(variant, true, true, n, m),
        Operation::Add8 => bytewise(variant, false, n, m),
        Operation::Sub8 => bytewise(variant, true, n, m),
    }
}

fn pick(set: bool, x: u8, y: u8) -> u8
    ensures { result ≡ (when set then x else y) }
{
    if set { x } else { y }
}

// SEL, of the bytes of Rn and Rm.
#[tactic(auto, using(bits::specs::Cases::cases), unfolding(crate::specs::Bytes::sel_of))]
pub fn select(ge: u8, n: [u8; 4], m: [u8; 4]) -> [u8; 4]
    ensures { result ≡ sel_of ge n m }
{
    [
        pick(ge % 2 == 1, n[0], m[0]),
        pick(ge / 2 % 2 == 1, n[1], m[1]),
        pick(ge / 4 % 2 == 1, n[2], m[2]),
        pick(ge / 8 % 2 == 1, n[3], m[3]),
    ]
}

// The distance of each byte of Rm to that of Rs.
#[tactic(auto, using(bits::specs::Cases::cases, crate::specs::Laws::Lanes::distance_is))]
pub fn measure(m: [u8; 4], s: [u8; 4]) -> [u8; 4]
    ensures { result ≡ distances_of m s }
{
    [
        m[0].abs_diff(s[0]),
        m[1].abs_diff(s[1]),
        m[2].abs_diff(s[2]),
        m[3].abs_diff(s[3]),
    ]
}

fn sum_bytes(a: u8, b: u8, c: u8, d: u8) -> u32
    ensures { (result ≡ a + b + c + d) × (result ≤ 1020) }
{
    u32::from(a) + u32::from(b) + u32::from(c) + u32::from(d)
}

// USAD8, of the bytes of Rm and Rs.
#[tactic(auto, using(bits::specs::Cases::cases), unfolding(crate::specs::Bytes::usad8_of))]
pub fn usad8(m: [u8; 4], s: [u8; 4]) -> u32
    ensures { (result ≡ usad8_of m s) × (result ≤ 1020) }
{
    let d = measure(m, s);
    sum_bytes(d[0], d[1], d[2], d[3])
}

// USADA8.
#[tactic(auto, using(bits::specs::Cases::cases), unfolding(crate::specs::Bytes::usada8_of))]
pub fn usada8(m: [u8; 4], s: [u8; 4], n: u32) -> u32
    ensures { result ≡ usada8_of m s n }
{
    n.wrapping_add(usad8(m, s))
}

// PKHBT, with the shifted Rm.
pub fn pkhbt(n: u32, m: u32) -> u32
    ensures { result ≡ pkhbt_of n m }
{
    n % 65536 + m / 65536 % 65536 * 65536
}

// PKHTB, with the shifted Rm.
pub fn pkhtb(n: u32, m: u32) -> u32
    ensures { result ≡ pkhtb_of n m }
{
    pkhbt(m, n)
}

// A number added to a word or a half.
fn accumulate(width: u32, n: u32, z: i64) -> u32
    requires { (width ≤ 32) × Within 65536 z }
    ensures { (result ≡ wrap width (pos n +ℤ z)) × (result < 2 ^ width) }
{
    wrap_bits(width, i64::from(n) + z)
}

fn accumulate_halves(n: u32, low: i64, high: i64) -> u32
    requires { Within 65536 low × Within 65536 high }
    ensures { result ≡ added_halves n low high }
{
    let p = accumulate(16, n % 65536, low);
    let q = accumulate(16, n / 65536 % 65536, high);
    p + q * 65536
}

#[tactic(auto, using(bits::specs::Cases::cases), unfolding(crate::specs::Packing::added_of))]
fn add_extended(extension: Extension, n: u32, m: u32) -> u32
    ensures { result ≡ added_of extension n m }
{
    match extension {
        Extension::Sxtab16 => accumulate_halves(n, bits::signed(m, 8), bits::signed(m / 65536, 8)),
        Extension::Sxtab => accumulate(32, n, bits::signed(m, 8)),
        Extension::Sxtah => accumulate(32, n, bits::signed(m, 16)),
        Extension::Uxtab16 => {
            accumulate_halves(n, i64::from(m % 256), i64::from(m / 65536 % 256))
        }
        Extension::Uxtab => n.wrapping_add(m % 256),
        Extension::Uxtah => n.wrapping_add(m % 65536),
    }
}

// The extensions: m rotated right by 8 times the rotate field; n is 0 for those that add to no register.
pub fn extend(extension: Extension, n: u32, m: u32, rotate: u32) -> u32
    requires { rotate < 4 }
    ensures { result ≡ extend_of extension n m rotate }
{
    add_extended(extension, n, bits::rotate_right(m, 8 * rotate))
}

// SSAT and USAT, of the shifted operand: two functions, here and for the 16s, since the widths that they take differ.
pub fn ssat(width: u32, x: u32) -> Fitted
    requires { (0 < width) × (width ≤ 32) }
    ensures { result ≡ ssat_of width x }
{
    alu::signed_saturate(bits::signed(x, 32), width)
}

pub fn usat(width: u32, x: u32) -> Fitted
    requires { width < 32 }
    ensures { result ≡ usat_of width x }
{
    alu::unsigned_saturate(bits::signed(x, 32), width)
}

// Two halves side by side, saturated if either is.
#[tactic(auto, using(bits::specs::Cases::cases), unfolding(crate::specs::Saturation::beside_of))]
fn beside(low: Fitted, high: Fitted) -> Fitted
    ensures { result ≡ beside_of low high }
{
    Fitted {
        value: low.value % 65536 + high.value % 65536 * 65536,
        q: low.q | high.q,
    }
}

// SSAT16 and USAT16.
pub fn ssat16(width: u32, x: u32) -> Fitted
    requires { (0 < width) × (width ≤ 16) }
    ensures { result ≡ ssat16_of width x }
{
    let low = alu::signed_saturate(bits::signed(x, 16), width);
    let high = alu::signed_saturate(bits::signed(x / 65536, 16), width);
    beside(low, high)
}

pub fn usat16(width: u32, x: u32) -> Fitted
    requires { width < 16 }
    ensures { result ≡ usat16_of width x }
{
    let low = alu::unsigned_saturate(bits::signed(x, 16), width);
    let high = alu::unsigned_saturate(bits::signed(x / 65536, 16), width);
    beside(low, high)
}
