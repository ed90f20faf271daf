// Sums with carry and overflow, and saturation, on numbers alone.
#![tactic(auto, using(bits::specs::Cases::cases))]

ghost use Rattle.std.specs.Prelude.{◌≡◌, ◌<◌, ◌≤◌};
ghost use Rattle.bits.specs.Laws.Signed.{lifted};
ghost use Rattle.alu.specs.Sums.{add_of, adc_of, sub_of, sbc_of};
ghost use Rattle.alu.specs.Saturation.{saturated_of, signed_sat_of, unsigned_sat_of};

#[derive(Clone, Copy)]
pub struct Sum {
    pub value: u32,
    pub carry: bool,
    pub overflow: bool,
}

// An exact result brought into a word, clamped or wrapped; q: it did not fit, and Q is set where the instruction has one.
#[derive(Clone, Copy)]
pub struct Fitted {
    pub value: u32,
    pub q: bool,
}

// A word with its sign bit turned over: its signed reading and 2^31 more, so that signed order is the order of naturals.
fn lift(x: u32) -> u64
    ensures { (result ≡ lifted 32 x) × (result < 4294967296) }
{
    u64::from(x.wrapping_add(0x8000_0000))
}

#[tactic(auto, using(bits::specs::Cases::cases, crate::specs::Laws::Sums::adc_law))]
pub fn adc_with_flags(a: u32, b: u32, c: bool) -> Sum
    ensures { result ≡ adc_of a b c }
{
    let more = u64::from(c);
    let wide = u64::from(a) + u64::from(b) + more;
    let lifted = lift(a) + lift(b) + more;
    Sum {
        value: (wide % 0x1_0000_0000) as u32,
        carry: 0x1_0000_0000 <= wide,
        overflow: (lifted < 0x8000_0000) | (0x1_8000_0000 <= lifted),
    }
}

// The difference and 2^32 - 1 more, so that a clear carry is one less. Tried as `adc_with_flags(a, !b, c)`: SUB and CMP take an
// instruction more (rustc -O, x86-64).
#[tactic(auto, using(bits::specs::Cases::cases, crate::specs::Laws::Sums::sbc_law))]
pub fn sbc_with_flags(a: u32, b: u32, c: bool) -> Sum
    ensures { result ≡ sbc_of a b c }
{
    let more = u64::from(c);
    let raised = u64::from(a) + 0xFFFF_FFFF - u64::from(b) + more;
    let lifted = lift(a) + 0xFFFF_FFFF - lift(b) + more;
    Sum {
        value: (raised % 0x1_0000_0000) as u32,
        carry: 0x1_0000_0000 <= raised,
        overflow: (lifted < 0x8000_0000) | (0x1_8000_0000 <= lifted),
    }
}

// ADD, and SUB below: public names of docs/CLAIMS.md, each of which hands a constant on; so are the three saturations.
#[tactic(auto, using(bits::specs::Cases::cases, crate::specs::Laws::Sums::add_adc))]
pub fn add_with_flags(a: u32, b: u32) -> Sum
    ensures { result ≡ add_of a b }
{
    adc_with_flags(a, b, false)
}

#[tactic(auto, using(bits::specs::Cases::cases, crate::specs::Laws::Sums::sub_sbc))]
pub fn sub_with_flags(a: u32, b: u32) -> Sum
    ensures { result ≡ sub_of a b }
{
    sbc_with_flags(a, b, true)
}

// Not by `clamp`: that asks for low ≤ high, which each caller would have to prove.
#[tactic(auto, using(bits::specs::Cases::cases, crate::specs::Laws::Saturation::below_low, crate::specs::Laws::Saturation::above_high, crate::specs::Laws::Saturation::between))]
fn saturate(z: i64, low: i64, high: i64) -> Fitted
    ensures { result ≡ saturated_of low high z }
{
    if z < low {
        Fitted {
            value: bits::wrap_word(low),
            q: true,
        }
    } else if high < z {
        Fitted {
            value: bits::wrap_word(high),
            q: true,
        }
    } else {
        Fitted {
            value: bits::wrap_word(z),
            q: false,
        }
    }
}

// Widths are public numbers: a type that holds its bound would ask more of callers.
#[tactic(auto, using(bits::specs::Cases::cases), unfolding(crate::specs::Saturation::signed_sat_of))]
pub fn signed_saturate(z: i64, width: u32) -> Fitted
    requires { (0 < width) × (width ≤ 32) }
    ensures { result ≡ signed_sat_of width z }
{
    let top = bits::power(width - 1) as i64;
    saturate(z, 0 - top, top - 1)
}

#[tactic(auto, using(bits::specs::Cases::cases), unfolding(crate::specs::Saturation::unsigned_sat_of))]
pub fn unsigned_saturate(z: i64, width: u32) -> Fitted
    requires { width < 32 }
    ensures { result ≡ unsigned_sat_of width z }
{
    saturate(z, 0, bits::power(width) as i64 - 1)
}

pub fn saturate_i32(z: i64) -> Fitted
    ensures { result ≡ signed_sat_of 32 z }
{
    signed_saturate(z, 32)
}
