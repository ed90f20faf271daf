// The ARMv6 media instructions, on lent registers.
#![tactic(auto, using(bits::specs::Cases::cases))]

ghost use Rattle.std.specs.Prelude.{◌≡◌, ◌<◌};
ghost use Rattle.media.specs.Media.{variant_of, operation_of, combined_of, parallel_family_of, shifted_of, packed_of, saturate_of, saturate16_of, extension_of, addend_of, extend_family_of, selected_of, reversal_of, packing_of, dual_word_of, dual_long_of, most_word_of, dual_multiply_of, usad_of, media_of};

use cpu::Outcome;
use lanes::{Combined, Extension, Operation, Variant};
use products::Long;
use shifter::ShiftType;

#[tactic(auto, using(bits::specs::Cases::cases), unfolding(crate::specs::Media::variant_of))]
fn variant_of(k: u32) -> Option<Variant>
    ensures { result ≡ variant_of k }
{
    match k {
        1 => Some(Variant::Signed),
        2 => Some(Variant::Saturating),
        3 => Some(Variant::SignedHalving),
        5 => Some(Variant::Unsigned),
        6 => Some(Variant::UnsignedSaturating),
        7 => Some(Variant::UnsignedHalving),
        _ => None,
    }
}

#[tactic(auto, using(bits::specs::Cases::cases), unfolding(crate::specs::Media::operation_of))]
fn operation_of(k: u32) -> Option<Operation>
    ensures { result ≡ operation_of k }
{
    match k {
        0 => Some(Operation::Add16),
        1 => Some(Operation::Asx),
        2 => Some(Operation::Sax),
        3 => Some(Operation::Sub16),
        4 => Some(Operation::Add8),
        7 => Some(Operation::Sub8),
        _ => None,
    }
}

#[tactic(auto, using(bits::specs::Cases::cases), unfolding(crate::specs::Media::combined_of, crate::specs::Media::put_with))]
fn put_combined(regs: &mut [u32; 16], op: u32, x: Combined) -> Outcome
    ensures { (result, regs.new) ≡ combined_of regs.old op x }
{
    let value = bits::join(x.lanes);
    match x.ge {
        Some(ge) => {
            regs[(op / 4096 % 16) as usize] = value;
            regs[15] = regs[15].wrapping_sub(4);
            Outcome::Lanes(ge)
        }
        None => cpu::put(regs, op / 4096 % 16, value),
    }
}

// Parallel add and subtract.
#[tactic(auto, using(bits::specs::Cases::cases), unfolding(crate::specs::Media::parallel_family_of, crate::specs::Media::in_parallel_of))]
fn parallel(regs: &mut [u32; 16], op: u32) -> Outcome
    ensures { (result, regs.new) ≡ parallel_family_of regs.old op }
{
    match (variant_of(op / 1048576 % 8), operation_of(op / 32 % 8)) {
        (Some(variant), Some(operation)) => {
            let n = bits::split(regs[(op / 65536 % 16) as usize]);
            let m = bits::split(regs[(op % 16) as usize]);
            put_combined(regs, op, lanes::parallel(variant, operation, n, m))
        }
        _ => cpu::refuse(regs, op),
    }
}

#[tactic(auto, using(bits::specs::Cases::cases), unfolding(crate::specs::Media::shifted_of))]
fn shift(regs: &[u32; 16], op: u32) -> u32
    ensures { result ≡ shifted_of regs.now op }
{
    let m = regs[(op % 16) as usize];
    let ty = if op / 64 % 2 == 1 {
        ShiftType::Asr
    } else {
        ShiftType::Lsl
    };
    shifter::by_immediate(ty, m, op / 128 % 32, false).value
}

// PKHBT, PKHTB.
#[tactic(auto, using(bits::specs::Cases::cases), unfolding(crate::specs::Media::packed_of))]
fn pkh(regs: &mut [u32; 16], op: u32) -> Outcome
    ensures { (result, regs.new) ≡ packed_of regs.old op }
{
    let n = regs[(op / 65536 % 16) as usize];
    let m = shift(regs, op);
    if op / 64 % 2 == 1 {
        cpu::put(regs, op / 4096 % 16, lanes::pkhtb(n, m))
    } else {
        cpu::put(regs, op / 4096 % 16, lanes::pkhbt(n, m))
    }
}

// SSAT, USAT; not one function with the next, since the operand and the width have other fields.
#[tactic(auto, using(bits::specs::Cases::cases), unfolding(crate::specs::Media::saturate_of))]
fn saturate32(regs: &mut [u32; 16], op: u32) -> Outcome
    ensures { (result, regs.new) ≡ saturate_of regs.old op }
{
    let m = shift(regs, op);
    if op / 4194304 % 2 == 1 {
        multiply::mark(regs, op / 4096 % 16, lanes::usat(op / 65536 % 32, m))
    } else {
        multiply::mark(regs, op / 4096 % 16, lanes::ssat(op / 65536 % 32 + 1, m))
    }
}

// SSAT16, USAT16.
#[tactic(auto, using(bits::specs::Cases::cases), unfolding(crate::specs::Media::saturate16_of))]
fn saturate16(regs: &mut [u32; 16], op: u32) -> Outcome
    ensures { (result, regs.new) ≡ saturate16_of regs.old op }
{
    let m = regs[(op % 16) as usize];
    if op / 4194304 % 2 == 1 {
        multiply::mark(regs, op / 4096 % 16, lanes::usat16(op / 65536 % 16, m))
    } else {
        multiply::mark(regs, op / 4096 % 16, lanes::ssat16(op / 65536 % 16 + 1, m))
    }
}

#[tactic(auto, using(bits::specs::Cases::cases), unfolding(crate::specs::Media::extension_of))]
fn extension_of(k: u32) -> Option<Extension>
    ensures { result ≡ extension_of k }
{
    match k {
        0 => Some(Extension::Sxtab16),
        2 => Some(Extension::Sxtab),
        3 => Some(Extension::Sxtah),
        4 => Some(Extension::Uxtab16),
        6 => Some(Extension::Uxtab),
        7 => Some(Extension::Uxtah),
        _ => None,
    }
}

#[tactic(auto, using(bits::specs::Cases::cases), unfolding(crate::specs::Media::addend_of))]
fn addend(regs: &[u32; 16], op: u32) -> u32
    ensures { result ≡ addend_of regs.now op }
{
    if op / 65536 % 16 == 15 {
        0
    } else {
        regs[(op / 65536 % 16) as usize]
    }
}

// SXTAB16, SXTAB, SXTAH, UXTAB16, UXTAB, UXTAH, and the same with no addend.
#[tactic(auto, using(bits::specs::Cases::cases), unfolding(crate::specs::Media::extend_family_of, crate::specs::Media::extended_of))]
fn extend(regs: &mut [u32; 16], op: u32) -> Outcome
    ensures { (result, regs.new) ≡ extend_family_of regs.old op }
{
    match extension_of(op / 1048576 % 8) {
        Some(extension) => {
            let n = addend(regs, op);
            let m = regs[(op % 16) as usize];
            cpu::put(
                regs,
                op / 4096 % 16,
                lanes::extend(extension, n, m, op / 1024 % 4),
            )
        }
        None => cpu::refuse(regs, op),
    }
}

// SEL.
fn select(regs: &mut [u32; 16], op: u32, ge: u8) -> Outcome
    ensures { (result, regs.new) ≡ selected_of regs.old op ge }
{
    let n = bits::split(regs[(op / 65536 % 16) as usize]);
    let m = bits::split(regs[(op % 16) as usize]);
    let value = bits::join(lanes::select(ge, n, m));
    cpu::put(regs, op / 4096 % 16, value)
}

// REV, REV16, RBIT, REVSH.
#[tactic(auto, using(bits::specs::Cases::cases), unfolding(crate::specs::Media::reversal_of))]
fn reverse(regs: &mut [u32; 16], op: u32) -> Outcome
    ensures { (result, regs.new) ≡ reversal_of regs.old op }
{
    let rd = op / 4096 % 16;
    let m = regs[(op % 16) as usize];
    match (op / 1048576 % 8, op / 32 % 8) {
        (3, 1) => cpu::put(regs, rd, bits::swap_bytes(m)),
        (3, 5) => cpu::put(regs, rd, bits::swap_bytes_in_halves(m)),
        (7, 1) => cpu::put(regs, rd, bits::reverse_bits(m)),
        (7, 5) => cpu::put(regs, rd, bits::swap_low_half(m)),
        _ => cpu::refuse(regs, op),
    }
}

// Tests before the `match`: bits 7-5 choose in part by being even.
#[tactic(auto, using(bits::specs::Cases::cases), unfolding(crate::specs::Media::packing_of))]
fn pack_sat_extend(regs: &mut [u32; 16], op: u32, ge: u8) -> Outcome
    ensures { (result, regs.new) ≡ packing_of regs.old op ge }
{
    if !(op / 32 % 2 == 1) {
        if op / 1048576 % 8 == 0 {
            pkh(regs, op)
        } else {
            saturate32(regs, op)
        }
    } else if op / 32 % 8 == 3 {
        extend(regs, op)
    } else {
        match (op / 1048576 % 8, op / 32 % 8) {
            (0, 5) => select(regs, op, ge),
            (2 | 6, 1) => saturate16(regs, op),
            _ => reverse(regs, op),
        }
    }
}

// SMLAD, SMLSD, SMUAD, SMUSD. This, `smmla` and `usad8` have one shape, but other calls and results: one function is no plainer.
#[tactic(auto, using(bits::specs::Cases::cases), unfolding(crate::specs::Media::dual_word_of))]
fn smlad(regs: &mut [u32; 16], op: u32) -> Outcome
    ensures { (result, regs.new) ≡ dual_word_of regs.old op }
{
    let m = regs[(op % 16) as usize];
    let s = regs[(op / 256 % 16) as usize];
    let subtract = op / 64 % 2 == 1;
    let x = op / 32 % 2 == 1;
    if op / 4096 % 16 == 15 {
        multiply::mark(regs, op / 65536 % 16, products::smuad(m, s, subtract, x))
    } else {
        let n = regs[(op / 4096 % 16) as usize];
        multiply::mark(regs, op / 65536 % 16, products::smlad(m, s, n, subtract, x))
    }
}

// SMLALD, SMLSLD.
fn smlald(regs: &mut [u32; 16], op: u32) -> Outcome
    ensures { (result, regs.new) ≡ dual_long_of regs.old op }
{
    let m = regs[(op % 16) as usize];
    let s = regs[(op / 256 % 16) as usize];
    let sum = Long {
        lo: regs[(op / 4096 % 16) as usize],
        hi: regs[(op / 65536 % 16) as usize],
    };
    let subtract = op / 64 % 2 == 1;
    let x = op / 32 % 2 == 1;
    multiply::put_long(regs, op, products::smlald(m, s, sum, subtract, x))
}

// SMMLA, SMMLS, SMMUL.
#[tactic(auto, using(bits::specs::Cases::cases), unfolding(crate::specs::Media::most_word_of))]
fn smmla(regs: &mut [u32; 16], op: u32) -> Outcome
    ensures { (result, regs.new) ≡ most_word_of regs.old op }
{
    let m = regs[(op % 16) as usize];
    let s = regs[(op / 256 % 16) as usize];
    let subtract = op / 64 % 2 == 1;
    let round = op / 32 % 2 == 1;
    if op / 4096 % 16 == 15 {
        cpu::put(
            regs,
            op / 65536 % 16,
            products::smmul(m, s, subtract, round),
        )
    } else {
        let n = regs[(op / 4096 % 16) as usize];
        cpu::put(
            regs,
            op / 65536 % 16,
            products::smmla(m, s, n, subtract, round),
        )
    }
}

#[tactic(auto, using(bits::specs::Cases::cases), unfolding(crate::specs::Media::dual_multiply_of))]
fn dual_multiply(regs: &mut [u32; 16], op: u32) -> Outcome
    ensures { (result, regs.new) ≡ dual_multiply_of regs.old op }
{
    match op / 1048576 % 8 {
        0 => smlad(regs, op),
        4 => smlald(regs, op),
        5 => smmla(regs, op),
        _ => cpu::refuse(regs, op),
    }
}

// USAD8, USADA8.
#[tactic(auto, using(bits::specs::Cases::cases), unfolding(crate::specs::Media::usad_of))]
fn usad8(regs: &mut [u32; 16], op: u32) -> Outcome
    ensures { (result, regs.new) ≡ usad_of regs.old op }
{
    let m = bits::split(regs[(op % 16) as usize]);
    let s = bits::split(regs[(op / 256 % 16) as usize]);
    if op / 4096 % 16 == 15 {
        cpu::put(regs, op / 65536 % 16, lanes::usad8(m, s))
    } else {
        let n = regs[(op / 4096 % 16) as usize];
        cpu::put(regs, op / 65536 % 16, lanes::usada8(m, s, n))
    }
}

#[tactic(auto, using(bits::specs::Cases::cases), unfolding(crate::specs::Media::media_of))]
pub fn execute(regs: &mut [u32; 16], op: u32, ge: u8) -> Outcome
    ensures { (result, regs.new) ≡ media_of regs.old op ge }
{
    match op / 8388608 % 4 {
        0 => parallel(regs, op),
        1 => pack_sat_extend(regs, op, ge),
        2 => dual_multiply(regs, op),
        _ => match (op / 1048576 % 8, op / 32 % 8) {
            (0, 0) => usad8(regs, op),
            _ => cpu::refuse(regs, op),
        },
    }
}
