// The multiplies and the saturating sums, on lent registers.
#![tactic(auto, using(bits::specs::Cases::cases))]

ghost use Rattle.std.specs.Prelude.{◌≡◌, ◌<◌};
ghost use Rattle.multiply.specs.Multiply.{long_put_of, settled_of, short_of, wide_of, wide_settled_of, long_multiply_of, marked_of, halfword_of, saturating_of};

use alu::Fitted;
use cpu::Outcome;
use products::Long;

// c and v go as they are, here and below: a pair of them is no plainer, and the definitions take them apart.
#[tactic(auto, using(bits::specs::Cases::cases), unfolding(crate::specs::Multiply::settled_of))]
fn settle(regs: &mut [u32; 16], op: u32, value: u32, c: bool, v: bool) -> Outcome
    ensures { (result, regs.new) ≡ settled_of regs.old op value c v }
{
    let rd = op / 65536 % 16;
    if op / 1048576 % 2 == 1 {
        regs[rd as usize] = value;
        regs[15] = regs[15].wrapping_sub(4);
        cpu::set_flags_of(value, c, v)
    } else {
        cpu::put(regs, rd, value)
    }
}

// MUL, MLA.
#[tactic(auto, using(bits::specs::Cases::cases), unfolding(crate::specs::Multiply::short_of))]
pub fn short(regs: &mut [u32; 16], op: u32, c: bool, v: bool) -> Outcome
    ensures { (result, regs.new) ≡ short_of regs.old op c v }
{
    let m = regs[(op % 16) as usize];
    let s = regs[(op / 256 % 16) as usize];
    let value = if op / 2097152 % 2 == 1 {
        products::mla(m, s, regs[(op / 4096 % 16) as usize])
    } else {
        products::mul(m, s)
    };
    settle(regs, op, value, c, v)
}

// A long result in RdLo and RdHi.
pub fn put_long(regs: &mut [u32; 16], op: u32, x: Long) -> Outcome
    ensures { (result, regs.new) ≡ long_put_of regs.old op x }
{
    regs[(op / 4096 % 16) as usize] = x.lo;
    cpu::put(regs, op / 65536 % 16, x.hi)
}

#[tactic(auto, using(bits::specs::Cases::cases), unfolding(crate::specs::Multiply::wide_settled_of))]
fn settle_long(regs: &mut [u32; 16], op: u32, x: Long, c: bool, v: bool) -> Outcome
    ensures { (result, regs.new) ≡ wide_settled_of regs.old op x c v }
{
    if op / 1048576 % 2 == 1 {
        regs[(op / 4096 % 16) as usize] = x.lo;
        regs[(op / 65536 % 16) as usize] = x.hi;
        regs[15] = regs[15].wrapping_sub(4);
        Outcome::Flags(0x8000_0000 <= x.hi, (x.lo == 0) & (x.hi == 0), c, v)
    } else {
        put_long(regs, op, x)
    }
}

#[tactic(auto, using(bits::specs::Cases::cases), unfolding(crate::specs::Multiply::wide_of))]
fn multiply_long(regs: &[u32; 16], op: u32) -> Long
    ensures { result ≡ wide_of regs.now op }
{
    let m = regs[(op % 16) as usize];
    let s = regs[(op / 256 % 16) as usize];
    let sum = Long {
        lo: regs[(op / 4096 % 16) as usize],
        hi: regs[(op / 65536 % 16) as usize],
    };
    if op / 4194304 % 2 == 1 {
        if op / 2097152 % 2 == 1 {
            products::smlal(m, s, sum)
        } else {
            products::smull(m, s)
        }
    } else {
        if op / 2097152 % 2 == 1 {
            products::umlal(m, s, sum)
        } else {
            products::umull(m, s)
        }
    }
}

// UMULL, UMLAL, SMULL, SMLAL, UMAAL.
#[tactic(auto, using(bits::specs::Cases::cases), unfolding(crate::specs::Multiply::long_multiply_of))]
pub fn long(regs: &mut [u32; 16], op: u32, c: bool, v: bool) -> Outcome
    ensures { (result, regs.new) ≡ long_multiply_of regs.old op c v }
{
    if op / 2097152 % 8 == 2 {
        let m = regs[(op % 16) as usize];
        let s = regs[(op / 256 % 16) as usize];
        let lo = regs[(op / 4096 % 16) as usize];
        let hi = regs[(op / 65536 % 16) as usize];
        put_long(regs, op, products::umaal(m, s, lo, hi))
    } else {
        let x = multiply_long(regs, op);
        settle_long(regs, op, x, c, v)
    }
}

// A result in register rd that may set Q. The bound stays a clause, as in `cpu::put`: a field of four bits gives it as it is.
pub fn mark(regs: &mut [u32; 16], rd: u32, x: Fitted) -> Outcome
    requires { rd < 16 }
    ensures { (result, regs.new) ≡ marked_of regs.old rd x }
{
    regs[rd as usize] = x.value;
    regs[15] = regs[15].wrapping_sub(4);
    cpu::set_sticky(x.q)
}

// SMLA<x><y>, SMLAW<y>, SMULW<y>, SMLAL<x><y>, SMUL<x><y>.
#[tactic(auto, using(bits::specs::Cases::cases), unfolding(crate::specs::Multiply::halfword_of))]
pub fn halfword(regs: &mut [u32; 16], op: u32) -> Outcome
    ensures { (result, regs.new) ≡ halfword_of regs.old op }
{
    let m = regs[(op % 16) as usize];
    let s = regs[(op / 256 % 16) as usize];
    let n = regs[(op / 4096 % 16) as usize];
    let rd = op / 65536 % 16;
    let x = op / 32 % 2 == 1;
    let y = op / 64 % 2 == 1;
    match op / 2097152 % 4 {
        0 => mark(regs, rd, products::smlaxy(m, s, n, x, y)),
        1 => {
            if x {
                cpu::put(regs, rd, products::smulw(m, s, y))
            } else {
                mark(regs, rd, products::smlaw(m, s, n, y))
            }
        }
        2 => {
            let sum = Long {
                lo: n,
                hi: regs[rd as usize],
            };
            put_long(regs, op, products::smlalxy(m, s, sum, x, y))
        }
        _ => cpu::put(regs, rd, products::smulxy(m, s, x, y)),
    }
}

// QADD, QSUB, QDADD, QDSUB.
#[tactic(auto, using(bits::specs::Cases::cases), unfolding(crate::specs::Multiply::saturating_of))]
pub fn saturating(regs: &mut [u32; 16], op: u32) -> Outcome
    ensures { (result, regs.new) ≡ saturating_of regs.old op }
{
    let m = regs[(op % 16) as usize];
    let n = regs[(op / 65536 % 16) as usize];
    let rd = op / 4096 % 16;
    let subtract = op / 2097152 % 2 == 1;
    if op / 4194304 % 2 == 1 {
        mark(regs, rd, products::qdadd(m, n, subtract))
    } else {
        mark(regs, rd, products::qadd(m, n, subtract))
    }
}
