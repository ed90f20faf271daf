// Data-processing instructions, on lent registers.
#![tactic(auto, using(bits::specs::Cases::cases))]

ghost use Rattle.std.specs.Prelude.{◌≡◌, true, ◌<◌, get_or};
ghost use Rattle.bits.specs.Fields.{◌⟨◌‥◌⟩};
ghost use Rattle.dataproc.specs.Dataproc.{read_of, first_of, operand_of, logical, result_of, flagged_of, dataproc_of};
ghost use Rattle.dataproc.specs.Laws.Operands.{operands_with, late_of};
ghost use Rattle.dataproc.specs.Laws.Places.{put_unless, placed_with_flags, placed_value, value_of};

use alu::Sum;
use cpu::Outcome;
use shifter::Operand;

// The two operands of an instruction, and the shifter's carry.
#[derive(Clone, Copy)]
pub struct Operands {
    pub first: u32,
    pub second: u32,
    pub carry: bool,
}

// Rn, and a register shifted by a register: all are read late.
#[tactic(auto, using(bits::specs::Cases::cases, crate::specs::Laws::Operands::read_late))]
fn read_operands_late(regs: &[u32; 16], op: u32, c: bool) -> Operands
    ensures { result ≡ operands_with (read_of regs.now (op ⟨ 19 ‥ 16 ⟩) true) (late_of regs.now op c) }
{
    let first = cpu::read_late(regs, op / 65536 % 16);
    let value = cpu::read_late(regs, op % 16);
    let amount = cpu::read_late(regs, op / 256 % 16);
    let x = shifter::by_register(shifter::shift_type(op / 32 % 4), value, amount % 256, c);
    Operands {
        first,
        second: x.value,
        carry: x.carry,
    }
}

// Rn as it stands, with a second operand.
fn join_operands(regs: &[u32; 16], op: u32, x: Operand) -> Operands
    ensures { result ≡ operands_with (get_or regs.now (op ⟨ 19 ‥ 16 ⟩) 0) x }
{
    Operands {
        first: regs[(op / 65536 % 16) as usize],
        second: x.value,
        carry: x.carry,
    }
}

// The plain register comes before the shifts: it is what most instructions have; so tests in this order, not a `match`.
fn read_operands(regs: &[u32; 16], op: u32, c: bool) -> Operands
    ensures { result ≡ operands_with (first_of regs.now op) (operand_of regs.now op c) }
{
    if op / 33554432 % 2 == 1 {
        join_operands(regs, op, shifter::immediate(op % 256, op / 256 % 16, c))
    } else if op / 16 % 256 == 0 {
        let value = regs[(op % 16) as usize];
        join_operands(regs, op, Operand { value, carry: c })
    } else if op / 16 % 2 == 1 {
        read_operands_late(regs, op, c)
    } else {
        let ty = shifter::shift_type(op / 32 % 4);
        let value = regs[(op % 16) as usize];
        join_operands(regs, op, shifter::by_immediate(ty, value, op / 128 % 32, c))
    }
}

// A logical operation takes C from the shifter and keeps V.
fn as_logical(value: u32, shifter: bool, v: bool) -> Sum
    ensures { result ≡ logical value shifter v }
{
    Sum {
        value,
        carry: shifter,
        overflow: v,
    }
}

// Operation k, one arm for each of Table A3-2. A number: an enum would need a match more on the path of every instruction.
// c and v go as they are: a pair of them is no plainer, and the definitions take them apart.
#[tactic(auto, using(bits::specs::Cases::cases), unfolding(crate::specs::Dataproc::result_of))]
fn compute(k: u32, a: u32, b: u32, shifter: bool, c: bool, v: bool) -> Sum
    ensures { result ≡ result_of k a b shifter c v }
{
    match k {
        0 => as_logical(a & b, shifter, v),
        1 => as_logical(a ^ b, shifter, v),
        2 => alu::sub_with_flags(a, b),
        3 => alu::sub_with_flags(b, a),
        4 => alu::add_with_flags(a, b),
        5 => alu::adc_with_flags(a, b, c),
        6 => alu::sbc_with_flags(a, b, c),
        7 => alu::sbc_with_flags(b, a, c),
        8 => as_logical(a & b, shifter, v),
        9 => as_logical(a ^ b, shifter, v),
        10 => alu::sub_with_flags(a, b),
        11 => alu::add_with_flags(a, b),
        12 => as_logical(a | b, shifter, v),
        13 => as_logical(b, shifter, v),
        14 => as_logical(a & !b, shifter, v),
        _ => as_logical(!b, shifter, v),
    }
}

// The flags of a result, and the next instruction.
fn set_flags(regs: &mut [u32; 16], x: Sum) -> Outcome
    ensures { (result, regs.new) ≡ flagged_of regs.old x }
{
    regs[15] = regs[15].wrapping_sub(4);
    cpu::set_flags_of(x.value, x.carry, x.overflow)
}

// The value of operation k alone: what an instruction without S needs. The table stands twice for speed: with `compute`
// for both, these took more machine instructions.
#[tactic(auto, using(bits::specs::Cases::cases), unfolding(crate::specs::Laws::Places::value_of))]
fn compute_value(k: u32, a: u32, b: u32, c: bool) -> u32
    ensures { result ≡ value_of k a b c }
{
    match k {
        0 => a & b,
        1 => a ^ b,
        2 => alu::sub_with_flags(a, b).value,
        3 => alu::sub_with_flags(b, a).value,
        4 => alu::add_with_flags(a, b).value,
        5 => alu::adc_with_flags(a, b, c).value,
        6 => alu::sbc_with_flags(a, b, c).value,
        7 => alu::sbc_with_flags(b, a, c).value,
        8 => a & b,
        9 => a ^ b,
        10 => alu::sub_with_flags(a, b).value,
        11 => alu::add_with_flags(a, b).value,
        12 => a | b,
        13 => b,
        14 => a & !b,
        _ => !b,
    }
}

// A compare keeps the register: `keep` and `rd < 16` as the definition and `cpu::put` have them.
#[tactic(auto, using(bits::specs::Cases::cases), unfolding(crate::specs::Laws::Places::put_unless))]
fn put_unless(keep: bool, regs: &mut [u32; 16], rd: u32, value: u32)
    requires { rd < 16 }
    ensures { regs.new ≡ put_unless keep regs.old rd value }
{
    if !keep {
        regs[rd as usize] = value;
    }
}

// Where the result goes with S: a compare and a result set their flags in one place.
#[tactic(auto, using(bits::specs::Cases::cases), unfolding(crate::specs::Laws::Places::placed_with_flags))]
fn place_with_flags(regs: &mut [u32; 16], op: u32, x: Sum) -> Outcome
    ensures { (result, regs.new) ≡ placed_with_flags regs.old op x }
{
    let rd = op / 4096 % 16;
    let compares = op / 8388608 % 4 == 2;
    let returns = (rd == 15) & !compares;
    if returns {
        Outcome::Return(x.value)
    } else {
        put_unless(compares, regs, rd, x.value);
        set_flags(regs, x)
    }
}

// And without S.
#[tactic(auto, using(bits::specs::Cases::cases), unfolding(crate::specs::Laws::Places::placed_value))]
fn place_value(regs: &mut [u32; 16], op: u32, value: u32) -> Outcome
    ensures { (result, regs.new) ≡ placed_value regs.old op value }
{
    if op / 8388608 % 4 == 2 {
        cpu::finish(regs)
    } else {
        cpu::land(regs, op / 4096 % 16, value)
    }
}

pub fn execute(regs: &mut [u32; 16], op: u32, c: bool, v: bool) -> Outcome
    ensures { (result, regs.new) ≡ dataproc_of regs.old op c v }
{
    let x = read_operands(regs, op, c);
    let k = op / 2097152 % 16;
    if op / 1048576 % 2 == 1 {
        let y = compute(k, x.first, x.second, x.carry, c, v);
        place_with_flags(regs, op, y)
    } else {
        let value = compute_value(k, x.first, x.second, c);
        place_value(regs, op, value)
    }
}
