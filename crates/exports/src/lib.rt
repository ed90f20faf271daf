// The public calls for a host: on numbers, and on a machine and memory as lent bytes. exports_c hands them to C.
#![tactic(auto)]

ghost use Rattle.std.specs.Prelude.{◌≡◌, length};
ghost use Rattle.exports.specs.Steps.{written_state, left_by_step, left_by_run, step_call_of, step_opcode_call_of, run_call_of};
ghost use Rattle.exports.specs.Calls.{halves, operand_halves, pack_call_of, unpack_call_of, shift_immediate_call_of, shift_register_call_of};

use cpu::{Machine, Report};
use engine::{Finished, Stepped};
use shifter::Operand;

// Two numbers in the one that C takes; the halves of a product in products are one number, and no part of this interface.
fn join_halves(high: u32, low: u32) -> u64
    ensures { result ≡ halves high low }
{
    u64::from(high) * 0x1_0000_0000 + u64::from(low)
}

#[tactic(auto, unfolding(crate::specs::Calls::pack_call_of))]
pub fn tholungdek_pack(word: u32, ge: u32) -> u64
    ensures { result ≡ pack_call_of word ge }
{
    let mut s = psr::unpack(word);
    s.ge = state::narrow_ge(ge);
    match psr::pack(s) {
        Ok(word) => join_halves(0, word),
        Err(_) => join_halves(8, 0),
    }
}

#[tactic(auto, unfolding(crate::specs::Calls::unpack_call_of))]
pub fn tholungdek_unpack(word: u32) -> u64
    ensures { result ≡ unpack_call_of word }
{
    let s = psr::unpack(word);
    join_halves(u32::from(s.ge), psr::pack_or_zero(s))
}

// The carry out above the value.
fn join_operand(o: Operand) -> u64
    ensures { result ≡ operand_halves o }
{
    join_halves(u32::from(o.carry), o.value)
}

#[tactic(auto, unfolding(crate::specs::Calls::shift_immediate_call_of))]
pub fn tholungdek_shift_immediate(kind: u32, value: u32, amount: u32, carry: bool) -> u64
    ensures { result ≡ shift_immediate_call_of kind value amount carry }
{
    join_operand(shifter::shift_by_immediate(kind, value, amount, carry))
}

#[tactic(auto, unfolding(crate::specs::Calls::shift_register_call_of))]
pub fn tholungdek_shift_register(kind: u32, value: u32, amount: u32, carry: bool) -> u64
    ensures { result ≡ shift_register_call_of kind value amount carry }
{
    join_operand(shifter::shift_by_register(kind, value, amount, carry))
}

// `changed` is the condition of `written_state`, from two kinds of answer; an `if` at both callers would be no plainer.
#[tactic(auto, using(bits::specs::Cases::cases), unfolding(crate::specs::Steps::written_state))]
fn write_state(bytes: &mut [u8; 216], m: Machine, changed: bool)
    ensures { bytes.new ≡ written_state changed m bytes.old }
{
    if changed {
        state::write_state(bytes, m);
    }
}

// A step and a run differ in what tells that the machine changed and in the answer: neither is the other with one value changed.
#[tactic(auto, unfolding(crate::specs::Steps::left_by_step))]
fn leave_step(s: Stepped, bytes: &mut [u8; 216], answer: &mut [u8; 12]) -> u32
    ensures { (result, bytes.new, answer.new) ≡ left_by_step s bytes.old }
{
    let a = s.answer;
    write_state(bytes, s.machine, a.is_done() || a.is_call());
    state::write_report(answer, Report::from(a));
    1
}

#[tactic(auto, unfolding(crate::specs::Steps::left_by_run))]
fn leave_run(f: Finished, bytes: &mut [u8; 216], answer: &mut [u8; 16]) -> u32
    ensures { (result, bytes.new, answer.new) ≡ left_by_run f bytes.old }
{
    write_state(bytes, f.machine, 0 < f.count);
    state::write_counted(answer, Report::from(f.answer), f.count);
    1
}

// The three calls share no function that takes the call as a closure: tried, and a step took 8% more instructions, for a machine copied in and out.
#[tactic(auto, using(bits::specs::Cases::cases), unfolding(crate::specs::Steps::step_call_of))]
pub fn tholungdek_step(bytes: &mut [u8], memory: &mut [u8], answer: &mut [u8]) -> u32
    ensures { (result, bytes.new, memory.new, answer.new) ≡ step_call_of bytes.old memory.old answer.old }
{
    let Some(bytes) = bytes.as_mut_array() else {
        return 0;
    };
    let Some(answer) = answer.as_mut_array() else {
        return 0;
    };
    let s = engine::step(state::read_state(bytes), memory);
    leave_step(s, bytes, answer)
}

#[tactic(auto, using(bits::specs::Cases::cases), unfolding(crate::specs::Steps::step_opcode_call_of))]
pub fn tholungdek_step_opcode(
    bytes: &mut [u8],
    memory: &mut [u8],
    opcode: u32,
    answer: &mut [u8],
) -> u32
    ensures { (result, bytes.new, memory.new, answer.new) ≡ step_opcode_call_of bytes.old memory.old opcode answer.old }
{
    let Some(bytes) = bytes.as_mut_array() else {
        return 0;
    };
    let Some(answer) = answer.as_mut_array() else {
        return 0;
    };
    let s = engine::step_opcode(state::read_state(bytes), opcode, memory);
    leave_step(s, bytes, answer)
}

#[tactic(auto, using(bits::specs::Cases::cases), unfolding(crate::specs::Steps::run_call_of))]
pub fn tholungdek_run(bytes: &mut [u8], memory: &mut [u8], budget: u32, answer: &mut [u8]) -> u32
    ensures { (result, bytes.new, memory.new, answer.new) ≡ run_call_of bytes.old memory.old budget answer.old }
{
    let Some(bytes) = bytes.as_mut_array() else {
        return 0;
    };
    let Some(answer) = answer.as_mut_array() else {
        return 0;
    };
    let f = engine::run(state::read_state(bytes), memory, budget);
    leave_run(f, bytes, answer)
}
