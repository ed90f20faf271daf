// Branches, CLZ, and answers to the host.
#![tactic(auto, using(bits::specs::Cases::cases))]

ghost use Rattle.std.specs.Prelude.{◌≡◌};
ghost use Rattle.misc.specs.Branches.{linked, target_of, branch_of, branch_exchange_of, branch_link_exchange_of, clz_of};
ghost use Rattle.misc.specs.Stops.{swi_of, bkpt_of, coprocessor_of, coprocessor_move_of, clrex_of};

use cpu::{Answer, Outcome};

// 24 bits, signed, times four, from r15.
#[tactic(auto, using(bits::specs::Cases::cases, crate::specs::Laws::Targets::target_is))]
fn find_target(regs: &[u32; 16], op: u32) -> u32
    ensures { result ≡ target_of regs.now op }
{
    regs[15].wrapping_add(bits::sign_extend(op % 16777216 * 4, 26))
}

// r14 becomes the address of the next instruction.
fn link(regs: &mut [u32; 16])
    ensures { regs.new ≡ linked regs.old }
{
    regs[14] = regs[15].wrapping_sub(4);
}

#[tactic(auto, using(bits::specs::Cases::cases), unfolding(crate::specs::Branches::branch_of))]
pub fn branch(regs: &mut [u32; 16], op: u32) -> Outcome
    ensures { (result, regs.new) ≡ branch_of regs.old op }
{
    let to = find_target(regs, op);
    if op / 16777216 % 2 == 1 {
        link(regs);
        cpu::branch(regs, to)
    } else {
        cpu::branch(regs, to)
    }
}

#[tactic(auto, using(bits::specs::Cases::cases), unfolding(crate::specs::Branches::branch_exchange_of))]
pub fn branch_exchange(regs: &mut [u32; 16], op: u32) -> Outcome
    ensures { (result, regs.new) ≡ branch_exchange_of regs.old op }
{
    let to = regs[(op % 16) as usize];
    if op / 16 % 16 == 3 {
        link(regs);
        cpu::branch_exchange(regs, to)
    } else {
        cpu::branch_exchange(regs, to)
    }
}

#[tactic(auto, using(bits::specs::Cases::cases), unfolding(crate::specs::Branches::branch_link_exchange_of))]
pub fn branch_link_exchange(regs: &mut [u32; 16], op: u32) -> Outcome
    ensures { (result, regs.new) ≡ branch_link_exchange_of regs.old op }
{
    let to = find_target(regs, op).wrapping_add(u32::from(op / 16777216 % 2 == 1) * 2);
    link(regs);
    regs[15] = to / 2 * 2;
    Outcome::Exchange(true)
}

#[tactic(auto, using(bits::specs::Cases::cases), unfolding(crate::specs::Branches::clz_of))]
pub fn clz(regs: &mut [u32; 16], op: u32) -> Outcome
    ensures { (result, regs.new) ≡ clz_of regs.old op }
{
    let zeros = bits::leading_zeros(regs[(op % 16) as usize]);
    cpu::put(regs, op / 4096 % 16, zeros)
}

#[tactic(auto, using(bits::specs::Cases::cases), unfolding(crate::specs::Stops::swi_of))]
pub fn supervisor_call(regs: &mut [u32; 16], op: u32) -> Outcome
    ensures { (result, regs.new) ≡ swi_of regs.old op }
{
    regs[15] = regs[15].wrapping_sub(4) / 4 * 4;
    Outcome::Call(op % 16777216)
}

// The refusals leave the registers as they came; they are lent as to every family, so that a dispatcher has one form.
#[tactic(auto, using(bits::specs::Cases::cases), unfolding(crate::specs::Stops::bkpt_of))]
pub fn breakpoint(regs: &mut [u32; 16], op: u32) -> Outcome
    ensures { (result, regs.new) ≡ bkpt_of regs.old op }
{
    let at = regs[15].wrapping_sub(8);
    Outcome::Stop(Answer::Breakpoint(at, op / 256 % 4096 * 16 + op % 16))
}

#[tactic(auto, using(bits::specs::Cases::cases), unfolding(crate::specs::Stops::coprocessor_of))]
pub fn coprocessor(regs: &mut [u32; 16], op: u32) -> Outcome
    ensures { (result, regs.new) ≡ coprocessor_of regs.old op }
{
    Outcome::Stop(Answer::Coprocessor(op))
}

#[tactic(auto, using(bits::specs::Cases::cases), unfolding(crate::specs::Stops::coprocessor_of, crate::specs::Stops::coprocessor_move_of))]
pub fn coprocessor_register(regs: &mut [u32; 16], op: u32) -> Outcome
    ensures { (result, regs.new) ≡ coprocessor_move_of regs.old op }
{
    if matches!(op / 256 % 16, 10 | 11 | 15) {
        Outcome::Stop(Answer::Coprocessor(op))
    } else {
        cpu::finish(regs)
    }
}

#[tactic(auto, using(bits::specs::Cases::cases), unfolding(crate::specs::Stops::clrex_of))]
pub fn clear_exclusive(regs: &mut [u32; 16]) -> Outcome
    ensures { (result, regs.new) ≡ clrex_of regs.old }
{
    regs[15] = regs[15].wrapping_sub(4);
    Outcome::Untagged
}
