// MRS, MSR and CPS, on the machine by value.
#![tactic(auto, using(bits::specs::Cases::cases))]

ghost use Rattle.std.specs.Prelude.{◌≡◌};
ghost use Rattle.bits.specs.Cases.{when◌then◌else◌};
ghost use Rattle.moves.specs.Moves.{mrs_of, msr_value_of, msr_of, cps_status_of, cps_of, moves_of};

use cpu::Machine;
use psr::Status;

// The saved record where `saved`, else the current one; the flag is bit 22, and only MRS reads the record it names.
fn choose_record(m: Machine, saved: bool) -> Status
    ensures { result ≡ (when saved then m.spsr else m.cpsr) }
{
    if saved { m.spsr } else { m.cpsr }
}

#[tactic(auto, using(bits::specs::Cases::cases), unfolding(crate::specs::Moves::mrs_of))]
fn mrs(m: Machine, op: u32) -> Machine
    ensures { result ≡ mrs_of m op }
{
    let s = choose_record(m, op / 4194304 % 2 == 1);
    let mut out = m;
    out.regs[(op / 4096 % 16) as usize] = psr::pack_or_zero(s);
    banks::move_on(out)
}

#[tactic(auto, using(bits::specs::Cases::cases), unfolding(crate::specs::Moves::msr_value_of))]
fn msr_value(m: Machine, op: u32) -> u32
    ensures { result ≡ msr_value_of m op }
{
    if op / 33554432 % 2 == 1 {
        shifter::immediate(op % 256, op / 256 % 16, false).value
    } else {
        m.regs[(op % 16) as usize]
    }
}

#[tactic(auto, using(bits::specs::Cases::cases), unfolding(crate::specs::Moves::msr_of))]
fn msr(m: Machine, op: u32) -> Machine
    ensures { result ≡ msr_of m op }
{
    let value = msr_value(m, op);
    let mask = op / 65536 % 16;
    if op / 4194304 % 2 == 1 {
        let spsr = psr::write_masked(m.spsr, value, mask, true);
        banks::move_on(Machine { spsr, ..m })
    } else {
        let privileged = psr::is_privileged(m.cpsr.mode);
        let cpsr = psr::write_masked(m.cpsr, value, mask, privileged);
        banks::move_on(Machine {
            cpsr,
            ..banks::switch_mode(m, cpsr.mode)
        })
    }
}

// Bit 18 where `named`, else as it was; the flag is the mask's own bit of the opcode, for each of A, I and F.
fn set_mask(named: bool, disable: bool, before: bool) -> bool
    ensures { result ≡ (when named then disable else before) }
{
    if named { disable } else { before }
}

#[tactic(auto, using(bits::specs::Cases::cases), unfolding(crate::specs::Moves::cps_status_of))]
fn cps_status(s: Status, op: u32) -> Status
    ensures { result ≡ cps_status_of s op }
{
    if op / 524288 % 2 == 1 {
        let disable = op / 262144 % 2 == 1;
        let a = set_mask(op / 256 % 2 == 1, disable, s.a);
        let i = set_mask(op / 128 % 2 == 1, disable, s.i);
        let f = set_mask(op / 64 % 2 == 1, disable, s.f);
        Status { a, i, f, ..s }
    } else {
        s
    }
}

#[tactic(auto, using(bits::specs::Cases::cases), unfolding(crate::specs::Moves::cps_of))]
fn cps(m: Machine, op: u32) -> Machine
    ensures { result ≡ cps_of m op }
{
    let runs = (op / 1048576 % 256 == 16) & psr::is_privileged(m.cpsr.mode);
    if runs {
        let masked = Machine {
            cpsr: cps_status(m.cpsr, op),
            ..m
        };
        if op / 131072 % 2 == 1 {
            banks::move_on(banks::switch_mode(masked, psr::mode_of(op % 32)))
        } else {
            banks::move_on(masked)
        }
    } else {
        banks::move_on(m)
    }
}

// Out of the dispatcher, whose registers are then kept for what is often met.
#[tactic(auto, using(bits::specs::Cases::cases), unfolding(crate::specs::Moves::moves_of))]
#[cold]
#[inline(never)]
pub fn move_status(m: Machine, op: u32) -> Machine
    ensures { result ≡ moves_of m op }
{
    if op / 268435456 % 16 == 15 {
        cps(m, op)
    } else if op / 2097152 % 2 == 1 {
        msr(m, op)
    } else {
        mrs(m, op)
    }
}
