// One instruction: the condition, the family, and the one match over the families.
#![tactic(auto, using(bits::specs::Cases::cases))]

ghost use Rattle.std.specs.Prelude.{◌≡◌, true};
ghost use Rattle.arm.specs.Turn.{seen_of, effect_of, turn_of};
ghost use Rattle.arm.specs.Laws.Cold.{is_cold};

use cpu::{Machine, Outcome};
use decode::Family;

// What an instruction reads of the machine beside its registers: the flags, GE and the exclusive tag.
#[derive(Clone, Copy)]
pub struct Seen {
    pub n: bool,
    pub z: bool,
    pub c: bool,
    pub v: bool,
    pub ge: u8,
    pub tag: Option<u32>,
}

impl Seen {
    pub fn of(m: &Machine) -> Seen
        ensures { result ≡ seen_of m.now }
    {
        Seen {
            n: m.cpsr.n,
            z: m.cpsr.z,
            c: m.cpsr.c,
            v: m.cpsr.v,
            ge: m.cpsr.ge,
            tag: m.tag,
        }
    }
}

// The families that are seldom met stand behind one call, so that the others stay inlined in the dispatcher.
#[tactic(auto, using(transfer::specs::Laws::Guards::guards), unfolding(crate::specs::Turn::effect_of))]
#[cold]
#[inline(never)]
fn execute_cold(
    family: Family,
    regs: &mut [u32; 16],
    op: u32,
    seen: Seen,
    mem: &mut [u8],
) -> Outcome
    requires { is_cold family ≡ true }
    ensures { (result, regs.new, mem.new) ≡ effect_of family regs.old op seen mem.old }
{
    match family {
        Family::StatusMove => Outcome::Moves,
        Family::Breakpoint => misc::breakpoint(regs, op),
        Family::Coprocessor => misc::coprocessor(regs, op),
        Family::CoprocessorMove => misc::coprocessor_register(regs, op),
        Family::Supervisor => misc::supervisor_call(regs, op),
        Family::BranchLinkExchange => misc::branch_link_exchange(regs, op),
        Family::ClearExclusive => misc::clear_exclusive(regs),
        Family::ChangeState => Outcome::Moves,
        _ => cpu::refuse(regs, op),
    }
}

#[tactic(auto, using(transfer::specs::Laws::Guards::guards), unfolding(crate::specs::Turn::effect_of))]
fn execute(family: Family, regs: &mut [u32; 16], op: u32, seen: Seen, mem: &mut [u8]) -> Outcome
    ensures { (result, regs.new, mem.new) ≡ effect_of family regs.old op seen mem.old }
{
    match family {
        Family::DataProcessing => dataproc::execute(regs, op, seen.c, seen.v),
        Family::MultiplyShort => multiply::short(regs, op, seen.c, seen.v),
        Family::MultiplyLong => multiply::long(regs, op, seen.c, seen.v),
        Family::Halfword => multiply::halfword(regs, op),
        Family::Saturating => multiply::saturating(regs, op),
        Family::Extra => loadstore::extra(regs, op, mem),
        Family::BranchExchange => misc::branch_exchange(regs, op),
        Family::CountZeros => misc::clz(regs, op),
        Family::Single => loadstore::single(regs, op, seen.c, mem),
        Family::Media => media::execute(regs, op, seen.ge),
        Family::Block => block::execute(regs, op, mem),
        Family::Branch => misc::branch(regs, op),
        Family::Swap => exclusive::swap(regs, mem, op),
        Family::Exclusive => exclusive::execute(regs, mem, op, seen.tag),
        Family::Preload => cpu::finish(regs),
        _ => execute_cold(family, regs, op, seen, mem),
    }
}

#[tactic(auto, using(bits::specs::Cases::cases), unfolding(crate::specs::Turn::turn_of))]
pub fn turn(regs: &mut [u32; 16], at: u32, op: u32, seen: Seen, mem: &mut [u8]) -> Outcome
    ensures { (result, regs.new, mem.new) ≡ turn_of regs.old at op seen mem.old }
{
    if psr::check_condition(op / 268435456 % 16, seen.n, seen.z, seen.c, seen.v) {
        regs[15] = at.wrapping_add(8);
        execute(decode::decode(op), regs, op, seen, mem)
    } else {
        regs[15] = at.wrapping_add(4);
        Outcome::Nothing
    }
}
