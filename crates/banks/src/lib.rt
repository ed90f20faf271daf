// Bank switching: mode changes, returns, and the User bank, on the machine by value.
#![tactic(auto, using(bits::specs::Cases::cases))]

ghost use Rattle.std.specs.Prelude.{◌≡◌, ◌+◌, ◌-◌, ◌*◌, ◌<◌, ◌≤◌, get_or, set, ◌==◌};
ghost use Rattle.bits.specs.Cases.{when◌then◌else◌};
ghost use Rattle.cpu.specs.With.{with_regs, with_user, with_banked};
ghost use Rattle.banks.specs.Banks.{bank_of, is_fiq, has_saved, r8to12, with_r8to12, entered_of, switched_of, restored_of, onward, branched_to, returned_of, exchanged_to, user_reg_of, with_user_reg};
ghost use Rattle.banks.specs.Laws.Parts.{saved_at, taken_at};

use cpu::Machine;
use psr::{Mode, Status};

// A place in the arrays of `Machine`, which docs/CLAIMS.md requires side by side; User and System, which have no saved record, share 5 for r13 and r14, so 5 is a bank and no absence.
pub fn bank_of(mode: Mode) -> usize
    ensures { (result ≡ bank_of mode) × (result ≤ 5) }
{
    match mode {
        Mode::Fiq => 0,
        Mode::Irq => 1,
        Mode::Supervisor => 2,
        Mode::Abort => 3,
        Mode::Undefined => 4,
        Mode::User | Mode::System => 5,
    }
}

pub fn is_fiq(mode: Mode) -> bool
    ensures { result ≡ is_fiq mode }
{
    mode == Mode::Fiq
}

// Here and below `b ≤ 5` is what `bank_of` promises: a type of six banks would only wrap that number and say it again.
fn keep_pair(m: Machine, b: usize) -> [u32; 12]
    requires { b ≤ 5 }
    ensures { result ≡ set (set m.banked (2 * b) (get_or m.regs 13 0)) (2 * b + 1) (get_or m.regs 14 0) }
{
    let mut out = m.banked;
    out[2 * b] = m.regs[13];
    out[2 * b + 1] = m.regs[14];
    out
}

#[tactic(auto, using(bits::specs::Cases::cases), unfolding(crate::specs::Laws::Parts::saved_at))]
fn keep_saved(m: Machine, b: usize) -> [Status; 5]
    requires { b ≤ 5 }
    ensures { result ≡ saved_at m b }
{
    let mut out = m.saved;
    if b < 5 {
        out[b] = m.spsr;
        out
    } else {
        out
    }
}

fn read_five(regs: [u32; 16]) -> [u32; 5]
    ensures { result ≡ r8to12 regs }
{
    let mut out = [0; 5];
    out.copy_from_slice(&regs[8..13]);
    out
}

fn write_five(regs: [u32; 16], x: [u32; 5]) -> [u32; 16]
    ensures { result ≡ with_r8to12 regs x }
{
    let mut out = regs;
    out[8..13].copy_from_slice(&x);
    out
}

// r8 to r12 where `on`, else what was kept before: `fiq_kept` and `user_kept` in one function, and a match on modes would be no plainer.
fn keep_five(on: bool, regs: [u32; 16], kept: [u32; 5]) -> [u32; 5]
    ensures { result ≡ (when on then r8to12 regs else kept) }
{
    if on { read_five(regs) } else { kept }
}

fn take_pair(regs: [u32; 16], pairs: [u32; 12], b: usize) -> [u32; 16]
    requires { b ≤ 5 }
    ensures { result ≡ set (set regs 13 (get_or pairs (2 * b) 0)) 14 (get_or pairs (2 * b + 1) 0) }
{
    let mut out = regs;
    out[13] = pairs[2 * b];
    out[14] = pairs[2 * b + 1];
    out
}

// `regs_taken`: FIQ's where FIQ is entered, User's where FIQ is left; a flag for each of its two tests.
fn take_five(regs: [u32; 16], from: bool, to: bool, fiq: [u32; 5], user: [u32; 5]) -> [u32; 16]
    ensures { result ≡ (when to then with_r8to12 regs fiq else when from then with_r8to12 regs user else regs) }
{
    if to {
        write_five(regs, fiq)
    } else if from {
        write_five(regs, user)
    } else {
        regs
    }
}

#[tactic(auto, using(bits::specs::Cases::cases), unfolding(crate::specs::Laws::Parts::taken_at))]
fn take_saved(m: Machine, saved: [Status; 5], b: usize) -> Status
    requires { b ≤ 5 }
    ensures { result ≡ taken_at m.spsr saved b }
{
    if b < 5 { saved[b] } else { m.spsr }
}

// Into another mode than the current one.
#[tactic(auto, using(bits::specs::Cases::cases), unfolding(crate::specs::Banks::entered_of, crate::specs::Banks::saved_kept, crate::specs::Banks::fiq_kept, crate::specs::Banks::user_kept, crate::specs::Banks::regs_taken, crate::specs::Banks::spsr_taken, crate::specs::Laws::Parts::saved_at, crate::specs::Laws::Parts::taken_at))]
fn enter(m: Machine, new: Mode) -> Machine
    ensures { result ≡ entered_of m new }
{
    let old = bank_of(m.cpsr.mode);
    let bank = bank_of(new);
    let from = is_fiq(m.cpsr.mode);
    let to = is_fiq(new);
    let banked = keep_pair(m, old);
    let saved = keep_saved(m, old);
    let fiq = keep_five(from, m.regs, m.fiq);
    let user = keep_five(!from & to, m.regs, m.user);
    Machine {
        regs: take_five(take_pair(m.regs, banked, bank), from, to, fiq, user),
        cpsr: Status {
            mode: new,
            ..m.cpsr
        },
        spsr: take_saved(m, saved, bank),
        banked,
        saved,
        fiq,
        user,
        ..m
    }
}

#[tactic(auto, using(bits::specs::Cases::cases), unfolding(crate::specs::Banks::switched_of))]
pub fn switch_mode(m: Machine, new: Mode) -> Machine
    ensures { result ≡ switched_of m new }
{
    if m.cpsr.mode == new { m } else { enter(m, new) }
}

#[tactic(auto, using(bits::specs::Cases::cases), unfolding(crate::specs::Banks::restored_of))]
pub fn restore(m: Machine) -> Machine
    ensures { result ≡ restored_of m }
{
    Machine {
        cpsr: m.spsr,
        ..switch_mode(m, m.spsr.mode)
    }
}

pub fn move_on(m: Machine) -> Machine
    ensures { result ≡ onward m }
{
    let mut out = m;
    out.regs[15] = m.regs[15].wrapping_sub(4);
    out
}

#[tactic(auto, using(bits::specs::Cases::cases), unfolding(crate::specs::Banks::branched_to))]
pub fn branch_to(m: Machine, to: u32) -> Machine
    ensures { result ≡ branched_to m to }
{
    let mut out = m;
    if m.cpsr.t {
        out.regs[15] = to / 2 * 2;
        out
    } else {
        out.regs[15] = to / 4 * 4;
        out
    }
}

// A data operation with S into r15.
// Out of the dispatcher, whose registers are then kept for what is often met.
#[tactic(auto, using(bits::specs::Cases::cases), unfolding(crate::specs::Banks::returned_of))]
#[cold]
#[inline(never)]
pub fn return_to(m: Machine, to: u32) -> Machine
    ensures { result ≡ returned_of m to }
{
    branch_to(restore(m), to)
}

#[tactic(auto, using(bits::specs::Cases::cases), unfolding(crate::specs::Banks::exchanged_to))]
pub fn exchange_to(m: Machine, to: u32) -> Machine
    ensures { result ≡ exchanged_to m to }
{
    let mut out = m;
    out.cpsr.t = to % 2 == 1;
    branch_to(out, to)
}

// Whether a mode has banked r13 and r14 and a saved record of its own.
fn has_saved(mode: Mode) -> bool
    ensures { result ≡ has_saved mode }
{
    bank_of(mode) < 5
}

#[tactic(auto, using(bits::specs::Cases::cases), unfolding(crate::specs::Banks::user_reg_of))]
pub fn read_user_reg(m: Machine, r: u32) -> u32
    requires { r < 16 }
    ensures { result ≡ user_reg_of m r }
{
    let i = r as usize;
    if r < 8 {
        m.regs[i]
    } else if r < 13 {
        if is_fiq(m.cpsr.mode) {
            m.user[i - 8]
        } else {
            m.regs[i]
        }
    } else if r < 15 {
        if has_saved(m.cpsr.mode) {
            m.banked[i - 3]
        } else {
            m.regs[i]
        }
    } else {
        m.regs[15].wrapping_add(4)
    }
}

// This and the two below differ in the field and the offset: one function of both would take the array apart and put it back.
fn put_reg(m: Machine, r: u32, value: u32) -> Machine
    requires { r < 16 }
    ensures { result ≡ with_regs m (set m.regs r value) }
{
    let mut out = m;
    out.regs[r as usize] = value;
    out
}

fn put_high(m: Machine, r: u32, value: u32) -> Machine
    requires { (8 ≤ r) × (r < 13) }
    ensures { result ≡ with_user m (set m.user (r - 8) value) }
{
    let mut out = m;
    out.user[r as usize - 8] = value;
    out
}

fn put_banked(m: Machine, r: u32, value: u32) -> Machine
    requires { (13 ≤ r) × (r < 15) }
    ensures { result ≡ with_banked m (set m.banked (r - 3) value) }
{
    let mut out = m;
    out.banked[r as usize - 3] = value;
    out
}

#[tactic(auto, using(bits::specs::Cases::cases), unfolding(crate::specs::Banks::with_user_reg))]
pub fn write_user_reg(m: Machine, r: u32, value: u32) -> Machine
    requires { r < 16 }
    ensures { result ≡ with_user_reg m r value }
{
    if r < 8 {
        put_reg(m, r, value)
    } else if r < 13 {
        if is_fiq(m.cpsr.mode) {
            put_high(m, r, value)
        } else {
            put_reg(m, r, value)
        }
    } else if r < 15 {
        if has_saved(m.cpsr.mode) {
            put_banked(m, r, value)
        } else {
            put_reg(m, r, value)
        }
    } else {
        exchange_to(m, value)
    }
}
