// Swaps, and loads and stores exclusive, on lent registers and memory.
// Registers and opcode come hand in hand: the manual's form.
#![tactic(auto, using(bits::specs::Cases::cases))]

ghost use Rattle.std.specs.Prelude.{◌≡◌, ◌<◌};
ghost use Rattle.exclusive.specs.Exclusive.{swap_of, width_of, ldrex_of, ldrexd_of, marked_of, succeeded_of, failed_of, strex_of, strexd_of, exclusive_of};

use cpu::{Answer, Outcome};
use memory::{Outside, Width};

// Loads and stores under one test, so it takes neither `try_load` nor `try_store`: each would test again.
#[tactic(auto, using(transfer::specs::Laws::Guards::guards), unfolding(crate::specs::Exclusive::swap_of))]
pub fn swap(regs: &mut [u32; 16], mem: &mut [u8], op: u32) -> Outcome
    ensures { (result, regs.new, mem.new) ≡ swap_of regs.old op mem.old }
{
    let at = regs[(op / 65536 % 16) as usize];
    let width = transfer::find_width(op);
    if memory::reaches_out(mem.len(), at, width.bytes()) {
        Outcome::Stop(Answer::Bus(at))
    } else {
        let old = memory::load(mem, at, width);
        memory::store(mem, at, width, regs[(op % 16) as usize]);
        cpu::land(regs, op / 4096 % 16, old)
    }
}

#[tactic(auto, using(bits::specs::Cases::cases), unfolding(crate::specs::Exclusive::width_of))]
fn size_width(op: u32) -> Width
    ensures { result ≡ width_of op }
{
    match op / 2097152 % 4 {
        2 => Width::Byte,
        3 => Width::Half,
        _ => Width::Word,
    }
}

// A value in a register, r15 by a branch, and the tag. rd is a number below 16 as the opcode gives it; a type for it would be made and unmade at each of a hundred reads.
fn give_tagged(regs: &mut [u32; 16], rd: u32, value: u32, at: u32) -> Outcome
    requires { rd < 16 }
    ensures { (result, regs.new) ≡ marked_of regs.old rd value at }
{
    cpu::land(regs, rd, value);
    Outcome::Tagged(at)
}

// LDREX, LDREXB, LDREXH.
#[tactic(auto, using(transfer::specs::Laws::Guards::guards), unfolding(crate::specs::Exclusive::ldrex_of, transfer::specs::Transfers::guarded_of))]
fn load_one(regs: &mut [u32; 16], mem: &[u8], op: u32) -> Outcome
    ensures { (result, regs.new, mem.now) ≡ ldrex_of regs.old op mem.now }
{
    let at = regs[(op / 65536 % 16) as usize];
    match memory::try_load(mem, at, size_width(op)) {
        Ok(value) => give_tagged(regs, op / 4096 % 16, value, at),
        Err(Outside(address)) => Outcome::Stop(Answer::Bus(address)),
    }
}

// LDREXD.
#[tactic(auto, using(transfer::specs::Laws::Guards::guards), unfolding(crate::specs::Exclusive::ldrexd_of))]
fn load_pair(regs: &mut [u32; 16], mem: &[u8], op: u32) -> Outcome
    ensures { (result, regs.new, mem.now) ≡ ldrexd_of regs.old op mem.now }
{
    let rd = op / 4096 % 16;
    if rd == 15 {
        cpu::refuse(regs, op)
    } else {
        let at = regs[(op / 65536 % 16) as usize];
        match memory::load_pair(mem, at) {
            Ok((first, second)) => {
                regs[rd as usize] = first;
                give_tagged(regs, rd + 1, second, at)
            }
            Err(Outside(address)) => Outcome::Stop(Answer::Bus(address)),
        }
    }
}

// Status 0, and the tag goes.
fn succeed(regs: &mut [u32; 16], op: u32) -> Outcome
    ensures { (result, regs.new) ≡ succeeded_of regs.old op }
{
    cpu::land(regs, op / 4096 % 16, 0);
    Outcome::Untagged
}

// Status 1, and the tag stays.
fn fail(regs: &mut [u32; 16], op: u32) -> Outcome
    ensures { (result, regs.new) ≡ failed_of regs.old op }
{
    cpu::land(regs, op / 4096 % 16, 1)
}

// STREX, STREXB, STREXH.
fn store_one(regs: &mut [u32; 16], mem: &mut [u8], op: u32, tag: Option<u32>) -> Outcome
    ensures { (result, regs.new, mem.new) ≡ strex_of regs.old op tag mem.old }
{
    let at = regs[(op / 65536 % 16) as usize];
    if tag == Some(at) {
        match memory::try_store(mem, at, size_width(op), regs[(op % 16) as usize]) {
            Ok(()) => succeed(regs, op),
            Err(Outside(address)) => Outcome::Stop(Answer::Bus(address)),
        }
    } else {
        fail(regs, op)
    }
}

// STREXD.
fn store_pair(regs: &mut [u32; 16], mem: &mut [u8], op: u32, tag: Option<u32>) -> Outcome
    ensures { (result, regs.new, mem.new) ≡ strexd_of regs.old op tag mem.old }
{
    let rm = op % 16;
    if rm == 15 {
        cpu::refuse(regs, op)
    } else {
        let at = regs[(op / 65536 % 16) as usize];
        if tag == Some(at) {
            match memory::store_pair(mem, at, regs[rm as usize], regs[(rm + 1) as usize]) {
                Ok(()) => succeed(regs, op),
                Err(Outside(address)) => Outcome::Stop(Answer::Bus(address)),
            }
        } else {
            fail(regs, op)
        }
    }
}

// The exclusive tag comes as its address, where there is one.
#[tactic(auto, using(bits::specs::Cases::cases), unfolding(crate::specs::Exclusive::exclusive_of))]
pub fn execute(regs: &mut [u32; 16], mem: &mut [u8], op: u32, tag: Option<u32>) -> Outcome
    ensures { (result, regs.new, mem.new) ≡ exclusive_of regs.old op tag mem.old }
{
    if op / 1048576 % 2 == 1 {
        if op / 2097152 % 4 == 1 {
            load_pair(regs, mem, op)
        } else {
            load_one(regs, mem, op)
        }
    } else if op / 2097152 % 4 == 1 {
        store_pair(regs, mem, op, tag)
    } else {
        store_one(regs, mem, op, tag)
    }
}
