// Loads and stores of one register or of a pair, on lent registers and memory.
// Registers and opcode come hand in hand: the manual's form.
#![tactic(auto, using(bits::specs::Cases::cases))]

ghost use Rattle.std.specs.Prelude.{◌≡◌, ◌+◌, ◌/◌, ◌%◌, ◌<◌};
ghost use Rattle.loadstore.specs.Single.{offset_of, taken_of, source_of, single_at, single_of};
ghost use Rattle.loadstore.specs.Extra.{extra_offset_of, extra_loads_of, strh_of, ldrd_of, strd_of, extra_at, extra_of};
ghost use Rattle.loadstore.specs.Laws.Loads.{place_of, tested_load_of, widened_of, wide_load_of, tested_store_of};

use cpu::{Answer, Outcome};
use memory::{Outside, Width};

// Where a transfer is: its access, and the moved base.
#[derive(Clone, Copy)]
struct Place {
    moved: u32,
    at: u32,
}

impl Place {
    fn find(regs: &[u32; 16], op: u32, offset: u32) -> Place
        ensures { result ≡ place_of regs.now op offset }
    {
        let moved = transfer::move_base(regs, op, offset);
        let at = transfer::find_address(regs, op, moved);
        Place { moved, at }
    }
}

// The offset of LDR and STR.
#[tactic(auto, using(bits::specs::Cases::cases), unfolding(crate::specs::Single::offset_of))]
fn find_offset(regs: &[u32; 16], op: u32, c: bool) -> u32
    ensures { result ≡ offset_of regs.now op c }
{
    if op / 33554432 % 2 == 1 {
        shifter::by_immediate(
            shifter::shift_type(op / 32 % 4),
            regs[(op % 16) as usize],
            op / 128 % 32,
            c,
        )
        .value
    } else {
        op % 4096
    }
}

// What STR stores: r15 is A + 12.
#[tactic(auto, using(bits::specs::Cases::cases), unfolding(crate::specs::Single::source_of))]
fn read_source(regs: &[u32; 16], op: u32) -> u32
    ensures { result ≡ source_of regs.now op }
{
    let rd = op / 4096 % 16;
    if rd == 15 {
        regs[15].wrapping_add(4)
    } else {
        regs[rd as usize]
    }
}

// What LDR loads: r15 takes T from bit 0.
#[tactic(auto, using(bits::specs::Cases::cases), unfolding(crate::specs::Single::taken_of))]
fn take(regs: &mut [u32; 16], op: u32, value: u32) -> Outcome
    ensures { (result, regs.new) ≡ taken_of regs.old op value }
{
    let rd = op / 4096 % 16;
    if rd == 15 {
        cpu::branch_exchange(regs, value)
    } else {
        cpu::put(regs, rd, value)
    }
}

// The base comes before the load: where it is the destination, it keeps what was loaded.
#[tactic(auto, using(transfer::specs::Laws::Guards::guards))]
fn load_one(regs: &mut [u32; 16], op: u32, mem: &mut [u8], place: Place, width: Width) -> Outcome
    ensures { (result, regs.new, mem.new) ≡ tested_load_of regs.old op mem.old place.moved place.at width }
{
    match memory::try_load(mem, place.at, width) {
        Ok(value) => {
            transfer::write_back(regs, op, place.moved);
            take(regs, op, value)
        }
        Err(Outside(address)) => Outcome::Stop(Answer::Bus(address)),
    }
}

fn store_one(
    regs: &mut [u32; 16],
    op: u32,
    mem: &mut [u8],
    place: Place,
    width: Width,
    value: u32,
) -> Outcome
    ensures { (result, regs.new, mem.new) ≡ tested_store_of regs.old op mem.old place.moved place.at width value }
{
    match memory::try_store(mem, place.at, width, value) {
        Ok(()) => {
            transfer::write_back(regs, op, place.moved);
            cpu::finish(regs)
        }
        Err(Outside(address)) => Outcome::Stop(Answer::Bus(address)),
    }
}

#[tactic(auto, using(transfer::specs::Laws::Guards::guards), unfolding(crate::specs::Single::single_at))]
fn move_single(regs: &mut [u32; 16], op: u32, mem: &mut [u8], place: Place) -> Outcome
    ensures { (result, regs.new, mem.new) ≡ single_at regs.old op mem.old place.moved place.at }
{
    let width = transfer::find_width(op);
    if op / 1048576 % 2 == 1 {
        load_one(regs, op, mem, place, width)
    } else {
        store_one(regs, op, mem, place, width, read_source(regs, op))
    }
}

// LDR, LDRB, STR and STRB.
#[tactic(auto, using(bits::specs::Cases::cases), unfolding(crate::specs::Single::single_of))]
pub fn single(regs: &mut [u32; 16], op: u32, c: bool, mem: &mut [u8]) -> Outcome
    ensures { (result, regs.new, mem.new) ≡ single_of regs.old op c mem.old }
{
    let place = Place::find(regs, op, find_offset(regs, op, c));
    move_single(regs, op, mem, place)
}

// The offset of the others.
#[tactic(auto, using(bits::specs::Cases::cases), unfolding(crate::specs::Extra::extra_offset_of))]
fn find_extra_offset(regs: &[u32; 16], op: u32) -> u32
    ensures { result ≡ extra_offset_of regs.now op }
{
    if op / 4194304 % 2 == 1 {
        op / 256 % 16 * 16 + op % 16
    } else {
        regs[(op % 16) as usize]
    }
}

// A number as a word, by its sign or not: a flag, as `widened_of` takes it; a closure or two functions would name the same choice twice.
#[tactic(auto, using(bits::specs::Cases::cases), unfolding(crate::specs::Laws::Loads::widened_of))]
fn widen(value: u32, width: Width, sign: bool) -> u32
    ensures { result ≡ widened_of width sign value }
{
    if sign {
        bits::sign_extend(value, 8 * width.bytes())
    } else {
        value
    }
}

// A load of one value.
#[tactic(auto, using(transfer::specs::Laws::Guards::guards))]
fn load_wide(
    regs: &mut [u32; 16],
    op: u32,
    mem: &mut [u8],
    place: Place,
    width: Width,
    sign: bool,
) -> Outcome
    ensures { (result, regs.new, mem.new) ≡ wide_load_of regs.old op mem.old place.moved place.at width sign }
{
    match memory::try_load(mem, place.at, width) {
        Ok(value) => {
            transfer::write_back(regs, op, place.moved);
            cpu::land(regs, op / 4096 % 16, widen(value, width, sign))
        }
        Err(Outside(address)) => Outcome::Stop(Answer::Bus(address)),
    }
}

// LDRH, LDRSB and LDRSH.
#[tactic(auto, using(bits::specs::Cases::cases), unfolding(crate::specs::Extra::extra_loads_of, crate::specs::Laws::Loads::widened_of))]
fn load_extra(regs: &mut [u32; 16], op: u32, mem: &mut [u8], place: Place) -> Outcome
    ensures { (result, regs.new, mem.new) ≡ extra_loads_of regs.old op mem.old place.moved place.at }
{
    match op / 32 % 4 {
        1 => load_wide(regs, op, mem, place, Width::Half, false),
        2 => load_wide(regs, op, mem, place, Width::Byte, true),
        _ => load_wide(regs, op, mem, place, Width::Half, true),
    }
}

// STRH.
fn store_half(regs: &mut [u32; 16], op: u32, mem: &mut [u8], place: Place) -> Outcome
    ensures { (result, regs.new, mem.new) ≡ strh_of regs.old op mem.old place.moved place.at }
{
    let value = regs[(op / 4096 % 16) as usize];
    store_one(regs, op, mem, place, Width::Half, value)
}

// LDRD.
#[tactic(auto, using(transfer::specs::Laws::Guards::guards), unfolding(transfer::specs::Transfers::guarded_of))]
fn load_pair(regs: &mut [u32; 16], op: u32, mem: &mut [u8], place: Place) -> Outcome
    requires { op / 4096 % 16 < 15 }
    ensures { (result, regs.new, mem.new) ≡ ldrd_of regs.old op mem.old place.moved place.at }
{
    match memory::load_pair(mem, place.at) {
        Ok((low, high)) => {
            transfer::write_back(regs, op, place.moved);
            regs[(op / 4096 % 16) as usize] = low;
            cpu::land(regs, op / 4096 % 16 + 1, high)
        }
        Err(Outside(address)) => Outcome::Stop(Answer::Bus(address)),
    }
}

// STRD.
fn store_pair(regs: &mut [u32; 16], op: u32, mem: &mut [u8], place: Place) -> Outcome
    requires { op / 4096 % 16 < 15 }
    ensures { (result, regs.new, mem.new) ≡ strd_of regs.old op mem.old place.moved place.at }
{
    let low = regs[(op / 4096 % 16) as usize];
    let high = regs[(op / 4096 % 16 + 1) as usize];
    match memory::store_pair(mem, place.at, low, high) {
        Ok(()) => {
            transfer::write_back(regs, op, place.moved);
            cpu::finish(regs)
        }
        Err(Outside(address)) => Outcome::Stop(Answer::Bus(address)),
    }
}

#[tactic(auto, using(bits::specs::Cases::cases), unfolding(crate::specs::Extra::extra_at))]
fn move_extra(regs: &mut [u32; 16], op: u32, mem: &mut [u8], place: Place) -> Outcome
    ensures { (result, regs.new, mem.new) ≡ extra_at regs.old op mem.old place.moved place.at }
{
    match op / 32 % 4 {
        0 => Outcome::Stop(Answer::TransferForm(op)),
        _ if op / 1048576 % 2 == 1 => load_extra(regs, op, mem, place),
        1 => store_half(regs, op, mem, place),
        _ if op / 4096 % 16 == 15 => cpu::refuse(regs, op),
        2 => load_pair(regs, op, mem, place),
        _ => store_pair(regs, op, mem, place),
    }
}

// LDRH, LDRSB, LDRSH, STRH, LDRD and STRD.
#[tactic(auto, using(bits::specs::Cases::cases), unfolding(crate::specs::Extra::extra_of))]
pub fn extra(regs: &mut [u32; 16], op: u32, mem: &mut [u8]) -> Outcome
    ensures { (result, regs.new, mem.new) ≡ extra_of regs.old op mem.old }
{
    let place = Place::find(regs, op, find_extra_offset(regs, op));
    move_extra(regs, op, mem, place)
}
