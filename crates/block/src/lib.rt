// LDM and STM: on lent registers, and with S on the machine by value.
// Registers and opcode come hand in hand: the manual's form.
#![tactic(auto, using(bits::specs::Cases::cases))]

ghost use Rattle.std.specs.Prelude.{◌≡◌, ℕ, ◌<◌, length, set};
ghost use Rattle.cpu.specs.With.{with_regs};
ghost use Rattle.banks.specs.Banks.{user_reg_of, with_user_reg};
ghost use Rattle.block.specs.Block.{list_of, span_of, start_of, plan_of, found_of, back_of, unlisted_of, loaded_list_of, continued_of, store_of, load_of, block_of};
ghost use Rattle.block.specs.UserBlock.{user_store_of, user_load_of, return_load_of, user_moved_of, user_block_of};
ghost use Rattle.block.specs.Laws.Sources.{sources_of, stored_by, Values};

use cpu::{Answer, Machine, Outcome};

// What a transfer is told: its list, the lowest address, and the moved base. That its words lie inside is a fact about the memory too, so clauses say it and not the type. The list is widened by `as`: tried with `from`, whose result is a second name of the list, and the proofs of the loops did not close.
#[derive(Clone, Copy)]
pub struct Plan {
    pub list: u16,
    pub start: u32,
    pub moved: u32,
}

#[tactic(auto, using(bits::specs::Cases::cases), unfolding(crate::specs::Block::list_of))]
fn list_of(op: u32) -> u16
    ensures { result ≡ list_of op }
{
    let low = (op % 65536) as u16;
    if low == 0 { 32768 } else { low }
}

#[tactic(auto, using(bits::specs::Cases::cases, bits::specs::Laws::Count::ones_le), unfolding(crate::specs::Block::span_of))]
fn find_span(op: u32, list: u16) -> u32
    requires { list ≡ list_of op }
    ensures { result ≡ span_of op }
{
    if op % 65536 == 0 {
        64
    } else {
        4 * bits::count_ones(u32::from(list))
    }
}

#[tactic(auto, using(bits::specs::Cases::cases), unfolding(crate::specs::Block::start_of))]
fn find_start(regs: &[u32; 16], op: u32, moved: u32) -> u32
    ensures { result ≡ start_of regs.now op moved }
{
    match op / 8388608 % 4 {
        1 => regs[(op / 65536 % 16) as usize],
        3 => regs[(op / 65536 % 16) as usize].wrapping_add(4),
        0 => moved.wrapping_add(4),
        _ => moved,
    }
}

// What a load puts its words into, a register at a time. r is a number below 16 as the list gives it; a type for it would be made and unmade at each of a hundred reads.
trait Registers {
    ghost with: { Self → ℕ → ℕ → Self };

    fn put(&mut self, r: u32, word: u32)
        requires { r < 16 }
        ensures { self.new ≡ with self.old r word };
}

impl Registers for [u32; 16] {
    ghost with = { λ x r v. set x r v };

    fn put(&mut self, r: u32, word: u32) {
        self[r as usize] = word;
    }
}

// Those of the User bank.
impl Registers for Machine {
    ghost with = { λ x r v. with_user_reg x r v };

    fn put(&mut self, r: u32, word: u32) {
        *self = banks::write_user_reg(*self, r, word);
    }
}

impl Plan {
    fn make(regs: &[u32; 16], op: u32) -> Plan
        ensures { result ≡ plan_of regs.now op }
    {
        let list = list_of(op);
        let moved = transfer::move_base(regs, op, find_span(op, list));
        let start = find_start(regs, op, moved);
        Plan { list, start, moved }
    }

    // A block whose end lies inside needs no test of each access.
    fn find_outside(self, len: usize) -> Option<u32>
        ensures { result ≡ found_of self len }
    {
        let count = bits::count_ones(self.list as u32);
        if self.start as usize + 4 * count as usize <= len {
            None
        } else {
            memory::find_outside(len, self.start, 4, count)
        }
    }

    fn write_back(self, regs: &mut [u32; 16], op: u32)
        ensures { regs.new ≡ back_of self regs.old op }
    {
        if op / 2097152 % 2 == 1 {
            regs[(op / 65536 % 16) as usize] = self.moved;
        }
    }

    // A base that is loaded is not written back.
    fn write_unlisted(self, regs: &mut [u32; 16], op: u32)
        ensures { regs.new ≡ unlisted_of self regs.old op }
    {
        let listed = bits::bit(self.list as u32, op / 65536 % 16);
        if !listed {
            self.write_back(regs, op);
        }
    }

    // The registers as they are stored.
    fn take_sources(self, regs: &[u32; 16], op: u32) -> [u32; 16]
        ensures { result ≡ sources_of self regs.now op }
    {
        let rn = op / 65536 % 16;
        let lower = 0 < self.list as u64 % bits::power(rn);
        let moves = (op / 2097152 % 2 == 1) & lower;
        let mut out = *regs;
        if moves {
            out[rn as usize] = self.moved;
        }
        out[15] = regs[15].wrapping_add(4);
        out
    }

    // The values of the listed registers, in transfer order; no register is looked at behind the last of the list.
    // It has two callers, so LLVM would not inline it.
    #[inline(always)]
    fn store_listed(self, values: &[u32; 16], mem: &mut [u8])
        requires { found_of self (length mem.old) ≡ None }
        ensures { mem.new ≡ stored_by self values.now mem.old }
    {
        let mut rest = self.list as u32;
        let mut a = self.start;
        for value in values {
            if rest == 0 {
                break;
            }
            if rest % 2 == 1 {
                memory::write32(mem, a, *value);
                a = a.wrapping_add(4);
            }
            rest /= 2;
        }
    }

    // The words into the listed registers, in transfer order; all sixteen are looked at, since the loop is then written out.
    fn load_listed<R: Registers>(self, to: &mut R, mem: &[u8])
        requires { found_of self (length mem.now) ≡ None }
        ensures { to.new ≡ loaded_list_of self R.with to.old mem.now }
    {
        let mut rest = self.list as u32;
        let mut a = self.start;
        for i in 0..16 {
            if rest % 2 == 1 {
                to.put(i, memory::read32(mem, a));
                a = a.wrapping_add(4);
            }
            rest /= 2;
        }
    }
}

#[tactic(auto, using(transfer::specs::Laws::Guards::guards, crate::specs::Laws::Sources::stored_sources), unfolding(crate::specs::Block::store_of))]
fn store(regs: &mut [u32; 16], op: u32, p: Plan, mem: &mut [u8]) -> Outcome
    requires { found_of p (length mem.old) ≡ None }
    ensures { (result, regs.new, mem.new) ≡ store_of p regs.old op mem.old }
{
    let values = p.take_sources(regs, op);
    p.store_listed(&values, mem);
    p.write_back(regs, op);
    cpu::finish(regs)
}

#[tactic(auto, using(bits::specs::Cases::cases), unfolding(crate::specs::Block::continued_of))]
fn go_on(regs: &mut [u32; 16], p: Plan) -> Outcome
    ensures { (result, regs.new) ≡ continued_of p regs.old }
{
    if p.list / 32768 % 2 == 1 {
        let to = regs[15];
        cpu::branch_exchange(regs, to)
    } else {
        cpu::finish(regs)
    }
}

#[tactic(auto, using(bits::specs::Cases::cases), unfolding(crate::specs::Block::load_of))]
fn load(regs: &mut [u32; 16], op: u32, p: Plan, mem: &[u8]) -> Outcome
    requires { found_of p (length mem.now) ≡ None }
    ensures { (result, regs.new, mem.now) ≡ load_of p regs.old op mem.now }
{
    p.write_unlisted(regs, op);
    p.load_listed(regs, mem);
    go_on(regs, p)
}

#[tactic(auto, using(bits::specs::Cases::cases, crate::specs::Laws::Ways::loads, crate::specs::Laws::Ways::stores, crate::specs::Laws::Ways::refuses), unfolding(crate::specs::Block::block_of))]
pub fn execute(regs: &mut [u32; 16], op: u32, mem: &mut [u8]) -> Outcome
    ensures { (result, regs.new, mem.new) ≡ block_of regs.old op mem.old }
{
    if op / 4194304 % 2 == 1 {
        Outcome::Block
    } else {
        let p = Plan::make(regs, op);
        match p.find_outside(mem.len()) {
            None => {
                if op / 1048576 % 2 == 1 {
                    load(regs, op, p, mem)
                } else {
                    store(regs, op, p, mem)
                }
            }
            Some(at) => Outcome::Stop(Answer::Bus(at)),
        }
    }
}

// The registers of the User bank.
fn take_user(m: Machine) -> [u32; 16]
    ensures { Values result (user_reg_of m) 16 }
{
    std::array::from_fn(|i| banks::read_user_reg(m, i as u32))
}

#[tactic(auto, using(bits::specs::Cases::cases, crate::specs::Laws::Sources::stored_values), unfolding(crate::specs::UserBlock::user_store_of))]
fn store_user(m: Machine, op: u32, p: Plan, mem: &mut [u8]) -> Machine
    requires { found_of p (length mem.old) ≡ None }
    ensures { (result, mem.new) ≡ user_store_of p m op mem.old }
{
    let values = take_user(m);
    p.store_listed(&values, mem);
    let mut out = m;
    p.write_back(&mut out.regs, op);
    banks::move_on(out)
}

// The machine after the base is written, before the words.
fn write_base(m: Machine, op: u32, p: Plan) -> Machine
    ensures { result ≡ with_regs m (unlisted_of p m.regs op) }
{
    let mut out = m;
    p.write_unlisted(&mut out.regs, op);
    out
}

#[tactic(auto, using(bits::specs::Cases::cases), unfolding(crate::specs::UserBlock::user_load_of))]
fn load_user(m: Machine, op: u32, p: Plan, mem: &[u8]) -> Machine
    requires { found_of p (length mem.now) ≡ None }
    ensures { result ≡ user_load_of p m op mem.now }
{
    let mut out = write_base(m, op, p);
    p.load_listed(&mut out, mem);
    if p.list / 32768 % 2 == 1 {
        out
    } else {
        banks::move_on(out)
    }
}

// The saved record comes back before r15 branches.
fn load_return(m: Machine, op: u32, p: Plan, mem: &[u8]) -> Machine
    requires { found_of p (length mem.now) ≡ None }
    ensures { result ≡ return_load_of p m op mem.now }
{
    let mut out = write_base(m, op, p);
    p.load_listed(&mut out.regs, mem);
    banks::exchange_to(banks::restore(out), out.regs[15])
}

#[tactic(auto, using(bits::specs::Cases::cases), unfolding(crate::specs::UserBlock::user_moved_of))]
fn move_user(m: Machine, op: u32, p: Plan, mem: &mut [u8]) -> Machine
    requires { found_of p (length mem.old) ≡ None }
    ensures { (result, mem.new) ≡ user_moved_of p m op mem.old }
{
    if op / 1048576 % 2 == 1 {
        if op / 32768 % 2 == 1 {
            load_return(m, op, p, mem)
        } else {
            load_user(m, op, p, mem)
        }
    } else {
        store_user(m, op, p, mem)
    }
}

// With S, on the machine by value: the machine afterwards, or answer 7, and memory as it was.
// Out of the dispatcher, whose registers are then kept for what is often met.
#[cold]
#[inline(never)]
pub fn transfer_user(m: Machine, op: u32, mem: &mut [u8]) -> Result<Machine, Answer>
    ensures { (result, mem.new) ≡ user_block_of m op mem.old }
{
    let p = Plan::make(&m.regs, op);
    match p.find_outside(mem.len()) {
        None => Ok(move_user(m, op, p, mem)),
        Some(at) => Err(Answer::Bus(at)),
    }
}
