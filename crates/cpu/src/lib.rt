// The machine, its answers, and what a family of instructions leaves to do.
#![tactic(auto, using(bits::specs::Cases::cases))]

ghost use Rattle.std.specs.Prelude.{◌≡◌, ◌<◌};
ghost use Rattle.cpu.specs.Answers.{report, reported, is_done, is_call, bad_of};
ghost use Rattle.cpu.specs.Outcomes.{flags_of, sticky, read_late_of, undefined_of, done_of, put_of, jumped_of, landed_of, exchanged_of};

use psr::Status;

// The registers that the current mode sees come first: every step touches them.
#[derive(Clone, Copy)]
pub struct Machine {
    pub regs: [u32; 16],
    pub cpsr: Status,
    pub spsr: Status,
    // r13 and r14 of FIQ, IRQ, Supervisor, Abort, Undefined, and of User and System
    pub banked: [u32; 12],
    // the saved records of FIQ, IRQ, Supervisor, Abort, Undefined
    pub saved: [Status; 5],
    // r8 to r12 of FIQ, and of the other modes
    pub fiq: [u32; 5],
    pub user: [u32; 5],
    // the exclusive tag: the address of the latest load-exclusive
    pub tag: Option<u32>,
}

#[derive(Clone, Copy, PartialEq, Eq)]
pub enum Answer {
    Done,
    Supervisor(u32),
    Undefined(u32, u32),
    Breakpoint(u32, u32),
    Coprocessor(u32),
    Thumb,
    Fetch(u32),
    Bus(u32),
    BadState,
    TooLong,
    Timeout,
    TransferForm(u32),
}

// An answer by document 01's numbers.
#[derive(Clone, Copy)]
pub struct Report {
    pub number: u32,
    pub first: u32,
    pub second: u32,
}

// What a family leaves for the machine to do.
#[derive(Clone, Copy)]
pub enum Outcome {
    Nothing,
    // N, Z, C and V
    Flags(bool, bool, bool, bool),
    // Q is set
    Sticky,
    // GE
    Lanes(u8),
    // T
    Exchange(bool),
    Tagged(u32),
    Untagged,
    // from an exception to an address
    Return(u32),
    // a move of status words
    Moves,
    // a block transfer with S
    Block,
    // answer 1, with the registers as they now stand
    Call(u32),
    // any other answer: the machine is to be as it was before the step
    Stop(Answer),
}

// The three numbers of a report.
fn make_report(number: u32, first: u32, second: u32) -> Report
    ensures { result ≡ report number first second }
{
    Report {
        number,
        first,
        second,
    }
}

impl From<Answer> for Report {
    ghost from_gives = { λ answer r. r ≡ reported answer };

    fn from(answer: Answer) -> Report {
        match answer {
            Answer::Done => make_report(0, 0, 0),
            Answer::Supervisor(number) => make_report(1, number, 0),
            Answer::Undefined(at, opcode) => make_report(2, at, opcode),
            Answer::Breakpoint(at, number) => make_report(3, at, number),
            Answer::Coprocessor(opcode) => make_report(4, opcode, 0),
            Answer::Thumb => make_report(5, 0, 0),
            Answer::Fetch(at) => make_report(6, at, 0),
            Answer::Bus(address) => make_report(7, address, 0),
            Answer::BadState => make_report(8, 0, 0),
            Answer::TooLong => make_report(9, 0, 0),
            Answer::Timeout => make_report(10, 0, 0),
            Answer::TransferForm(opcode) => make_report(11, opcode, 0),
        }
    }
}

impl Answer {
    pub fn is_done(self) -> bool
        ensures { result ≡ is_done self }
    {
        matches!(self, Answer::Done)
    }

    pub fn is_call(self) -> bool
        ensures { result ≡ is_call self }
    {
        matches!(self, Answer::Supervisor(_))
    }
}

// Answer 8: a GE in any of the seven status records exceeds 15.
#[tactic(auto, using(bits::specs::Cases::cases), unfolding(crate::specs::Answers::bad_of))]
pub fn is_bad(m: Machine) -> bool
    ensures { result ≡ bad_of m }
{
    (15 < m.cpsr.ge) | (15 < m.spsr.ge) | m.saved.iter().any(|s| 15 < s.ge)
}

// N and Z of a result, with C and V.
pub fn set_flags_of(value: u32, c: bool, v: bool) -> Outcome
    ensures { result ≡ flags_of value c v }
{
    Outcome::Flags(0x8000_0000 <= value, value == 0, c, v)
}

// Q is set where `on`, and never cleared.
#[tactic(auto, using(bits::specs::Cases::cases), unfolding(crate::specs::Outcomes::sticky))]
pub fn set_sticky(on: bool) -> Outcome
    ensures { result ≡ sticky on }
{
    if on {
        Outcome::Sticky
    } else {
        Outcome::Nothing
    }
}

// A register read late: r15 is A + 12.
#[tactic(auto, using(bits::specs::Cases::cases), unfolding(crate::specs::Outcomes::read_late_of))]
pub fn read_late(regs: &[u32; 16], r: u32) -> u32
    requires { r < 16 }
    ensures { result ≡ read_late_of regs.now r }
{
    if r == 15 {
        regs[15].wrapping_add(4)
    } else {
        regs[r as usize]
    }
}

// An undefined code: the registers stay as they came.
pub fn refuse(regs: &mut [u32; 16], op: u32) -> Outcome
    ensures { (result, regs.new) ≡ undefined_of regs.old op }
{
    Outcome::Stop(Answer::Undefined(regs[15].wrapping_sub(8), op))
}

// The next instruction.
pub fn finish(regs: &mut [u32; 16]) -> Outcome
    ensures { (result, regs.new) ≡ done_of regs.old }
{
    regs[15] = regs[15].wrapping_sub(4);
    Outcome::Nothing
}

// A register written as it is, r15 raw.
pub fn put(regs: &mut [u32; 16], rd: u32, value: u32) -> Outcome
    requires { rd < 16 }
    ensures { (result, regs.new) ≡ put_of regs.old rd value }
{
    regs[rd as usize] = value;
    finish(regs)
}

// A branch in ARM state.
pub fn branch(regs: &mut [u32; 16], to: u32) -> Outcome
    ensures { (result, regs.new) ≡ jumped_of regs.old to }
{
    regs[15] = to / 4 * 4;
    Outcome::Nothing
}

// A register written, r15 by a branch.
#[tactic(auto, using(bits::specs::Cases::cases), unfolding(crate::specs::Outcomes::landed_of))]
pub fn land(regs: &mut [u32; 16], rd: u32, value: u32) -> Outcome
    requires { rd < 16 }
    ensures { (result, regs.new) ≡ landed_of regs.old rd value }
{
    if rd == 15 {
        branch(regs, value)
    } else {
        put(regs, rd, value)
    }
}

// A branch that takes T from bit 0 of its target.
#[tactic(auto, using(bits::specs::Cases::cases), unfolding(crate::specs::Outcomes::exchanged_of))]
pub fn branch_exchange(regs: &mut [u32; 16], to: u32) -> Outcome
    ensures { (result, regs.new) ≡ exchanged_of regs.old to }
{
    if to % 2 == 1 {
        regs[15] = to / 2 * 2;
        Outcome::Exchange(true)
    } else {
        regs[15] = to / 4 * 4;
        Outcome::Exchange(false)
    }
}
