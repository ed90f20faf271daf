// The public calls: a step, a step with a given opcode, and a run.
#![tactic(auto, using(bits::specs::Cases::cases))]

ghost use Rattle.std.specs.Prelude.{◌≡◌, length, None, Some, Ok};
ghost use Rattle.engine.specs.Step.{refused, fetches};
ghost use Rattle.engine.specs.Run.{finished};
ghost use Rattle.engine.specs.Promises.{Steps, StepsWith, Runs};
ghost use Rattle.engine.specs.Laws.Gate.{gate_of};
ghost use Rattle.engine.specs.Laws.Walk.{next_op, step_by, Goes};

use arm::Seen;
use cpu::{Answer, Machine, Outcome};

#[derive(Clone, Copy)]
pub struct Stepped {
    pub machine: Machine,
    pub answer: Answer,
}

#[derive(Clone, Copy)]
pub struct Finished {
    pub machine: Machine,
    pub answer: Answer,
    pub count: u32,
}

// Answers 9 and 8 come before everything else.
#[tactic(auto, using(bits::specs::Cases::cases), unfolding(crate::specs::Laws::Gate::gate_of))]
fn admit(m: Machine, len: usize) -> Result<(), Answer>
    ensures { result ≡ gate_of m len }
{
    if 65536 < len {
        Err(Answer::TooLong)
    } else if cpu::is_bad(m) {
        Err(Answer::BadState)
    } else {
        Ok(())
    }
}

#[tactic(auto, using(bits::specs::Cases::cases), unfolding(crate::specs::Step::fetches))]
fn can_fetch(mem: &[u8], at: u32) -> bool
    ensures { result ≡ fetches mem.now at }
{
    at % 4 == 0 && !memory::reaches_out(mem.len(), at, 4)
}

// The next opcode: the one given, or else the word at A, where it can be fetched.
#[tactic(auto, using(bits::specs::Cases::cases, crate::specs::Laws::Fetch::fetches_inside), unfolding(crate::specs::Laws::Walk::next_op))]
fn next_opcode(mem: &[u8], at: u32, given: Option<u32>) -> Option<u32>
    ensures { result ≡ next_op given mem.now at }
{
    match given {
        Some(op) => Some(op),
        None => {
            if can_fetch(mem, at) {
                Some(memory::read32(mem, at))
            } else {
                None
            }
        }
    }
}

// A step that is refused after its instruction was begun: r15 is A again.
fn refuse(m: Machine, at: u32, answer: Answer, count: u32) -> Finished
    ensures { result ≡ finished (refused m at answer).machine answer count }
{
    let mut machine = m;
    machine.regs[15] = at;
    Finished {
        machine,
        answer,
        count,
    }
}

// At most budget steps of a machine that the gate admits, which changes in place: each arm of the match ends a step.
// A budget used up is `Answer::Done`, which is what a step answers, being a run of one; an Option here would need another struct for one caller.
fn go(m: Machine, mem: &mut [u8], given: Option<u32>, budget: u32) -> Finished
    requires { gate_of m (length mem.old) ≡ Ok tt }
    ensures { Goes given budget m mem.old (result, mem.new) }
{
    let mut cur = m;
    for k in 0..budget {
        let at = cur.regs[15];
        if cur.cpsr.t {
            return Finished {
                machine: cur,
                answer: Answer::Thumb,
                count: k,
            };
        }
        let Some(op) = next_opcode(mem, at, given) else {
            return Finished {
                machine: cur,
                answer: Answer::Fetch(at),
                count: k,
            };
        };
        let seen = Seen::of(&cur);
        match arm::turn(&mut cur.regs, at, op, seen, mem) {
            Outcome::Nothing => {}
            Outcome::Flags(n, z, c, v) => {
                cur.cpsr.n = n;
                cur.cpsr.z = z;
                cur.cpsr.c = c;
                cur.cpsr.v = v;
            }
            Outcome::Sticky => cur.cpsr.q = true,
            Outcome::Lanes(ge) => cur.cpsr.ge = ge,
            Outcome::Exchange(t) => cur.cpsr.t = t,
            Outcome::Tagged(address) => cur.tag = Some(address),
            Outcome::Untagged => cur.tag = None,
            Outcome::Return(to) => cur = banks::return_to(cur, to),
            Outcome::Moves => cur = moves::move_status(cur, op),
            Outcome::Block => {
                match block::transfer_user(cur, op, mem) {
                    Ok(machine) => cur = machine,
                    Err(answer) => return refuse(cur, at, answer, k),
                }
            }
            Outcome::Call(number) => {
                return Finished {
                    machine: cur,
                    answer: Answer::Supervisor(number),
                    count: k + 1,
                };
            }
            Outcome::Stop(answer) => return refuse(cur, at, answer, k),
        }
    }
    Finished {
        machine: cur,
        answer: Answer::Done,
        count: budget,
    }
}

// A step is a run of one.
fn step_with(m: Machine, given: Option<u32>, mem: &mut [u8]) -> Stepped
    ensures { (result, mem.new) ≡ step_by given m mem.old }
{
    match admit(m, mem.len()) {
        Ok(()) => {
            let f = go(m, mem, given, 1);
            Stepped {
                machine: f.machine,
                answer: f.answer,
            }
        }
        Err(answer) => Stepped { machine: m, answer },
    }
}

#[tactic(auto, using(bits::specs::Cases::cases), unfolding(crate::specs::Laws::Walk::step_by))]
pub fn step(m: Machine, mem: &mut [u8]) -> Stepped
    ensures { Steps m mem.old (result, mem.new) }
{
    step_with(m, None, mem)
}

#[tactic(auto, using(bits::specs::Cases::cases), unfolding(crate::specs::Laws::Walk::step_by))]
pub fn step_opcode(m: Machine, op: u32, mem: &mut [u8]) -> Stepped
    ensures { StepsWith m op mem.old (result, mem.new) }
{
    step_with(m, Some(op), mem)
}

// A run whose budget is used up answers 10.
pub fn run(m: Machine, mem: &mut [u8], budget: u32) -> Finished
    ensures { Runs m mem.old budget (result, mem.new) }
{
    match admit(m, mem.len()) {
        Ok(()) => {
            let f = go(m, mem, None, budget);
            let done = f.answer.is_done();
            let answer = if done { Answer::Timeout } else { f.answer };
            Finished { answer, ..f }
        }
        Err(answer) => Finished {
            machine: m,
            answer,
            count: 0,
        },
    }
}

// The same as `run`, with the machine handed by value from step to step.
pub fn run_plain(m: Machine, mem: &mut [u8], budget: u32) -> Finished
    ensures { Runs m mem.old budget (result, mem.new) }
{
    let mut cur = m;
    for k in 0..budget {
        let s = step(cur, mem);
        if !s.answer.is_done() {
            return Finished {
                machine: s.machine,
                answer: s.answer,
                count: k + u32::from(s.answer.is_call()),
            };
        }
        cur = s.machine;
    }
    let answer = match admit(cur, mem.len()) {
        Ok(()) => Answer::Timeout,
        Err(answer) => answer,
    };
    Finished {
        machine: cur,
        answer,
        count: budget,
    }
}
