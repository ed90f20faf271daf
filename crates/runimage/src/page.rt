// What is shown of a run: the initial machine, and the numbers of the page.
ghost use Rattle.std.specs.Prelude.{◌≡◌};
ghost use Rattle.runimage.specs.Image.{default_status, initial_of, shown_from, page_of, Shows};

use cpu::{Machine, Report};
use engine::Finished;
use psr::{Mode, Status};

// The numbers that are printed, in their order.
#[derive(Clone, Copy)]
pub struct Page {
    pub exit: u32,
    pub shown: u32,
    pub steps: u32,
    pub regs: [u32; 16],
    pub cpsr: u32,
}

// Field by field, as the definition has it: `psr::unpack(0x1F)` was tried, and the proof did not close.
fn default_status() -> Status
    ensures { result ≡ default_status }
{
    Status {
        n: false,
        z: false,
        c: false,
        v: false,
        q: false,
        ge: 0,
        e: false,
        a: false,
        i: false,
        f: false,
        t: false,
        mode: Mode::System,
    }
}

fn start_machine() -> Machine
    ensures { result ≡ initial_of }
{
    let s = default_status();
    Machine {
        regs: [0; 16],
        cpsr: s,
        spsr: s,
        banked: [0; 12],
        saved: [s, s, s, s, s],
        fiq: [0; 5],
        user: [0; 5],
        tag: None,
    }
}

// The value beside the answer's number.
fn show_value(report: Report) -> u32
    ensures { result ≡ shown_from report }
{
    match report.number {
        2 | 3 => report.second,
        _ => report.first,
    }
}

impl From<Finished> for Page {
    ghost from_gives = { λ f page. page ≡ page_of f };

    fn from(f: Finished) -> Page {
        let machine = f.machine;
        let regs = machine.regs;
        let report = Report::from(f.answer);
        Page {
            exit: report.number,
            shown: show_value(report),
            steps: f.count,
            regs,
            cpsr: psr::pack_or_zero(machine.cpsr),
        }
    }
}

pub fn run_image(mem: &mut [u8]) -> Page
    ensures { Shows mem.old result }
{
    Page::from(engine::run(start_machine(), mem, 10000))
}
