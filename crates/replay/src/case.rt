// One line of the list, replayed.
ghost use Rattle.listing.specs.Reading.{LeadsTo};

use cpu::{Machine, Report};
use engine::{Finished, Stepped};
use listing::judge::Difference;
use listing::make::Length;
use listing::scene::Scene;
use listing::text::Cursor;
use listing::{items, judge, make};

// The calls that a line may name.
#[derive(Clone, Copy)]
enum Call {
    Step,
    Fetch,
    Run,
}

// What a line says first: the call with the number given to it, and what the machine is made of.
#[derive(Clone, Copy)]
struct Head {
    call: Call,
    seed: u32,
    length: Length,
    given: u32,
}

// What a line says last: the answer with its values, and the count of a run.
#[derive(Clone, Copy)]
struct Listed {
    report: Report,
    count: u32,
}

// `step`, `fetch` or `run`; the rest of the first word says only where the answer is from. A `TryFrom` would need an error that nobody reads.
fn call_of(letter: u8) -> Option<Call> {
    match letter {
        b's' => Some(Call::Step),
        b'f' => Some(Call::Fetch),
        b'r' => Some(Call::Run),
        _ => None,
    }
}

// The lengths that the list may name are those of the rooms.
#[tactic(auto, using(listing::specs::Laws::Reading::leading))]
fn read_head(line: &mut Cursor) -> Option<Head>
    ensures { LeadsTo line.old.rest.now line.new.rest.now }
{
    let call = call_of(*line.rest.first()?)?;
    line.skip_to(b' ')?;
    let seed = line.field()?;
    let length = Length::new(line.field()?)?;
    let given = line.field()?;
    Some(Head {
        call,
        seed,
        length,
        given,
    })
}

// The count, where the line is a run.
#[tactic(auto, using(listing::specs::Laws::Reading::leading))]
fn read_count(line: &mut Cursor, call: Call) -> Option<u32>
    ensures { LeadsTo line.old.rest.now line.new.rest.now }
{
    match call {
        Call::Run => line.field(),
        Call::Step | Call::Fetch => Some(0),
    }
}

#[tactic(auto, using(listing::specs::Laws::Reading::leading))]
fn read_listed(line: &mut Cursor, call: Call) -> Option<Listed>
    ensures { LeadsTo line.old.rest.now line.new.rest.now }
{
    line.pass(b' ')?;
    line.pass(b'>')?;
    let number = line.field()?;
    let first = line.field()?;
    let second = line.field()?;
    let count = read_count(line, call)?;
    Some(Listed {
        report: Report {
            number,
            first,
            second,
        },
        count,
    })
}

// The state as the machine is read from it: what a packed word drops is dropped.
fn settle_state(state: &mut [u8; 216]) {
    let m = state::read_state(state);
    state::write_state(state, m);
}

// The state and the memory before the call.
fn read_before(line: &mut Cursor, head: &Head, before: &mut Scene) -> Option<()>
    ensures { LeadsTo line.old.rest.now line.new.rest.now }
{
    make::fill(head.seed, head.length, before);
    items::set_items(line, before)?;
    settle_state(&mut before.state);
    Some(())
}

// `copy_from_slice` asks for one length, and no clause says that a scene keeps that of its memory.
fn copy_bytes(from: &[u8], to: &mut [u8]) {
    for (old, new) in to.iter_mut().zip(from) {
        *old = *new;
    }
}

// What is listed after the call: what was before it, but for the items.
#[tactic(auto, using(listing::specs::Laws::Reading::leading))]
fn read_after(line: &mut Cursor, head: &Head, before: &Scene, after: &mut Scene) -> Option<Listed>
    ensures { LeadsTo line.old.rest.now line.new.rest.now }
{
    after.state = before.state;
    copy_bytes(before.memory, after.memory);
    let listed = read_listed(line, head.call)?;
    items::set_items(line, after)?;
    if line.has_end() { Some(listed) } else { None }
}

// A step has no count; a `From` would stand in engine, for this program alone.
fn uncounted(s: Stepped) -> Finished {
    Finished {
        machine: s.machine,
        answer: s.answer,
        count: 0,
    }
}

fn take_call(head: &Head, m: Machine, memory: &mut [u8]) -> Finished {
    match head.call {
        Call::Step => uncounted(engine::step_opcode(m, head.given, memory)),
        Call::Fetch => uncounted(engine::step(m, memory)),
        Call::Run => engine::run(m, memory, head.given),
    }
}

// The call taken, and all that it left held to what is listed.
fn judge_call(
    head: &Head,
    scene: &mut Scene,
    listed: Listed,
    after: &Scene,
) -> Result<(), Difference> {
    let m = state::read_state(&scene.state);
    let f = take_call(head, m, scene.memory);
    state::write_state(&mut scene.state, f.machine);
    let found = Report::from(f.answer);
    judge::first_of(
        judge::judge_answer(found, f.count, listed.report, listed.count),
        judge::judge_state(&scene.state, &after.state),
        judge::judge_memory(scene.memory, after.memory),
    )
}

fn replay_case(
    line: &mut Cursor,
    head: &Head,
    before: &mut Scene,
    after: &mut Scene,
) -> Result<(), Difference> {
    read_before(line, head, before).ok_or(Difference::Unread)?;
    let listed = read_after(line, head, before, after).ok_or(Difference::Unread)?;
    judge_call(head, before, listed, after)
}

pub fn replay_line(
    line: &[u8],
    room: &mut [u8; 65537],
    listed_room: &mut [u8; 65537],
) -> Result<(), Difference> {
    let mut line = Cursor::new(line);
    let head = read_head(&mut line).ok_or(Difference::Unread)?;
    let n = head.length.value as usize;
    let mut before = Scene {
        state: [0; 216],
        memory: &mut room[..n],
    };
    let mut after = Scene {
        state: [0; 216],
        memory: &mut listed_room[..n],
    };
    replay_case(&mut line, &head, &mut before, &mut after)
}
