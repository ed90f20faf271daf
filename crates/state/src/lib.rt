// The whole machine as 216 lent bytes and back, and an answer as 12 bytes, or 16.
#![tactic(auto)]

ghost use Rattle.std.specs.Prelude.{◌≡◌, map, ◌+◌, ◌*◌, ◌<◌, ◌≤◌, length};
ghost use Rattle.psr.specs.Status.{packed_word_of};
ghost use Rattle.state.specs.State.{ge_byte_of, word, words_from, record_at, tag_of, state_of, records_of, ge_number_of, tag_words_of, state_bytes_of, bytes_of, report_bytes_of, counted_bytes_of};
ghost use Rattle.state.specs.Laws.Words.{placed};
ghost use Rattle.state.specs.Laws.Parts.{front_placed, back_placed};

use cpu::{Machine, Report};
use psr::Status;
use std::array;

// A GE number as the byte of a record.
#[tactic(auto, using(bits::specs::Cases::cases), unfolding(crate::specs::State::ge_byte_of))]
pub fn narrow_ge(ge: u32) -> u8
    ensures { result ≡ ge_byte_of ge }
{
    u8::try_from(ge).unwrap_or(255)
}

fn read_word(bytes: &[u8; 216], i: u32) -> u32
    requires { i < 54 }
    ensures { result ≡ word bytes.now i }
{
    memory::read32(bytes, 4 * i)
}

// N words from one on.
fn read_words<const N: usize>(bytes: &[u8; 216], from: u32) -> [u32; N]
    requires { from + N ≤ 54 }
    ensures { result ≡ words_from bytes.now from N }
{
    array::from_fn(|i| read_word(bytes, from + i as u32))
}

fn read_status(bytes: &[u8; 216], i: u32) -> Status
    requires { i < 47 }
    ensures { result ≡ record_at bytes.now i }
{
    let mut s = psr::unpack(read_word(bytes, i));
    s.ge = narrow_ge(read_word(bytes, i + 7));
    s
}

fn read_saved(bytes: &[u8; 216]) -> [Status; 5]
    ensures { result ≡ (state_of bytes.now).saved }
{
    array::from_fn(|i| read_status(bytes, 18 + i as u32))
}

#[tactic(auto, using(bits::specs::Cases::cases), unfolding(crate::specs::State::tag_of))]
fn read_tag(bytes: &[u8; 216]) -> Option<u32>
    ensures { result ≡ tag_of bytes.now }
{
    match read_word(bytes, 52) {
        0 => None,
        _ => Some(read_word(bytes, 53)),
    }
}

#[tactic(auto, unfolding(crate::specs::State::state_of))]
pub fn read_state(bytes: &[u8; 216]) -> Machine
    ensures { result ≡ state_of bytes.now }
{
    Machine {
        regs: read_words(bytes, 0),
        cpsr: read_status(bytes, 16),
        spsr: read_status(bytes, 17),
        banked: read_words(bytes, 30),
        saved: read_saved(bytes),
        fiq: read_words(bytes, 42),
        user: read_words(bytes, 47),
        tag: read_tag(bytes),
    }
}

// The values as words, from one on. The bytes are a slice, since those of a state and of both answers come here.
#[tactic(auto, using(crate::specs::Laws::Words::placed_turn, crate::specs::Laws::Words::placed_past))]
fn write_words(bytes: &mut [u8], from: u32, values: &[u32])
    requires { (4 * (from + length values.now) ≤ length bytes.old) × (length bytes.old ≤ 216) }
    ensures { bytes.new ≡ placed bytes.old from values.now }
{
    for (i, value) in values.iter().enumerate() {
        memory::write32(bytes, 4 * (from + i as u32), *value);
    }
}

fn records(m: Machine) -> [Status; 7]
    ensures { result ≡ records_of m }
{
    let [fiq, irq, supervisor, abort, undefined] = m.saved;
    [m.cpsr, m.spsr, fiq, irq, supervisor, abort, undefined]
}

fn pack_words(m: Machine) -> [u32; 7]
    ensures { result ≡ map packed_word_of (records_of m) }
{
    records(m).map(psr::pack_or_zero)
}

fn ge_words(m: Machine) -> [u32; 7]
    ensures { result ≡ map ge_number_of (records_of m) }
{
    records(m).map(|s| u32::from(s.ge))
}

fn tag_words(tag: Option<u32>) -> [u32; 2]
    ensures { result ≡ tag_words_of tag }
{
    match tag {
        None => [0, 0],
        Some(at) => [1, at],
    }
}

// Words 0 to 29: the registers, the status words, the GE numbers.
#[tactic(auto, unfolding(crate::specs::Laws::Parts::front_placed))]
fn write_front(bytes: &mut [u8; 216], m: Machine)
    ensures { bytes.new ≡ front_placed bytes.old m }
{
    write_words(bytes, 0, &m.regs);
    write_words(bytes, 16, &pack_words(m));
    write_words(bytes, 23, &ge_words(m));
}

// Words 30 to 53: the banked words and the tag.
#[tactic(auto, unfolding(crate::specs::Laws::Parts::back_placed))]
fn write_back(bytes: &mut [u8; 216], m: Machine)
    ensures { bytes.new ≡ back_placed bytes.old m }
{
    write_words(bytes, 30, &m.banked);
    write_words(bytes, 42, &m.fiq);
    write_words(bytes, 47, &m.user);
    write_words(bytes, 52, &tag_words(m.tag));
}

#[tactic(auto, using(crate::specs::Laws::Parts::all_placed))]
pub fn write_state(bytes: &mut [u8; 216], m: Machine)
    ensures { bytes.new ≡ state_bytes_of m }
{
    write_front(bytes, m);
    write_back(bytes, m);
}

// The numbers of an answer, over all of its bytes.
#[tactic(auto, using(crate::specs::Laws::Words::placed_all))]
fn write_numbers(bytes: &mut [u8], numbers: &[u32])
    requires { (length bytes.old ≡ 4 * length numbers.now) × (length numbers.now ≤ 4) }
    ensures { bytes.new ≡ bytes_of numbers.now }
{
    write_words(bytes, 0, numbers);
}

pub fn write_report(bytes: &mut [u8; 12], report: Report)
    ensures { bytes.new ≡ report_bytes_of report }
{
    write_numbers(bytes, &[report.number, report.first, report.second]);
}

// The answer of a run, with its count.
pub fn write_counted(bytes: &mut [u8; 16], report: Report, count: u32)
    ensures { bytes.new ≡ counted_bytes_of report count }
{
    write_numbers(bytes, &[report.number, report.first, report.second, count]);
}
