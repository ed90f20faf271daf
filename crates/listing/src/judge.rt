// What a case left behind, held to what is listed.
ghost use Rattle.std.specs.Prelude.{◌≡◌, ◌==◌, is_none};
ghost use Rattle.listing.specs.Verdicts.{is_same, all_same, Tells, same_answer};

use cpu::Report;

// A value that is listed.
#[derive(Clone, Copy)]
pub enum Place {
    Number,
    First,
    Second,
    Count,
    Word(usize),
    Byte(usize),
}

// Why a line is not as listed.
#[derive(Clone, Copy)]
pub enum Difference {
    // the line is no case
    Unread,
    Value {
        place: Place,
        found: u32,
        listed: u32,
    },
}

fn judge_value(place: Place, found: u32, listed: u32) -> Result<(), Difference>
    ensures { is_same result ≡ (found == listed) }
{
    if found == listed {
        Ok(())
    } else {
        Err(Difference::Value {
            place,
            found,
            listed,
        })
    }
}

// An answer, and the count of a run.
#[tactic(auto, using(crate::specs::Laws::Verdicts::number_by_number))]
pub fn judge_answer(found: Report, count: u32, listed: Report, due: u32) -> Result<(), Difference>
    ensures { is_same result ≡ same_answer found count listed due }
{
    judge_value(Place::Number, found.number, listed.number)?;
    judge_value(Place::First, found.first, listed.first)?;
    judge_value(Place::Second, found.second, listed.second)?;
    judge_value(Place::Count, count, due)
}

// The first place where two slices of bytes differ, or where one of them ends.
fn first_difference(a: &[u8], b: &[u8]) -> Option<usize>
    ensures { Tells (is_none result) (a.now ≡ b.now) }
{
    if a == b {
        None
    } else {
        Some(a.iter().zip(b).take_while(|(x, y)| x == y).count())
    }
}

// The first word of two states that differ.
pub fn judge_state(found: &[u8; 216], listed: &[u8; 216]) -> Result<(), Difference>
    ensures { Tells (is_same result) (found.now ≡ listed.now) }
{
    match first_difference(found, listed) {
        None => Ok(()),
        Some(i) => {
            // two arrays differ before their end
            let word = (i / 4).min(53);
            let at = 4 * word as u32;
            Err(Difference::Value {
                place: Place::Word(word),
                found: memory::read32(found, at),
                listed: memory::read32(listed, at),
            })
        }
    }
}

// A byte of a memory; past its end 0 is shown.
fn byte_at(bytes: &[u8], at: usize) -> u32 {
    bytes.get(at).map_or(0, |byte| *byte as u32)
}

pub fn judge_memory(found: &[u8], listed: &[u8]) -> Result<(), Difference>
    ensures { Tells (is_same result) (found.now ≡ listed.now) }
{
    match first_difference(found, listed) {
        None => Ok(()),
        Some(at) => Err(Difference::Value {
            place: Place::Byte(at),
            found: byte_at(found, at),
            listed: byte_at(listed, at),
        }),
    }
}

// The first of three verdicts that tells a difference.
#[tactic(auto, using(crate::specs::Laws::Verdicts::in_turn_same))]
pub fn first_of(
    a: Result<(), Difference>,
    b: Result<(), Difference>,
    c: Result<(), Difference>,
) -> Result<(), Difference>
    ensures { is_same result ≡ all_same a b c }
{
    a.and(b).and(c)
}
