// Items of a line: what stands at a place of the state or the memory.
ghost use Rattle.listing.specs.Reading.{LeadsTo};

use crate::scene::Scene;
use crate::text::{Cursor, Item};

// `word=value`, the word's number in decimal.
fn set_word(item: Item, state: &mut [u8; 216]) -> Option<()> {
    let word = item.place / 16 * 10 + item.place % 16;
    if word >= 54 {
        return None;
    }
    memory::write32(state, 4 * word, item.value);
    Some(())
}

// `@address=byte`
fn set_byte(item: Item, memory: &mut [u8]) -> Option<()> {
    let byte = memory.get_mut(item.place as usize)?;
    *byte = u8::try_from(item.value).ok()?;
    Some(())
}

// `*address=word`
fn set_four(item: Item, memory: &mut [u8]) -> Option<()> {
    if memory.len() < item.place as usize + 4 {
        return None;
    }
    memory::write32(memory, item.place, item.value);
    Some(())
}

#[tactic(auto, using(crate::specs::Laws::Reading::leading))]
fn set_item(line: &mut Cursor, scene: &mut Scene) -> Option<()>
    ensures { LeadsTo line.old.rest.now line.new.rest.now }
{
    if line.pass(b'@').is_some() {
        set_byte(line.item()?, scene.memory)
    } else if line.pass(b'*').is_some() {
        set_four(line.item()?, scene.memory)
    } else {
        set_word(line.item()?, &mut scene.state)
    }
}

// Whether a blank and the first byte of an item stand there.
fn starts_item(line: &Cursor) -> bool {
    matches!(line.rest, [b' ', b'@' | b'*' | b'0'..=b'9', ..])
}

// All items that follow.
#[tactic(auto, using(crate::specs::Laws::Reading::leading))]
pub fn set_items(line: &mut Cursor, scene: &mut Scene) -> Option<()>
    ensures { LeadsTo line.old.rest.now line.new.rest.now }
{
    while starts_item(line) {
        line.pass(b' ')?;
        set_item(line, scene)?;
    }
    Some(())
}
