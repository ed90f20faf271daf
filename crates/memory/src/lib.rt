// Lent bytes: the only place that reads and writes them, and that finds the address of answer 7.
#![tactic(auto, using(bits::specs::Cases::cases))]

ghost use Rattle.std.specs.Prelude.{◌≡◌, ◌+◌, ◌≤◌, length};
ghost use Rattle.memory.specs.Bytes.{word_at, put_word, bytes_of, read_of, written_of};
ghost use Rattle.memory.specs.Plans.{reaches_out, outside_of, within_of, loaded_of, stored_of, load_plan_of, store_plan_of, load_one_of, store_one_of, load_pair_of, store_pair_of};

// What one access moves.
#[derive(Clone, Copy, Debug, PartialEq, Eq)]
pub enum Width {
    Byte,
    Half,
    Word,
}

impl Width {
    pub fn bytes(self) -> u32
        ensures { result ≡ bytes_of self }
    {
        match self {
            Width::Byte => 1,
            Width::Half => 2,
            Width::Word => 4,
        }
    }
}

// The address of the first access of a plan that has a byte outside.
#[derive(Clone, Copy, Debug, PartialEq, Eq)]
pub struct Outside(pub u32);

#[tactic(auto, using(bits::specs::Cases::cases), unfolding(crate::specs::Bytes::word_at))]
pub fn read32(mem: &[u8], at: u32) -> u32
    requires { at + 4 ≤ length mem.now }
    ensures { result ≡ word_at mem.now at }
{
    let i = at as usize;
    u32::from_le_bytes([mem[i], mem[i + 1], mem[i + 2], mem[i + 3]])
}

#[tactic(auto, using(bits::specs::Cases::cases), unfolding(crate::specs::Bytes::put_word))]
pub fn write32(mem: &mut [u8], at: u32, value: u32)
    requires { at + 4 ≤ length mem.old }
    ensures { mem.new ≡ put_word mem.old at value }
{
    let i = at as usize;
    let [a, b, c, d] = value.to_le_bytes();
    mem[i] = a;
    mem[i + 1] = b;
    mem[i + 2] = c;
    mem[i + 3] = d;
}

// A number of any width, in the low bytes of a word.
#[tactic(auto, using(bits::specs::Cases::cases), unfolding(crate::specs::Bytes::half_at))]
pub fn load(mem: &[u8], at: u32, width: Width) -> u32
    requires { at + bytes_of width ≤ length mem.now }
    ensures { result ≡ read_of mem.now at width }
{
    let i = at as usize;
    match width {
        Width::Byte => u32::from(mem[i]),
        Width::Half => u32::from(u16::from_le_bytes([mem[i], mem[i + 1]])),
        Width::Word => read32(mem, at),
    }
}

#[tactic(auto, using(bits::specs::Cases::cases), unfolding(crate::specs::Bytes::put_half))]
pub fn store(mem: &mut [u8], at: u32, width: Width, value: u32)
    requires { at + bytes_of width ≤ length mem.old }
    ensures { mem.new ≡ written_of mem.old at width value }
{
    let i = at as usize;
    let [low, high, _, _] = value.to_le_bytes();
    match width {
        Width::Byte => mem[i] = low,
        Width::Half => {
            mem[i] = low;
            mem[i + 1] = high;
        }
        Width::Word => write32(mem, at, value),
    }
}

// Whether an access has a byte outside. It takes a number of bytes, as `outside_of` does, which says it of every number and not of the three widths alone; so does the next.
pub fn reaches_out(len: usize, at: u32, width: u32) -> bool
    ensures { result ≡ reaches_out len at width }
{
    len < at as usize + width as usize
}

// The first access of a plan that has a byte outside, in transfer order.
#[tactic(auto, using(bits::specs::Cases::cases, bits::specs::Laws::Order::left_next, crate::specs::Laws::Plans::out_here, crate::specs::Laws::Plans::out_later, crate::specs::Laws::Plans::out_none))]
pub fn find_outside(len: usize, address: u32, width: u32, count: u32) -> Option<u32>
    ensures { result ≡ outside_of len address width count }
{
    let mut at = address;
    for _ in 0..count {
        if reaches_out(len, at, width) {
            return Some(at);
        }
        at = at.wrapping_add(width);
    }
    None
}

// One access, tested and then made.
#[tactic(auto, using(bits::specs::Cases::cases, crate::specs::Laws::Plans::out_one, crate::specs::Laws::Plans::reached), unfolding(crate::specs::Plans::within_of))]
pub fn try_load(mem: &[u8], at: u32, width: Width) -> Result<u32, Outside>
    ensures { result ≡ load_one_of mem.now at width }
{
    if reaches_out(mem.len(), at, width.bytes()) {
        Err(Outside(at))
    } else {
        Ok(load(mem, at, width))
    }
}

#[tactic(auto, using(bits::specs::Cases::cases, crate::specs::Laws::Plans::out_one, crate::specs::Laws::Plans::reached), unfolding(crate::specs::Plans::within_of, crate::specs::Plans::kept_of))]
pub fn try_store(mem: &mut [u8], at: u32, width: Width, value: u32) -> Result<(), Outside>
    ensures { (result, mem.new) ≡ store_one_of mem.old at width value }
{
    if reaches_out(mem.len(), at, width.bytes()) {
        Err(Outside(at))
    } else {
        store(mem, at, width, value);
        Ok(())
    }
}

// The words of a plan tested whole.
#[tactic(auto, using(bits::specs::Cases::cases), unfolding(crate::specs::Plans::within_of))]
fn check_words(len: usize, at: u32, count: u32) -> Result<(), Outside>
    ensures { result ≡ within_of (outside_of len at 4 count) tt }
{
    match find_outside(len, at, 4, count) {
        None => Ok(()),
        Some(address) => Err(Outside(address)),
    }
}

// The words of a plan as the first of the values, in transfer order. This and the next are mirror images, and differ in which side is lent to be written, so one generic is no plainer; the sixteen come whole with their count, as `loaded_of` says that the rest of them stays.
pub fn load_words(mem: &[u8], at: u32, count: u32, values: &mut [u32; 16])
    requires { (outside_of (length mem.now) at 4 count ≡ None) × (count ≤ 16) }
    ensures { values.new ≡ loaded_of mem.now at count values.old }
{
    let mut a = at;
    for value in &mut values[..count as usize] {
        *value = read32(mem, a);
        a = a.wrapping_add(4);
    }
}

// The first of the values as the words of a plan, in transfer order.
pub fn store_words(mem: &mut [u8], at: u32, count: u32, values: &[u32; 16])
    requires { (outside_of (length mem.old) at 4 count ≡ None) × (count ≤ 16) }
    ensures { mem.new ≡ stored_of mem.old at count values.now }
{
    let mut a = at;
    for value in &values[..count as usize] {
        write32(mem, a, *value);
        a = a.wrapping_add(4);
    }
}

// A load of words performed: tested whole, and moved only where every access lies inside. This and the next stand apart and take the sixteen for the same reasons.
#[tactic(auto, using(bits::specs::Cases::cases, crate::specs::Laws::Plans::within_ok, crate::specs::Laws::Plans::within_err), unfolding(crate::specs::Plans::within_of, crate::specs::Plans::kept_of))]
pub fn perform_load(mem: &[u8], at: u32, count: u32, values: &mut [u32; 16]) -> Result<(), Outside>
    requires { count ≤ 16 }
    ensures { (result, values.new) ≡ load_plan_of mem.now at count values.old }
{
    check_words(mem.len(), at, count)?;
    load_words(mem, at, count, values);
    Ok(())
}

// A store of words performed, in the same way.
#[tactic(auto, using(bits::specs::Cases::cases, crate::specs::Laws::Plans::within_ok, crate::specs::Laws::Plans::within_err), unfolding(crate::specs::Plans::within_of, crate::specs::Plans::kept_of))]
pub fn perform_store(mem: &mut [u8], at: u32, count: u32, values: &[u32; 16]) -> Result<(), Outside>
    requires { count ≤ 16 }
    ensures { (result, mem.new) ≡ store_plan_of mem.old at count values.now }
{
    check_words(mem.len(), at, count)?;
    store_words(mem, at, count, values);
    Ok(())
}

// Two words one behind the other, tested together.
#[tactic(auto, using(bits::specs::Cases::cases, crate::specs::Laws::Plans::within_ok, crate::specs::Laws::Plans::within_err, crate::specs::Laws::Plans::inside_two), unfolding(crate::specs::Plans::within_of))]
pub fn load_pair(mem: &[u8], at: u32) -> Result<(u32, u32), Outside>
    ensures { result ≡ load_pair_of mem.now at }
{
    check_words(mem.len(), at, 2)?;
    let low = read32(mem, at);
    let high = read32(mem, at.wrapping_add(4));
    Ok((low, high))
}

#[tactic(auto, using(bits::specs::Cases::cases, crate::specs::Laws::Bytes::length_word, crate::specs::Laws::Plans::within_ok, crate::specs::Laws::Plans::within_err, crate::specs::Laws::Plans::inside_two), unfolding(crate::specs::Plans::within_of, crate::specs::Plans::kept_of))]
pub fn store_pair(mem: &mut [u8], at: u32, low: u32, high: u32) -> Result<(), Outside>
    ensures { (result, mem.new) ≡ store_pair_of mem.old at low high }
{
    check_words(mem.len(), at, 2)?;
    write32(mem, at, low);
    write32(mem, at.wrapping_add(4), high);
    Ok(())
}
