// What every transfer shares: its width, the base, its move, and write-back.
// Registers and opcode come hand in hand: the manual's form.
#![tactic(auto, using(bits::specs::Cases::cases))]

ghost use Rattle.std.specs.Prelude.{◌≡◌};
ghost use Rattle.transfer.specs.Transfers.{byte_or_word_of, moved_of, address_of, based_of};

use memory::Width;

#[tactic(auto, using(bits::specs::Cases::cases), unfolding(crate::specs::Transfers::byte_or_word_of))]
pub fn find_width(op: u32) -> Width
    ensures { result ≡ byte_or_word_of op }
{
    if op / 4194304 % 2 == 1 {
        Width::Byte
    } else {
        Width::Word
    }
}

#[tactic(auto, using(bits::specs::Cases::cases), unfolding(crate::specs::Transfers::moved_of))]
pub fn move_base(regs: &[u32; 16], op: u32, offset: u32) -> u32
    ensures { result ≡ moved_of regs.now op offset }
{
    let base = regs[(op / 65536 % 16) as usize];
    if op / 8388608 % 2 == 1 {
        base.wrapping_add(offset)
    } else {
        base.wrapping_sub(offset)
    }
}

#[tactic(auto, using(bits::specs::Cases::cases), unfolding(crate::specs::Transfers::address_of))]
pub fn find_address(regs: &[u32; 16], op: u32, moved: u32) -> u32
    ensures { result ≡ address_of regs.now op moved }
{
    if op / 16777216 % 2 == 1 {
        moved
    } else {
        regs[(op / 65536 % 16) as usize]
    }
}

#[tactic(auto, using(bits::specs::Cases::cases), unfolding(crate::specs::Transfers::based_of))]
pub fn write_back(regs: &mut [u32; 16], op: u32, moved: u32)
    ensures { regs.new ≡ based_of regs.old op moved }
{
    if !(op / 16777216 % 2 == 1) | (op / 2097152 % 2 == 1) {
        regs[(op / 65536 % 16) as usize] = moved;
    }
}
