// From an opcode to the family of instructions that it belongs to.
#![tactic(auto)]

ghost use Rattle.std.specs.Prelude.{◌≡◌, ◌<◌};
ghost use Rattle.bits.specs.Cases.{when◌then◌else◌};
ghost use Rattle.decode.specs.Families.{compares_nothing, multiply_or_swap_of, miscellaneous_of, register_space_of, immediate_space_of, conditional_of, unconditional_of, family_of};

#[derive(Clone, Copy)]
pub enum Family {
    DataProcessing,
    MultiplyShort,
    MultiplyLong,
    Halfword,
    Saturating,
    Swap,
    Exclusive,
    Extra,
    StatusMove,
    BranchExchange,
    CountZeros,
    Breakpoint,
    Single,
    Media,
    Block,
    Branch,
    Coprocessor,
    CoprocessorMove,
    Supervisor,
    Undefined,
    // condition 15
    BranchLinkExchange,
    ClearExclusive,
    ChangeState,
    Preload,
}

#[tactic(auto, using(bits::specs::Cases::cases), unfolding(crate::specs::Families::multiply_or_swap_of))]
fn multiply_or_swap(hi: u32) -> Family
    ensures { result ≡ multiply_or_swap_of hi }
{
    if hi / 16 % 2 == 1 {
        if hi / 8 % 2 == 1 {
            Family::Exclusive
        } else {
            Family::Swap
        }
    } else {
        // A guard, since of `0 | 1` LLVM makes a number that the match over the families then reads.
        match hi / 2 % 8 {
            kind if kind < 2 => Family::MultiplyShort,
            3 => Family::Undefined,
            _ => Family::MultiplyLong,
        }
    }
}

#[tactic(auto, using(bits::specs::Cases::cases), unfolding(crate::specs::Families::miscellaneous_of))]
fn miscellaneous(hi: u32, lo: u32) -> Family
    ensures { result ≡ miscellaneous_of hi lo }
{
    match lo {
        0 => Family::StatusMove,
        1 if hi / 2 % 4 == 3 => Family::CountZeros,
        1 | 3 => Family::BranchExchange,
        5 => Family::Saturating,
        7 => Family::Breakpoint,
        _ if lo / 8 % 2 == 1 => Family::Halfword,
        _ => Family::Undefined,
    }
}

// The codes of compares without S are no operations.
fn is_hole(hi: u32) -> bool
    ensures { result ≡ compares_nothing hi }
{
    hi / 8 % 4 == 2 && hi % 2 == 0
}

// Operations, and in the holes the miscellaneous instructions.
#[tactic(auto, using(bits::specs::Cases::cases))]
fn operation_space(hi: u32, lo: u32) -> Family
    ensures { result ≡ (when compares_nothing hi then miscellaneous_of hi lo else Family.DataProcessing) }
{
    if is_hole(hi) {
        miscellaneous(hi, lo)
    } else {
        Family::DataProcessing
    }
}

// Bit 4 comes before bit 7: most operations have it clear. Joined by `&&` both would be looked at each time.
#[tactic(auto, using(bits::specs::Cases::cases), unfolding(crate::specs::Families::register_space_of))]
fn register_space(hi: u32, lo: u32) -> Family
    ensures { result ≡ register_space_of hi lo }
{
    if lo % 2 == 0 {
        operation_space(hi, lo)
    } else if lo / 8 % 2 == 0 {
        operation_space(hi, lo)
    } else if lo / 2 % 4 == 0 {
        multiply_or_swap(hi)
    } else {
        Family::Extra
    }
}

#[tactic(auto, using(bits::specs::Cases::cases), unfolding(crate::specs::Families::immediate_space_of))]
fn immediate_space(hi: u32) -> Family
    ensures { result ≡ immediate_space_of hi }
{
    if is_hole(hi) {
        if hi / 2 % 2 == 1 {
            Family::StatusMove
        } else {
            Family::Undefined
        }
    } else {
        Family::DataProcessing
    }
}

// The spaces by bits 27-25, and the coprocessor space, bits 27-25 of 111.
#[tactic(auto, using(bits::specs::Cases::cases), unfolding(crate::specs::Families::conditional_of))]
fn conditional(hi: u32, lo: u32) -> Family
    ensures { result ≡ conditional_of hi lo }
{
    match hi / 32 % 8 {
        0 => register_space(hi, lo),
        1 => immediate_space(hi),
        2 => Family::Single,
        3 if lo % 2 == 1 => Family::Media,
        3 => Family::Single,
        4 => Family::Block,
        5 => Family::Branch,
        6 => Family::Coprocessor,
        _ if hi / 16 % 2 == 1 => Family::Supervisor,
        _ if lo % 2 == 1 => Family::CoprocessorMove,
        _ => Family::Coprocessor,
    }
}

#[tactic(auto, using(bits::specs::Cases::cases), unfolding(crate::specs::Families::unconditional_of))]
fn unconditional(hi: u32, lo: u32) -> Family
    ensures { result ≡ unconditional_of hi lo }
{
    match hi / 32 % 8 {
        5 => Family::BranchLinkExchange,
        _ if hi == 0x57 && lo == 1 => Family::ClearExclusive,
        0 => Family::ChangeState,
        2 | 3 => Family::Preload,
        6 => Family::Coprocessor,
        7 if lo % 2 == 1 => Family::CoprocessorMove,
        7 => Family::Coprocessor,
        _ => Family::Undefined,
    }
}

#[tactic(auto, using(bits::specs::Cases::cases), unfolding(crate::specs::Families::family_of))]
pub fn decode(op: u32) -> Family
    ensures { result ≡ family_of op }
{
    let hi = op / 1048576 % 256;
    let lo = op / 16 % 16;
    if op / 268435456 % 16 == 15 {
        unconditional(hi, lo)
    } else {
        conditional(hi, lo)
    }
}
