// The barrel shifter: shifts by an immediate and by a register, and the rotated immediate.
#![tactic(auto, using(bits::specs::Cases::cases))]

ghost use Rattle.std.specs.Prelude.{◌≡◌, false, ◌%◌, ◌<◌, ◌≤◌};
ghost use Rattle.shifter.specs.Shifts.{type_of, immediate_of, by_immediate_of, by_register_of, ShiftsByImmediate, ShiftsByRegister};
ghost use Rattle.shifter.specs.Laws.Shifts.{through_of, turned_of};

#[derive(Clone, Copy)]
pub enum ShiftType {
    Lsl,
    Lsr,
    Asr,
    Ror,
}

#[derive(Clone, Copy)]
pub struct Operand {
    pub value: u32,
    pub carry: bool,
}

// Not a From: kinds are the numbers of two bits, and the public calls take those.
#[tactic(auto, using(bits::specs::Cases::cases), unfolding(crate::specs::Shifts::type_of))]
pub fn shift_type(kind: u32) -> ShiftType
    requires { kind < 4 }
    ensures { result ≡ type_of kind }
{
    match kind {
        0 => ShiftType::Lsl,
        1 => ShiftType::Lsr,
        2 => ShiftType::Asr,
        _ => ShiftType::Ror,
    }
}

// Shifts by 1 to 32 bits: in 64 bits the word and its carry stand side by side. The bound stays a clause in these private
// functions: a type for it would be built from a test that `by_register` makes as it is.
#[tactic(auto, using(bits::specs::Cases::cases, crate::specs::Laws::Shifts::left_is))]
fn shift_left(x: u32, n: u32) -> Operand
    requires { (0 < n) × (n ≤ 32) }
    ensures { result ≡ through_of ShiftType.Lsl x n }
{
    let wide = u64::from(x) << n;
    Operand {
        value: (wide % 0x1_0000_0000) as u32,
        carry: (wide >> 32) % 2 == 1,
    }
}

#[tactic(auto, using(bits::specs::Cases::cases, crate::specs::Laws::Shifts::right_is))]
fn shift_right(x: u32, n: u32) -> Operand
    requires { (0 < n) × (n ≤ 32) }
    ensures { result ≡ through_of ShiftType.Lsr x n }
{
    let wide = u64::from(x);
    Operand {
        value: (wide >> n) as u32,
        carry: (wide >> (n - 1)) % 2 == 1,
    }
}

// A negative word is shifted as its complement, which is no longer negative.
#[tactic(auto, using(bits::specs::Cases::cases, crate::specs::Laws::Shifts::signed_right_low, crate::specs::Laws::Shifts::signed_right_high))]
fn shift_right_signed(x: u32, n: u32) -> Operand
    requires { (0 < n) × (n ≤ 32) }
    ensures { result ≡ through_of ShiftType.Asr x n }
{
    if x < 0x8000_0000 {
        shift_right(x, n)
    } else {
        let s = shift_right(!x, n);
        Operand {
            value: !s.value,
            carry: !s.carry,
        }
    }
}

// Rotation by the low five bits of n; the carry is the bit that comes on top.
fn rotate(x: u32, n: u32) -> Operand
    ensures { result ≡ turned_of x (n % 32) }
{
    let value = bits::rotate_right(x, n);
    Operand {
        value,
        carry: 0x8000_0000 <= value,
    }
}

// Any shift by 1 to 32 bits.
#[tactic(auto, using(bits::specs::Cases::cases), unfolding(crate::specs::Laws::Shifts::through_of))]
fn shift(ty: ShiftType, x: u32, n: u32) -> Operand
    requires { (0 < n) × (n ≤ 32) }
    ensures { result ≡ through_of ty x n }
{
    match ty {
        ShiftType::Lsl => shift_left(x, n),
        ShiftType::Lsr => shift_right(x, n),
        ShiftType::Asr => shift_right_signed(x, n),
        ShiftType::Ror => rotate(x, n),
    }
}

// What an immediate amount of 0 stands for: no shift, a shift by 32, or RRX.
fn by_zero(ty: ShiftType, value: u32, c: bool) -> Operand
    ensures { result ≡ by_immediate_of ty value 0 c }
{
    match ty {
        ShiftType::Lsl => Operand { value, carry: c },
        ShiftType::Lsr => shift_right(value, 32),
        ShiftType::Asr => shift_right_signed(value, 32),
        ShiftType::Ror => Operand {
            value: u32::from(c) * 0x8000_0000 + value / 2,
            carry: value % 2 == 1,
        },
    }
}

#[tactic(auto, using(bits::specs::Cases::cases, crate::specs::Laws::Shifts::by_immediate_some))]
pub fn by_immediate(ty: ShiftType, value: u32, n: u32, c: bool) -> Operand
    requires { n < 32 }
    ensures { result ≡ by_immediate_of ty value n c }
{
    if n == 0 {
        by_zero(ty, value, c)
    } else {
        shift(ty, value, n)
    }
}

// A shift by more than the word is wide.
#[tactic(auto, using(bits::specs::Cases::cases, crate::specs::Laws::Shifts::left_many, crate::specs::Laws::Shifts::right_many, crate::specs::Laws::Shifts::signed_many, crate::specs::Laws::Shifts::turned_many))]
fn by_many(ty: ShiftType, value: u32, n: u32) -> Operand
    requires { 32 < n }
    ensures { result ≡ by_register_of ty value n false }
{
    match ty {
        ShiftType::Lsl | ShiftType::Lsr => Operand {
            value: 0,
            carry: false,
        },
        ShiftType::Asr => shift_right_signed(value, 32),
        ShiftType::Ror => rotate(value, n),
    }
}

#[tactic(auto, using(bits::specs::Cases::cases, crate::specs::Laws::Shifts::register_none, crate::specs::Laws::Shifts::by_register_some, crate::specs::Laws::Shifts::many_any))]
pub fn by_register(ty: ShiftType, value: u32, n: u32, c: bool) -> Operand
    requires { n < 256 }
    ensures { result ≡ by_register_of ty value n c }
{
    if n == 0 {
        Operand { value, carry: c }
    } else if n <= 32 {
        shift(ty, value, n)
    } else {
        by_many(ty, value, n)
    }
}

// Eight bits rotated right by twice a field of four.
#[tactic(auto, using(bits::specs::Cases::cases), unfolding(crate::specs::Shifts::immediate_of))]
pub fn immediate(imm8: u32, turns: u32, c: bool) -> Operand
    requires { (imm8 < 256) × (turns < 16) }
    ensures { result ≡ immediate_of imm8 turns c }
{
    if turns == 0 {
        Operand {
            value: imm8,
            carry: c,
        }
    } else {
        rotate(imm8, turns * 2)
    }
}

// The two public calls: any numbers, of which the low bits count; two, as docs/CLAIMS.md names each with its promise.
pub fn shift_by_immediate(kind: u32, value: u32, amount: u32, carry: bool) -> Operand
    ensures { ShiftsByImmediate kind value amount carry result }
{
    by_immediate(shift_type(kind % 4), value, amount % 32, carry)
}

pub fn shift_by_register(kind: u32, value: u32, amount: u32, carry: bool) -> Operand
    ensures { ShiftsByRegister kind value amount carry result }
{
    by_register(shift_type(kind % 4), value, amount % 256, carry)
}
