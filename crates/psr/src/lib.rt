// Program status records: modes, the packed word, conditions, the masked write.
#![tactic(auto, using(bits::specs::Cases::cases))]

ghost use Rattle.std.specs.Prelude.{◌≡◌, ◌+◌, ◌*◌, ◌≤◌, ◌<◌};
ghost use Rattle.bits.specs.Fields.{bit_of};
ghost use Rattle.psr.specs.Status.{mode_number, mode_of, word_of, packed_word_of, Packs, Unpacks, passed_of, privileged, written_of};

#[derive(Clone, Copy, PartialEq, Eq)]
pub enum Mode {
    User,
    Fiq,
    Irq,
    Supervisor,
    Abort,
    Undefined,
    System,
}

// The fields of the packed word: one record, since document 01 packs and copies it whole.
#[derive(Clone, Copy)]
pub struct Status {
    pub n: bool,
    pub z: bool,
    pub c: bool,
    pub v: bool,
    pub q: bool,
    pub ge: u8,
    pub e: bool,
    pub a: bool,
    pub i: bool,
    pub f: bool,
    pub t: bool,
    pub mode: Mode,
}

// A GE that exceeds 15 has no room in a word: answer 8.
#[derive(Clone, Copy, PartialEq, Eq)]
pub struct GeTooLarge;

impl From<Mode> for u32 {
    ghost from_gives = { λ m number. (number ≡ mode_number m) × (number < 32) };

    fn from(m: Mode) -> u32 {
        match m {
            Mode::User => 16,
            Mode::Fiq => 17,
            Mode::Irq => 18,
            Mode::Supervisor => 19,
            Mode::Abort => 23,
            Mode::Undefined => 27,
            Mode::System => 31,
        }
    }
}

// A function, since docs/CLAIMS.md names `mode_of`, and no `From`, since it is many to one: a number that is no mode's reads as User.
#[tactic(auto, using(bits::specs::Cases::cases), unfolding(crate::specs::Status::mode_of))]
pub fn mode_of(number: u32) -> Mode
    ensures { result ≡ mode_of number }
{
    match number {
        17 => Mode::Fiq,
        18 => Mode::Irq,
        19 => Mode::Supervisor,
        23 => Mode::Abort,
        27 => Mode::Undefined,
        31 => Mode::System,
        _ => Mode::User,
    }
}

pub fn is_privileged(m: Mode) -> bool
    ensures { result ≡ privileged m }
{
    m != Mode::User
}

// Five bits side by side, the first on top: for those over GE and those under A, so no record holds just them.
fn join_five(a: bool, b: bool, c: bool, d: bool, e: bool) -> u32
    ensures { (result ≡ bit_of a * 16 + bit_of b * 8 + bit_of c * 4 + bit_of d * 2 + bit_of e) × (result < 32) }
{
    u32::from(a) * 16 + u32::from(b) * 8 + u32::from(c) * 4 + u32::from(d) * 2 + u32::from(e)
}

// The word of a record whose GE fits.
#[tactic(auto, using(bits::specs::Cases::cases), unfolding(crate::specs::Status::word_of))]
pub fn word_of(s: Status) -> u32
    requires { s.ge ≤ 15 }
    ensures { result ≡ word_of s }
{
    let high = join_five(s.n, s.z, s.c, s.v, s.q);
    let low = join_five(s.e, s.a, s.i, s.f, s.t);
    high * 134217728 + u32::from(s.ge) * 65536 + low * 32 + u32::from(s.mode)
}

#[tactic(auto, using(bits::specs::Cases::cases), unfolding(crate::specs::Status::packed_of))]
pub fn pack(s: Status) -> Result<u32, GeTooLarge>
    ensures { Packs s result }
{
    if 15 < s.ge {
        Err(GeTooLarge)
    } else {
        Ok(word_of(s))
    }
}

// The packed word, 0 where there is none.
pub fn pack_or_zero(s: Status) -> u32
    ensures { result ≡ packed_word_of s }
{
    pack(s).unwrap_or(0)
}

#[tactic(auto, using(bits::specs::Cases::cases), unfolding(crate::specs::Status::status_of))]
pub fn unpack(w: u32) -> Status
    ensures { Unpacks w result }
{
    Status {
        n: w / 2147483648 % 2 == 1,
        z: w / 1073741824 % 2 == 1,
        c: w / 536870912 % 2 == 1,
        v: w / 268435456 % 2 == 1,
        q: w / 134217728 % 2 == 1,
        ge: (w / 65536 % 16) as u8,
        e: w / 512 % 2 == 1,
        a: w / 256 % 2 == 1,
        i: w / 128 % 2 == 1,
        f: w / 64 % 2 == 1,
        t: w / 32 % 2 == 1,
        mode: mode_of(w % 32),
    }
}

// Whether an instruction with this condition field is executed. The flags stand apart: docs/CLAIMS.md names this call, and its users have no record of four flags.
#[tactic(auto, using(bits::specs::Cases::cases), unfolding(crate::specs::Status::passed_of, crate::specs::Status::conditions))]
pub fn check_condition(cond: u32, n: bool, z: bool, c: bool, v: bool) -> bool
    ensures { result ≡ passed_of cond n z c v }
{
    match cond {
        0 => z,
        1 => !z,
        2 => c,
        3 => !c,
        4 => n,
        5 => !n,
        6 => v,
        7 => !v,
        8 => c & !z,
        9 => !c | z,
        10 => n == v,
        11 => n != v,
        12 => !z & (n == v),
        13 => z | (n != v),
        _ => true,
    }
}

// MSR's write of a value into a record, by value: each field under its bit of the mask.
#[tactic(auto, using(bits::specs::Cases::cases), unfolding(crate::specs::Status::status_of, crate::specs::Status::written_of))]
pub fn write_masked(s: Status, value: u32, mask: u32, privileged: bool) -> Status
    ensures { result ≡ written_of s value mask privileged }
{
    let w = unpack(value);
    let mut out = s;
    if mask / 8 % 2 == 1 {
        out.n = w.n;
        out.z = w.z;
        out.c = w.c;
        out.v = w.v;
        out.q = w.q;
    }
    if (mask / 4 % 2 == 1) & privileged {
        out.ge = w.ge;
    }
    if (mask / 2 % 2 == 1) & privileged {
        out.e = w.e;
        out.a = w.a;
    }
    if (mask % 2 == 1) & privileged {
        out.i = w.i;
        out.f = w.f;
        out.mode = w.mode;
    }
    out
}

// The same on a record that is lent; what runs calls the one by value.
pub fn write_masked_in(s: &mut Status, value: u32, mask: u32, privileged: bool)
    ensures { s.new ≡ written_of s.old value mask privileged }
{
    *s = write_masked(*s, value, mask, privileged);
}
