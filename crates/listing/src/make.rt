// The state and the memory that a seed stands for; bench/src/record/made.rs makes the same.
ghost use Rattle.std.specs.Prelude.{◌≡◌, ◌<◌, ◌≤◌, MatchOption};

use crate::scene::Scene;

// xorshift32
fn next(x: u32) -> u32 {
    let a = x ^ (x << 13);
    let b = a ^ (a >> 17);
    b ^ (b << 5)
}

// How long a memory is; one byte more than the core takes may be listed.
#[derive(Clone, Copy)]
pub struct Length {
    pub value: u32,
    ghost fits: { value ≤ 65537 },
}

impl Length {
    pub fn new(value: u32) -> Option<Self>
        ensures { MatchOption result (65537 < value) (λ length. length.value ≡ value) }
    {
        if value <= 65537 {
            Some(Length { value })
        } else {
            None
        }
    }

    // Addresses in the memory and just past it.
    fn address(self, any: u32) -> u32 {
        any % (self.value + 8)
    }
}

static EDGES: [u32; 16] = [
    0,
    1,
    2,
    0x1F,
    0x7F,
    0x80,
    0xFF,
    0x7FFF,
    0x8000,
    0xFFFF,
    0x7FFF_FFFF,
    0x8000_0000,
    0x8000_0001,
    0x8000_8000,
    0x7FFF_7FFF,
    0xFFFF_FFFF,
];

static MODES: [u32; 7] = [0x10, 0x11, 0x12, 0x13, 0x17, 0x1B, 0x1F];

fn edge(i: u32) -> u32 {
    EDGES[(i % 16) as usize]
}

fn mode(i: u32) -> u32 {
    MODES[(i % 7) as usize]
}

// Any word, an edge, a small number, or an address in or just past the memory.
fn value(kind: u32, any: u32, length: Length) -> u32 {
    match kind % 8 {
        0..=3 => any,
        4 | 5 => edge(any),
        6 => any % 64,
        _ => length.address(any),
    }
}

// Any flags and a mode that is one. Beside `current` no function takes the span: two lines each are no longer than a call with 32 or 64 to explain.
fn status(kind: u32, any: u32) -> u32 {
    any / 32 * 32 + mode(kind) % 32
}

// The same with T clear.
fn current(kind: u32, any: u32) -> u32 {
    any / 64 * 64 + mode(kind) % 32
}

fn aligned(x: u32) -> u32 {
    x / 4 * 4
}

// Word i of a state, of two random words.
fn word(i: u32, kind: u32, any: u32, length: Length) -> u32 {
    match i {
        15 => aligned(length.address(any)),
        16 => current(kind, any),
        17..=22 => status(kind, any),
        23..=29 => any % 16,
        52 => any % 2,
        _ => value(kind, any, length),
    }
}

// Words 0 to 53, and the generator to go on with.
fn make_words(seed: u32, length: Length, state: &mut [u8; 216]) -> u32 {
    let mut x = seed;
    for i in 0u32..54 {
        let kind = next(x);
        let any = next(kind);
        memory::write32(state, 4 * i, word(i, kind, any, length));
        x = any;
    }
    x
}

fn make_bytes(seed: u32, memory: &mut [u8]) {
    let mut x = seed;
    for byte in memory.iter_mut() {
        x = next(x);
        *byte = (x / 65536 % 256) as u8;
    }
}

// System mode in all records, all other words 0.
fn plain_words(state: &mut [u8; 216]) {
    for i in 16u32..23 {
        memory::write32(state, 4 * i, 0x1F);
    }
}

// Each byte is the low byte of its address.
fn number_bytes(memory: &mut [u8]) {
    for (at, byte) in memory.iter_mut().enumerate() {
        *byte = (at % 256) as u8;
    }
}

// Into a state of zeros. Seed 0 is the plain state and numbered bytes.
pub fn fill(seed: u32, length: Length, scene: &mut Scene) {
    if seed == 0 {
        plain_words(&mut scene.state);
        number_bytes(scene.memory);
    } else {
        make_bytes(make_words(seed, length, &mut scene.state), scene.memory);
    }
}
