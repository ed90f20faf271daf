// What a case lists of a machine: its state as bytes, and its memory.

#[derive(Drop)]
pub struct Scene<'a> {
    pub state: [u8; 216],
    pub memory: &'a mut [u8],
}
