// A recording where it lies: its window, a byte for each frame, and the state after every 600th.
// That the states are right is no ghost field but a clause of the reader: anybody may put one together from parts.
#[derive(Clone, Copy)]
pub struct Recording<'a> {
    pub window: u8,
    pub frames: &'a [u8],
    pub states: &'a [u8],
}
