// A packet's bytes: its first frame and its acknowledgement are below 256 here. `rollback_tests` has its own, as no crate of tests rests
// on another.
pub(crate) fn packet(first: u8, ack: u8, inputs: [u8; 3]) -> [u8; 13] {
    let [a, b, c] = inputs;
    [b'H', first, 0, 0, 0, 3, ack, 0, 0, 0, a, b, c]
}
