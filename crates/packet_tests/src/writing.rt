// Packets written into lent memory, and read from it.
use packet::{MOST_LENGTH, Packet, Unwritten};

#[test]
fn bytes(rt: HostRuntime) {
    let packet = Packet {
        first: 66051,
        ack: 2571,
        inputs: &[4, 5, 6],
    };
    let mut out = [9u8; 16];
    assert_eq!(rt; packet.write(&mut out), Ok(13));
    assert_eq!(rt;
        out,
        *b"H\x03\x02\x01\x00\x03\x0b\x0a\x00\x00\x04\x05\x06\x09\x09\x09"
    );
}

#[test]
fn no_room(rt: HostRuntime) {
    let packet = Packet {
        first: 0,
        ack: 0,
        inputs: &[4, 5, 6],
    };
    let mut out = [9u8; 12];
    assert_eq!(rt; packet.write(&mut out), Err(Unwritten::NoRoom));
    assert_eq!(rt; out, [9u8; 12]);
}

// 120 inputs are as many as a packet has.
#[test]
fn most_inputs(rt: HostRuntime) {
    let inputs = [15u8; 121];
    let mut out = [9u8; 140];
    let over = Packet {
        first: 999_880,
        ack: 5,
        inputs: &inputs,
    };
    assert_eq!(rt; over.write(&mut out), Err(Unwritten::Overfull));
    assert_eq!(rt; out[0], 9);
    let full = Packet {
        inputs: &inputs[..120],
        ..over
    };
    assert_eq!(rt; full.write(&mut out), Ok(130));
    assert_eq!(rt; MOST_LENGTH, 130);
    assert_eq!(rt; out[130], 9);
    assert_eq!(rt; Packet::read(&out[..130], 5), Ok(full));
}
