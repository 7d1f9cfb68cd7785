// Packets right and wrong, with the number and the place that they are refused with.
use packet::Packet;

// How many inputs a packet has, for a peer that has made five; or the number and the place of its refusal.
fn told(packet: &[u8]) -> Result<usize, (u8, usize)> {
    Packet::read(packet, 5)
        .map(|p| p.inputs.len())
        .map_err(|f| (f.number(), f.place()))
}

#[test]
fn taken(rt: HostRuntime) {
    assert_eq!(rt; told(b"H\x00\x00\x00\x00\x00\x00\x00\x00\x00"), Ok(0));
    assert_eq!(rt;
        told(b"H\x07\x00\x00\x00\x02\x05\x00\x00\x00\x0f\x00"),
        Ok(2)
    );
    assert_eq!(rt;
        told(b"H\x40\x42\x0f\x00\x00\x00\x00\x00\x00"),
        Ok(0),
        "the sum is 1,000,000"
    );
    assert_eq!(rt;
        told(b"H\x3e\x42\x0f\x00\x02\x00\x00\x00\x00\x01\x02"),
        Ok(2),
        "the sum is 1,000,000"
    );
}

#[test]
fn fields(rt: HostRuntime) {
    let bytes = b"H\x03\x02\x01\x00\x03\x0b\x0a\x00\x00\x04\x05\x06";
    let packet = Packet {
        first: 66051,
        ack: 2571,
        inputs: &[4, 5, 6],
    };
    assert_eq!(rt; Packet::read(bytes, 1_000_000), Ok(packet));
}

#[test]
fn form(rt: HostRuntime) {
    assert_eq!(rt; told(b""), Err((1, 0)));
    assert_eq!(rt; told(b"h"), Err((1, 0)));
    assert_eq!(rt; told(b"H"), Err((1, 1)));
    assert_eq!(rt;
        told(b"H\xff\xff\xff\xff"),
        Err((1, 5)),
        "the sum needs the count"
    );
    assert_eq!(rt; told(b"H\x00\x00\x00\x00\x00"), Err((1, 6)));
    assert_eq!(rt;
        told(b"H\x00\x00\x00\x00\x00\xff\xff\xff"),
        Err((1, 9)),
        "the acknowledgement needs four bytes"
    );
    assert_eq!(rt;
        told(b"H\x00\x00\x00\x00\x03\x00\x00\x00\x00\x01\x02"),
        Err((1, 12))
    );
    assert_eq!(rt;
        told(b"H\x00\x00\x00\x00\x01\x00\x00\x00\x00\x01\x02"),
        Err((1, 11))
    );
    assert_eq!(rt; told(b"H\x00\x00\x00\x00\x79"), Err((1, 5)), "121 inputs");
}

#[test]
fn inputs_and_game(rt: HostRuntime) {
    assert_eq!(rt;
        told(b"H\x00\x00\x00\x00\x02\x00\x00\x00\x00\x10\x00"),
        Err((2, 10))
    );
    assert_eq!(rt;
        told(b"H\x00\x00\x00\x00\x03\x00\x00\x00\x00\x0f\x00\xff"),
        Err((2, 12))
    );
    assert_eq!(rt;
        told(b"H\x41\x42\x0f\x00\x00\x00\x00\x00\x00"),
        Err((3, 1)),
        "the sum is 1,000,001, with no inputs"
    );
    assert_eq!(rt;
        told(b"H\x3f\x42\x0f\x00\x02\x00\x00\x00\x00\x00\x00"),
        Err((3, 1))
    );
    assert_eq!(rt; told(b"H\x00\x00\x00\x00\x00\x06\x00\x00\x00"), Err((3, 6)));
}

// The fault at the lowest place counts.
#[test]
fn several_faults(rt: HostRuntime) {
    assert_eq!(rt;
        told(b"h\xff\xff\xff\xff\xff\xff\xff\xff\xff\xff"),
        Err((1, 0))
    );
    assert_eq!(rt;
        told(b"H\xff\xff\xff\xff\xff\xff\xff\xff\xff\xff"),
        Err((3, 1)),
        "before the count at 5"
    );
    assert_eq!(rt;
        told(b"H\x00\x00\x00\x00\xff\xff\xff\xff\xff\xff"),
        Err((1, 5)),
        "before the acknowledgement at 6"
    );
    assert_eq!(rt;
        told(b"H\x00\x00\x00\x00\x02\x06\x00\x00\x00\xff"),
        Err((3, 6)),
        "before the input at 10"
    );
    assert_eq!(rt;
        told(b"H\x00\x00\x00\x00\x03\x00\x00\x00\x00\x01\xff"),
        Err((2, 11)),
        "before the end at 12"
    );
    assert_eq!(rt;
        told(b"H\x00\x00\x00\x00\x01\x00\x00\x00\x00\xff\xff"),
        Err((2, 10)),
        "before the byte too many at 11"
    );
    assert_eq!(rt;
        told(b"H\x00\x00\x00\x00\x01\x00\x00\x00\x00\x01\xff"),
        Err((1, 11)),
        "a byte too many is no input"
    );
}
