// Frames, packets, and what is then known and predicted.
use lanes::Peer;
use packet::Packet;
use std::test::Fail;

// As many bytes as the lanes of four seats take. No clause says the number, which proofs would compute with.
fn room() -> usize {
    4_000_000
}

// A frame and two packets at seat 2 of four; what is predicted of frame 1, and what is known.
fn at_four(inputs: &mut [u8]) -> Option<([u8; 4], [usize; 4], usize, usize)> {
    if inputs.len() < 4_000_000 {
        return None;
    }
    let mut peer = Peer::<4>::new(2, 1).ok()?;
    let played = peer.tick(inputs, 7);
    let stalled = !peer.tick(inputs, 8);
    if !played || !stalled {
        return None;
    }
    let first = Packet {
        first: 0,
        ack: 1,
        inputs: &[1, 2],
    };
    peer.receive(inputs, 0, first);
    // A gap, and one of its own seat: nothing joins on.
    let gap = Packet {
        first: 5,
        ack: 0,
        inputs: &[3],
    };
    peer.receive(inputs, 3, gap);
    peer.receive(inputs, 2, gap);
    Some((
        peer.predicted_inputs(inputs, 1),
        peer.counts(),
        peer.fewest(),
        peer.confirmed(),
    ))
}

// The same at seat 1 of two, where the other's packet confirms the frame.
fn at_two(inputs: &mut [u8]) -> Option<([u8; 2], [usize; 2], usize, usize)> {
    if inputs.len() < 4_000_000 {
        return None;
    }
    let mut peer = Peer::<2>::new(1, 60).ok()?;
    peer.tick(inputs, 7);
    let first = Packet {
        first: 0,
        ack: 1,
        inputs: &[1, 2],
    };
    peer.receive(inputs, 0, first);
    Some((
        peer.predicted_inputs(inputs, 2),
        peer.counts(),
        peer.acked_by_all(),
        peer.confirmed(),
    ))
}

#[test]
fn four_seats(rt: HostRuntime) -> Result<(), Fail> {
    let mut inputs = std::vec![in rt.alloc(); 0u8; room()]?;
    let seen = at_four(&mut inputs);
    assert_eq!(rt; seen, Some(([2, 0, 7, 0], [2, 0, 1, 0], 0, 0)));
    Ok(())
}

#[test]
fn two_seats(rt: HostRuntime) -> Result<(), Fail> {
    let mut inputs = std::vec![in rt.alloc(); 0u8; room()]?;
    let seen = at_two(&mut inputs);
    assert_eq!(rt; seen, Some(([2, 7], [2, 1], 1, 1)));
    Ok(())
}
