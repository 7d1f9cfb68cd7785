use crate::machine::Machine;
use crate::packets::packet;
use game::seat::Seat;
use packet::{Fault, Packet};
use peer::log::{HALF, join};
use peer::memory::INPUTS;
use peer::{Peer, Refusal};
use std::process::Abort;
use std::test::Fail;

// Takes in a packet, if it is one for this peer.
fn take(rt: &impl Abort, machine: &mut Machine, bytes: &[u8]) -> Result<(), Fail> {
    let inputs = machine.inputs.as_mut_slice();
    assert!(rt; inputs.len() >= INPUTS);
    let packet = Packet::read(bytes, u32::try_from(machine.p.own)?)?;
    join(&mut machine.p, inputs, packet);
    Ok(())
}

// A gap, an overlap, a packet again, and one that contradicts what came before.
#[test]
fn log_joins(rt: HostRuntime) -> Result<(), Fail> {
    let p = Peer {
        seat: Seat::Left,
        window: 9,
        own: 2,
        other: 0,
        acked: 0,
    };
    let mut machine = Machine::new(rt.alloc(), p)?;
    take(&rt, &mut machine, &packet(1, 0, [1, 2, 3]))?;
    assert_eq!(rt; machine.p.other, 0, "a gap before frame 1");
    take(&rt, &mut machine, &packet(0, 1, [1, 2, 3]))?;
    take(&rt, &mut machine, &packet(2, 2, [9, 4, 5]))?;
    take(&rt, &mut machine, &packet(0, 0, [6, 6, 6]))?;
    let p = machine.p;
    assert_eq!(rt; (p.own, p.other, p.acked), (2, 5, 2));
    let inputs = machine.inputs.as_slice();
    assert!(rt; inputs.len() == INPUTS);
    assert_eq!(rt; &inputs[HALF..HALF + 6], [1, 2, 3, 4, 5, 7].as_slice());
    assert_eq!(rt; (inputs[0], inputs[2]), (7, 7));
    Ok(())
}

// The packet that is sent begins at the most that was acknowledged, and has at most 120 inputs.
#[test]
fn log_sends(rt: HostRuntime) -> Result<(), Fail> {
    let few = Peer {
        seat: Seat::Left,
        window: 3,
        own: 3,
        other: 3,
        acked: 2,
    };
    let many = Peer {
        seat: Seat::Right,
        window: 60,
        own: 200,
        other: 150,
        acked: 10,
    };
    let mut machine = Machine::new(rt.alloc(), few)?;
    let one = Packet {
        first: 2,
        ack: 3,
        inputs: &[7],
    };
    assert_eq!(rt; machine.outgoing(), Ok(one));
    machine.p = many;
    let most = Packet {
        first: 10,
        ack: 150,
        inputs: &[7; 120],
    };
    assert_eq!(rt; machine.outgoing(), Ok(most));
    let _ = machine.inputs.pop();
    assert_eq!(rt; machine.outgoing(), Err(Refusal::Inputs));
    Ok(())
}

// A new peer, one that has played ahead, and one that is as far ahead as it may be.
#[test]
fn numbers(rt: HostRuntime) {
    let new = Peer {
        seat: Seat::Right,
        window: 2,
        own: 0,
        other: 0,
        acked: 0,
    };
    assert_eq!(rt; Peer::new(Seat::Right, 2), Ok(new));
    assert_eq!(rt; (new.may_play(), new.confirmed()), (true, 0));
    let ahead = Peer {
        seat: Seat::Left,
        window: 2,
        own: 5,
        other: 3,
        acked: 0,
    };
    assert_eq!(rt; (ahead.may_play(), ahead.confirmed()), (false, 3));
    let behind = Peer {
        seat: Seat::Left,
        window: 2,
        own: 4,
        other: 7,
        acked: 0,
    };
    assert_eq!(rt; (behind.may_play(), behind.confirmed()), (true, 4));
    assert_eq!(rt; Peer::new(Seat::Left, 61), Err(Refusal::Window));
}

// What each refusal is told as.
#[test]
fn refusals(rt: HostRuntime) {
    let told = [
        (Refusal::Input, 2, 1),
        (Refusal::Packet(Fault::Unmade), 3, 6),
        (Refusal::Window, 5, 0),
        (Refusal::Inputs, 5, 1),
        (Refusal::States, 5, 2),
    ];
    for (refusal, number, place) in told {
        assert_eq!(rt;
            (refusal.number(), refusal.place()),
            (number, place),
            "{refusal:?}"
        );
    }
}
