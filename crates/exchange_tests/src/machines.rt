// One machine's calls.
use exchange::machine::Machine;
use exchange::tally::Tally;
use game::saved::STATE_BYTES;
use game::seat::Seat;
use peer::memory::INPUTS;
use picture::LENGTH;
use rollback::Outcome;
use session::calls::begin;
use std::test::Fail;

// The packet of a tick, as it is laid out, then a packet of the other's and one of which there is none.
#[test]
fn a_tick_and_a_packet(rt: HostRuntime) -> Result<(), Fail> {
    let mut inputs = vec![in rt.alloc(); 7u8; INPUTS]?;
    let mut states = vec![in rt.alloc(); 9u8; 2 * STATE_BYTES]?;
    let picture = vec![in rt.alloc(); 0u8; LENGTH]?;
    let peer = begin(Seat::Left, 1, &inputs, &mut states, &picture)?;
    let mut machine = Machine {
        peer,
        inputs: &mut inputs,
        states: &mut states,
        tally: Tally::new(),
    };
    let mut sent = Vec::new(rt.alloc());
    assert_eq!(rt; machine.tick(5, &mut sent)?, Outcome::Taken(1));
    let packet = [b'H', 0, 0, 0, 0, 1, 0, 0, 0, 0, 5];
    let [bytes] = sent.as_slice() else {
        panic!(rt; "no packet, or several");
    };
    assert_eq!(rt; bytes.as_slice(), packet.as_slice());
    assert_eq!(rt; machine.tick(5, &mut sent)?, Outcome::Lost);
    assert_eq!(rt; machine.deliver(&sent, 2), None);
    assert_eq!(rt; machine.deliver(&sent, 0), Some(Outcome::Taken(1)));
    let tally = Tally {
        lost: 1,
        refused: 0,
        played: 2,
        again: 1,
    };
    assert_eq!(rt; machine.tally, tally);
    Ok(())
}
