// Why a peer refuses something.
ghost use Rattle.std.specs.Prelude.{◌≡◌};
ghost use Rattle.peer.specs.Refusals.{refusal_number, refusal_place};

use packet::Fault;

#[derive(Clone, Copy, PartialEq, Eq, Debug)]
pub enum Refusal {
    // An input above what the game takes.
    Input,
    // Bytes that are no packet for this peer.
    Packet(Fault),
    // A window that is not 1 to 60.
    Window,
    // Lent memory for inputs that is too short.
    Inputs,
    // Lent memory for states that is too short.
    States,
}

impl Refusal {
    pub fn number(self) -> u8
        ensures { result ≡ refusal_number self }
    {
        match self {
            Refusal::Input => 2,
            Refusal::Packet(fault) => fault.number(),
            Refusal::Window | Refusal::Inputs | Refusal::States => 5,
        }
    }

    pub fn place(self) -> usize
        ensures { result ≡ refusal_place self }
    {
        match self {
            Refusal::Input => 1,
            Refusal::Packet(fault) => fault.place(),
            Refusal::Window => 0,
            Refusal::Inputs => 1,
            Refusal::States => 2,
        }
    }
}
