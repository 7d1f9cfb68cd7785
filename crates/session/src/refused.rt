// Why a session does not begin or does not go on.
ghost use Rattle.std.specs.Prelude.{◌≡◌, Some};
ghost use Rattle.session.specs.Refusals.{refused_number, refused_place, refused_text};
ghost use Rattle.session.specs.declared.refused.Refused.TheVariants.{Peer, Picture, Sound};

use peer::Refusal;
use std::error::Error;
use std::fmt;

#[derive(Clone, Copy, PartialEq, Eq, Debug)]
pub enum Refused {
    // What the peer refuses.
    Peer(Refusal),
    // Lent memory for the picture that is too short.
    Picture,
    // Lent memory for a frame's sound that is too short.
    Sound,
    // Events of which one is of no kind or cut short: its first byte.
    Event(usize),
}

impl Refused {
    pub fn number(self) -> u8
        ensures { result ≡ refused_number self }
    {
        match self {
            Refused::Peer(refusal) => refusal.number(),
            Refused::Picture => 5,
            Refused::Sound => 5,
            Refused::Event(_) => 4,
        }
    }

    pub fn place(self) -> usize
        ensures { result ≡ refused_place self }
    {
        match self {
            Refused::Peer(refusal) => refusal.place(),
            Refused::Picture => 3,
            Refused::Sound => 6,
            Refused::Event(at) => at,
        }
    }
}

impl From<Refusal> for Refused {
    ghost from_gives = { λ refusal refused. refused ≡ Peer refusal };

    fn from(refusal: Refusal) -> Refused {
        Refused::Peer(refusal)
    }
}

impl From<picture::Refused> for Refused {
    ghost from_gives = { λ _ refused. refused ≡ Picture };

    fn from(refused: picture::Refused) -> Refused {
        match refused {
            picture::Refused::TooShort => Refused::Picture,
        }
    }
}

impl From<sound::Refused> for Refused {
    ghost from_gives = { λ _ refused. refused ≡ Sound };

    fn from(refused: sound::Refused) -> Refused {
        match refused {
            sound::Refused::TooShort => Refused::Sound,
        }
    }
}

impl fmt::Display for Refused {
    ghost output = { λ refused. Some (refused_text refused) };

    fn fmt<W: fmt::Write>(&self, f: &mut fmt::Formatter<W>) -> fmt::Result {
        write!(f, "refused {} at {}", self.number(), self.place())
    }
}

impl Error for Refused {}
