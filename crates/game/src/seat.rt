// Which of the two seats: seat 0, on the left, or seat 1.
ghost use Rattle.std.specs.Prelude.{◌≡◌};
ghost use Rattle.game.specs.Seats.{facing, in_order};

#[derive(Clone, Copy, PartialEq, Eq, Debug)]
pub enum Seat {
    Left,
    Right,
}

impl Seat {
    // The other seat.
    pub fn facing(self) -> Seat
        ensures { result ≡ facing self }
    {
        match self {
            Seat::Left => Seat::Right,
            Seat::Right => Seat::Left,
        }
    }

    // What belongs to seat 0 and to seat 1, from what is this seat's own and what is the other's.
    pub fn in_order<T>(self, own: T, other: T) -> (T, T)
        ensures { result ≡ in_order self own other }
    {
        match self {
            Seat::Left => (own, other),
            Seat::Right => (other, own),
        }
    }
}
