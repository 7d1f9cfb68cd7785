// A seat's input for one frame: the keys that are held, a bit each.
ghost use Rattle.std.specs.Prelude.{◌≡◌};
ghost use Rattle.court.specs.Frame.{bit};
ghost use Rattle.court.specs.Keys.{mask_of};

#[derive(Clone, Copy)]
pub(crate) enum Key {
    Left,
    Right,
    Up,
    Down,
}

fn mask(key: Key) -> u8
    ensures { result ≡ mask_of key }
{
    match key {
        Key::Left => 1,
        Key::Right => 2,
        Key::Up => 4,
        Key::Down => 8,
    }
}

#[derive(Clone, Copy)]
pub struct Input(pub u8);

impl Input {
    pub(crate) fn holds(self, key: Key) -> bool
        ensures { result ≡ bit (mask_of key) self.0 }
    {
        self.0 & mask(key) != 0
    }
}
