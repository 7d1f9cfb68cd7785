// What a peer takes for a seat's input in a frame.
ghost use Rattle.std.specs.Prelude.{◌≡◌};
ghost use Rattle.seats.specs.Peers.{predicted_input};

/// A seat's input in a frame: the one that came, else the last that came, or 0 where none came.
pub fn predicted_input(row: &[u8], frame: usize) -> u8
    ensures { result ≡ predicted_input row.now frame }
{
    row.get(frame).or(row.last()).copied().unwrap_or(0)
}
