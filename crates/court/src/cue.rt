// What a frame gives to hear.

/// What happened in a frame that can be heard. A frame gives one cue.
#[derive(Clone, Copy, PartialEq, Eq, Debug)]
pub enum Cue {
    /// Nothing that can be heard.
    Nothing,
    /// A paddle met the ball, or both did.
    Paddle,
    /// The ball turned at a wall or an end.
    Wall,
    /// A point.
    Point,
}
