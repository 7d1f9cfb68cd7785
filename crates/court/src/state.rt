// What a game holds at one moment. Positions are of middles, in 256ths of a dot, x to the right and y down; velocities are per frame.

#[derive(Clone, Copy, PartialEq, Eq, Debug)]
pub struct Ball {
    pub x: i32,
    pub y: i32,
    pub dx: i32,
    pub dy: i32,
}

#[derive(Clone, Copy, PartialEq, Eq, Debug)]
pub struct Paddle {
    pub x: i32,
    pub y: i32,
}

// Points of seat 0, on the left, and of seat 1, on the right.
#[derive(Clone, Copy, PartialEq, Eq, Debug)]
pub struct Score {
    pub left: u8,
    pub right: u8,
}

#[derive(Clone, Copy, PartialEq, Eq, Debug)]
pub struct State {
    pub ball: Ball,
    pub left: Paddle,
    pub right: Paddle,
    pub score: Score,
    // Frames until the ball goes.
    pub wait: u8,
}

// An end of the court, or what stands at it. It is not `game`'s `Seat`: the court rests on no other crate.
#[derive(Clone, Copy, PartialEq, Eq, Debug)]
pub enum Side {
    Left,
    Right,
}
