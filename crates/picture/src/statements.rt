// Theorems about pictures, each on the contract of a function.
ghost use Rattle.picture.specs.Picture.{PaddleFirst, BallNext, DotsInPlace, Whole};

// What lies over what: the paddles over the ball, and the ball over the rest.
#[tactic(auto, unfolding(crate::specs::Picture::dot))]
pub fn paddle_first()
    ensures paddle { PaddleFirst }
    ensures ball { BallNext }
{}

// A picture is its dots, row by row, and no more.
#[tactic(auto, using(crate::proofs::Rows::rows_at, crate::proofs::Rows::length_rows), unfolding(crate::specs::Picture::picture_of))]
pub fn dots_in_place()
    ensures dots { DotsInPlace }
    ensures whole { Whole }
{}
