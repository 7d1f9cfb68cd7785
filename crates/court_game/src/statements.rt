// Theorems about the plain game of the court, each on the contract of a function.
ghost use Rattle.court.specs.declared.state.State.{State};
ghost use Rattle.court.specs.Passing.{StepsAreShort, FastBallIsSentBack};
ghost use Rattle.court_game.specs.Games.{StaysIn, RestsAtNine, GamesComeOut};
ghost use Rattle.court_game.specs.Passing.{NoBallPasses, MomentsAreOfTheGame};
ghost use Rattle.court_game.specs.Sounding.{CourtIsCourtGame};
ghost use Rattle.court_game.specs.Sounds.{TonesAreOfCues};
ghost use Rattle.game.specs.Plain.{FromSaved};

// Ball and paddles stay in the court, whatever the inputs.
pub fn stays_in()
    ensures { StaysIn }
{}

// Once somebody has nine points nothing changes any more.
#[tactic(auto, using(crate::proofs::Stays::rests))]
pub fn rests_at_nine()
    ensures { RestsAtNine }
{}

// Playing on from a state of the court is playing from the beginning. Game's theorem at one type,
// so that the court's stand together.
#[tactic(auto, using(game::proofs::Plays::from_saved))]
pub fn from_saved()
    ensures { FromSaved State }
{}

// The table of games comes out as it says.
pub fn games_come_out()
    ensures { GamesComeOut }
{}

/// The court knows nothing of its tone: that of the engine's game is the game of the court. And its
/// tone is that of the court's cues.
#[tactic(auto, using(crate::proofs::Tones::court_is_court_game, crate::proofs::Tones::tones_are_of_cues))]
pub fn court_and_tone()
    ensures court { CourtIsCourtGame }
    ensures tone { TonesAreOfCues }
{}

/// No ball passes through a paddle, whatever the inputs. From each moment of a game to the next the
/// ball's middle gets from one side of a paddle to the other, between the paddle's ends, only where
/// that paddle meets it, or an end or a serve puts it there.
#[tactic(auto, using(court::proofs::PassingLemmas::steps_are_short, court::proofs::PassingLemmas::fast_ball_is_sent_back, crate::proofs::PassingLemmas::no_ball_passes, crate::proofs::PassingLemmas::moments_are_of_the_game))]
pub fn no_ball_passes()
    ensures steps { StepsAreShort }
    ensures passes { NoBallPasses }
    ensures moments { MomentsAreOfTheGame }
    ensures example { FastBallIsSentBack }
{}
