// Whole games: inputs of both seats, and the state that they come to, worked out from the rules.
use court::state::{Ball, Paddle, Score};
use court::{Court, State};
use court_game::plain::{play, play_frames, play_on};
use court_game::sounding::CourtGame;
use game::rules::Game;
use std::test::Fail;

// The ball in the middle, served by a velocity, with both paddles where they start.
fn served(dx: i32, dy: i32, left: u8, right: u8) -> State {
    State {
        ball: Ball {
            x: 20480,
            y: 15360,
            dx,
            dy,
        },
        left: Paddle { x: 2048, y: 15360 },
        right: Paddle { x: 38912, y: 15360 },
        score: Score { left, right },
        wait: 60,
    }
}

#[test]
fn starts_served(rt: HostRuntime) {
    assert_eq!(rt; Court::new().state, served(512, 256, 0, 0));
}

#[test]
fn goes_when_the_wait_is_over(rt: HostRuntime) {
    let none = [0u8; 61];
    let start = served(512, 256, 0, 0);
    let waited = State { wait: 0, ..start };
    assert_eq!(rt; play(&none[0..60], &none[0..60]).state, waited);
    let ball = Ball {
        x: 20992,
        y: 15616,
        ..start.ball
    };
    assert_eq!(rt; play(&none, &none).state, State { ball, ..waited });
}

#[test]
fn turns_round_beside_the_goal(rt: HostRuntime) {
    let none = [0u8; 100];
    let ball = Ball {
        x: 40448,
        y: 25600,
        dx: -512,
        dy: 256,
    };
    let after = State {
        ball,
        wait: 0,
        ..served(512, 256, 0, 0)
    };
    assert_eq!(rt; play(&none, &none).state, after);
}

#[test]
fn moves_paddles_by_bits(rt: HostRuntime) {
    let after = State {
        left: Paddle { x: 5632, y: 15360 },
        right: Paddle { x: 40448, y: 5120 },
        wait: 40,
        ..served(512, 256, 0, 0)
    };
    let half = play(&[5u8; 10], &[6u8; 10]);
    assert_eq!(rt; play_on(half, &[10u8; 10], &[6u8; 10]).state, after);
}

#[test]
fn scores_past_a_paddle_that_went_away(rt: HostRuntime) {
    let after = State {
        right: Paddle { x: 38912, y: 28672 },
        ..served(-512, -256, 1, 0)
    };
    assert_eq!(rt; play(&[0u8; 246], &[8u8; 246]).state, after);
}

// With no input at all there is a point every 377 frames, for the seats in turn, and 17 points end the game.
#[test]
fn scores_in_turn_until_nine(rt: HostRuntime) {
    let none = [0u8; 6409];
    assert_eq!(rt;
        play(&none[0..377], &none[0..377]).state,
        served(-512, -256, 1, 0)
    );
    assert_eq!(rt;
        play(&none[0..754], &none[0..754]).state,
        served(512, 256, 1, 1)
    );
    let over = play(&none, &none);
    assert_eq!(rt; over.state, served(-512, -256, 9, 8));
    assert_eq!(rt; play_on(over, &[10u8; 100], &[5u8; 100]), over);
}

#[test]
fn plays_as_far_as_both_go(rt: HostRuntime) {
    let none = [0u8; 90];
    assert_eq!(rt; play(&none, &none[0..61]), play(&none[0..61], &none));
    assert_eq!(rt; play(&none, &none[0..0]), Court::new());
}

// The same 40 frames of 6 against 9: at once, in two parts, and by bytes that hold both inputs.
#[test]
fn goes_on_from_a_state(rt: HostRuntime) -> Result<(), Fail> {
    let whole = play(&[6u8; 40], &[9u8; 40]);
    let part = play(&[6u8; 13], &[9u8; 13]);
    assert_ne!(rt; part, whole);
    assert_eq!(rt; play_on(part, &[6u8; 27], &[9u8; 27]), whole);
    assert_eq!(rt; play_frames(&[150u8; 40])?, whole);
    Ok(())
}

// A million frames are played, and not one more.
#[test]
fn plays_a_million(rt: HostRuntime) -> Result<(), Fail> {
    let frames = vec![in rt.alloc(); 0u8; 1_000_001]?;
    assert!(rt; play_frames(&frames.as_slice()[0..1_000_000]).is_ok());
    assert!(rt; play_frames(frames.as_slice()).is_err());
    Ok(())
}

#[test]
fn takes_four_bits(rt: HostRuntime) {
    assert!(rt; CourtGame::fits(0));
    assert!(rt; CourtGame::fits(15));
    assert!(rt; !CourtGame::fits(16));
    assert!(rt; !CourtGame::fits(255));
}
