// States of the court in bytes.
use court::Cue;
use court_game::snapshot::{load_state, save_state};
use court_game::sounding::CourtGame;
use game::plain::play;
use game::rules::Game;
use game::saved::STATE_BYTES;
use sound::Tone;

#[test]
fn start_in_bytes(rt: HostRuntime) {
    let mut bytes = [7; STATE_BYTES];
    save_state(CourtGame::start(), &mut bytes);
    let head =
        b"\x00\x50\x00\x00\x00\x3c\x00\x00\x00\x02\x00\x00\x00\x01\x00\x00\x00\x08\x00\x00\x00\x3c\x00\x00\x00\x98\x00\x00\x00\x3c\x00\x00\x00\x00\x3c";
    assert_eq!(rt; bytes.first_chunk(), Some(head));
    assert_eq!(rt; bytes.last_chunk(), Some(&[0; 29]));
}

// The ball goes to the left, so its velocity is below 0.
#[test]
fn negative_velocity(rt: HostRuntime) {
    let game = play::<CourtGame>(&[0; 100], &[0; 100]);
    let mut bytes = [7; STATE_BYTES];
    save_state(game, &mut bytes);
    assert_eq!(rt; &bytes[8..12], [0, 254, 255, 255].as_slice());
    assert_eq!(rt; load_state(&bytes).court, game.court);
}

// Bytes that no state of a game has are brought into the court.
#[test]
fn any_bytes(rt: HostRuntime) {
    let high = load_state(&[255; STATE_BYTES]).court.state;
    assert_eq!(rt; (high.score.left, high.score.right, high.wait), (9, 9, 60));
    assert_eq!(rt;
        (high.ball.x, high.ball.dx),
        (512, -1),
        "below 0 in two's complement"
    );
}

// The tone that sounds has two bytes: in frame 100 the ball has just met the right end.
#[test]
fn tone_in_bytes(rt: HostRuntime) {
    let mut bytes = [7; STATE_BYTES];
    save_state(play::<CourtGame>(&[0; 100], &[0; 100]), &mut bytes);
    assert_eq!(rt; &bytes[34..38], [0, 2, 0, 0].as_slice());
    save_state(play::<CourtGame>(&[0; 105], &[0; 105]), &mut bytes);
    assert_eq!(rt; &bytes[34..38], [0, 2, 5, 0].as_slice());
    assert_eq!(rt; load_state(&bytes).tone.kind, Cue::Wall);
    assert_eq!(rt; load_state(&bytes).tone.age, 5);
    save_state(play::<CourtGame>(&[0; 106], &[0; 106]), &mut bytes);
    assert_eq!(rt; &bytes[34..38], [0, 0, 0, 0].as_slice());
    bytes[35] = 4;
    bytes[36] = 1;
    assert_eq!(rt; load_state(&bytes).tone, Tone::silent());
}
