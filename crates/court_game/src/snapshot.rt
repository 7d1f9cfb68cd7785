// A state of the court and its tone in 64 bytes. The part has to have that length: callers are
// proved to see to that.
ghost use Rattle.std.specs.Prelude.{◌≡◌, ◌+◌, ◌≤◌, length};
ghost use Rattle.byte_numbers.specs.Little.{overwritten};
ghost use Rattle.court.specs.Bounds.{clamped_in};
ghost use Rattle.court_game.specs.Held.{sounding_court};
ghost use Rattle.court_game.specs.Snapshots.{ball_bytes, paddle_bytes, state_bytes, ball_in, paddle_in, state_in, tone_in};
ghost use Rattle.court_game.specs.Sounding.{SoundingCourt, InGame};
ghost use Rattle.sound.specs.Sounding.{sounding};

use crate::sounding::CourtGame;
use byte_numbers::LittleEndian;
use court::state::{Ball, Paddle, Score};
use court::{Court, State};
use game::saved::STATE_BYTES;
use sound::Tone;

// Where the parts of a state lie. The ball is first.
const LEFT_AT: usize = 16;

const RIGHT_AT: usize = 24;

const SCORE_AT: usize = 32;

const TONE_AT: usize = 35;

const REST_AT: usize = 37;

fn put_ball(part: &mut [u8], ball: Ball)
    requires { 16 ≤ length part.old }
    ensures { part.new ≡ overwritten part.old 0 (ball_bytes ball) }
{
    ball.x.put(part, 0);
    ball.y.put(part, 4);
    ball.dx.put(part, 8);
    ball.dy.put(part, 12);
}

fn put_paddle(part: &mut [u8], at: usize, paddle: Paddle)
    requires { at + 8 ≤ length part.old }
    ensures { part.new ≡ overwritten part.old at (paddle_bytes paddle) }
{
    paddle.x.put(part, at);
    paddle.y.put(part, at + 4);
}

/// Writes a state's bytes.
pub fn save_state(game: CourtGame, part: &mut [u8])
    requires { length part.old ≡ 64 }
    ensures { part.new ≡ state_bytes (sounding_court game) }
{
    let s = game.court.state;
    let [kind, age] = game.tone.to_bytes();
    put_ball(part, s.ball);
    put_paddle(part, LEFT_AT, s.left);
    put_paddle(part, RIGHT_AT, s.right);
    part[SCORE_AT..REST_AT].copy_from_slice(&[s.score.left, s.score.right, s.wait, kind, age]);
    part[REST_AT..STATE_BYTES].fill(0);
}

fn get_ball(part: &[u8]) -> Ball
    requires { 16 ≤ length part.now }
    ensures { result ≡ ball_in part.now }
{
    Ball {
        x: i32::get(part, 0),
        y: i32::get(part, 4),
        dx: i32::get(part, 8),
        dy: i32::get(part, 12),
    }
}

fn get_paddle(part: &[u8], at: usize) -> Paddle
    requires { at + 8 ≤ length part.now }
    ensures { result ≡ paddle_in part.now at }
{
    Paddle {
        x: i32::get(part, at),
        y: i32::get(part, at + 4),
    }
}

/// The state that bytes say, each number brought into its range; so bytes of a state that a game
/// comes to are that state.
pub fn load_state(part: &[u8]) -> CourtGame
    requires { length part.now ≡ 64 }
    ensures court { result.court.state ≡ clamped_in (state_in part.now) }
    ensures tone { sounding result.tone ≡ tone_in part.now }
    ensures saved { (s : SoundingCourt) → InGame s → part.now ≡ state_bytes s →
        sounding_court result ≡ s }
{
    let state = State {
        ball: get_ball(part),
        left: get_paddle(part, LEFT_AT),
        right: get_paddle(part, RIGHT_AT),
        score: Score {
            left: part[SCORE_AT],
            right: part[SCORE_AT + 1],
        },
        wait: part[SCORE_AT + 2],
    };
    CourtGame {
        court: Court::clamped(state),
        tone: Tone::from_bytes([part[TONE_AT], part[TONE_AT + 1]]),
    }
}
