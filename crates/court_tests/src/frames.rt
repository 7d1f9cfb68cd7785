// Single frames at the edges of the rules.
use court::state::{Ball, Paddle, Score};
use court::{Court, Cue, Input, State};
use std::process::Abort;

// A ball by its position and its velocity.
fn ball((x, y, dx, dy): (i32, i32, i32, i32)) -> Ball {
    Ball { x, y, dx, dy }
}

// The ball after a frame in which nobody moves.
fn check_between(
    rt: &impl Abort,
    left: Paddle,
    right: Paddle,
    from: (i32, i32, i32, i32),
    to: (i32, i32, i32, i32),
) {
    let state = State {
        ball: ball(from),
        left,
        right,
        score: Score { left: 0, right: 0 },
        wait: 0,
    };
    let court = Court::clamped(state);
    assert_eq!(rt; court.state, state, "in the court");
    assert_eq!(rt; court.frame(Input(0), Input(0)).court.state.ball, ball(to));
}

// The same with the paddles at the start.
fn check_ball(rt: &impl Abort, from: (i32, i32, i32, i32), to: (i32, i32, i32, i32)) {
    let left = Paddle { x: 2048, y: 15360 };
    let right = Paddle { x: 38912, y: 15360 };
    check_between(rt, left, right, from, to);
}

#[test]
fn walls(rt: HostRuntime) {
    check_ball(&rt, (20000, 712, -300, -200), (19700, 512, -300, -200));
    check_ball(&rt, (20000, 711, -300, -200), (19700, 512, -300, 200));
    check_ball(&rt, (20000, 30008, 300, 200), (20300, 30208, 300, 200));
    check_ball(&rt, (20000, 30009, 300, 200), (20300, 30208, 300, -200));
}

// A paddle meets the ball below 1,024 in x and below 2,560 in y.
#[test]
fn reach_of_paddles(rt: HostRuntime) {
    check_ball(&rt, (3584, 15360, -512, 0), (3072, 15360, -512, 0));
    check_ball(&rt, (3583, 15360, -512, 0), (3072, 15360, 544, 0));
    check_ball(&rt, (3583, 12800, -512, 0), (3071, 12800, -512, 0));
    check_ball(&rt, (3583, 12801, -512, 0), (3072, 12801, 544, -159));
    check_ball(&rt, (37376, 15360, 512, 0), (37888, 15360, 512, 0));
    check_ball(&rt, (37377, 15360, 512, 0), (37888, 15360, -544, 0));
}

// Where both paddles meet the ball, it turns round in x and lies where it was before the step, also
// beside a wall; where the left one alone does, the right one does not look at the ball that was
// struck.
#[test]
fn both_paddles(rt: HostRuntime) {
    let left = Paddle { x: 19968, y: 11264 };
    let right = Paddle { x: 20992, y: 10240 };
    check_between(
        &rt,
        left,
        right,
        (20004, 11274, 515, 700),
        (20004, 11274, -515, 700),
    );
    let left = Paddle { x: 19968, y: 2048 };
    let right = Paddle { x: 20992, y: 2048 };
    check_between(
        &rt,
        left,
        right,
        (20900, 700, -512, -300),
        (20900, 700, 512, 300),
    );
    let left = Paddle { x: 19968, y: 19968 };
    let right = Paddle { x: 21504, y: 22528 };
    check_between(
        &rt,
        left,
        right,
        (20361, 21335, -677, -173),
        (20992, 21162, 709, -99),
    );
}

// It changes the ball's velocity in y by a sixteenth of the distance, rounded toward 0, and makes
// it faster, up to a limit.
#[test]
fn bend_and_speed(rt: HostRuntime) {
    check_ball(&rt, (3583, 15345, -512, 0), (3072, 15345, 544, 0));
    check_ball(&rt, (3583, 15344, -512, 0), (3072, 15344, 544, -1));
    check_ball(&rt, (3583, 15375, -512, 0), (3072, 15375, 544, 0));
    check_ball(&rt, (3583, 15376, -512, 0), (3072, 15376, 544, 1));
    check_ball(&rt, (3583, 15860, -767, 700), (3072, 16560, 799, 775));
    check_ball(&rt, (3583, 15360, -6111, 0), (8419, 15360, 6143, 0));
    check_ball(&rt, (3583, 15360, -6113, 6144), (8420, 21504, 6144, 6144));
    check_ball(&rt, (3583, 14860, -6144, -6130), (8448, 8730, 6144, -6144));
}

// A frame has as few steps as keep each at most 768. Where the velocity does not divide, the first
// ones are one longer, so that a paddle or a wall in the middle of a frame finds the ball at just
// one place.
#[test]
fn steps(rt: HostRuntime) {
    check_ball(&rt, (20480, 15360, 768, -768), (21248, 14592, 768, -768));
    check_ball(&rt, (20480, 15360, 769, -1537), (21249, 13823, 769, -1537));
    check_ball(&rt, (20480, 15360, 6143, -1), (26623, 15359, 6143, -1));
    check_ball(&rt, (20480, 15360, 6144, 6144), (26624, 21504, 6144, 6144));
    check_ball(&rt, (20480, 15360, 0, -6144), (20480, 9216, 0, -6144));
    check_ball(&rt, (37888, 15360, 2, 1537), (37887, 16897, -34, 1569));
}

// What turns the ball in the middle of a frame turns the rest of the frame round; where a velocity
// has become 0, the rest stands still.
#[test]
fn turns_in_the_middle(rt: HostRuntime) {
    check_ball(&rt, (20480, 2000, -3000, -3000), (17480, 2012, -3000, 3000));
    check_ball(&rt, (3600, 15360, -1536, 1536), (3840, 16896, 1568, 1584));
    check_ball(&rt, (36000, 15360, 6144, 0), (34048, 15360, -6144, 0));
    check_ball(&rt, (3700, 15410, -1500, -3), (3822, 15408, 1532, 0));
}

// The ends are looked at once, after the last step.
#[test]
fn ends_once(rt: HostRuntime) {
    check_ball(
        &rt,
        (39944, 11706, 1123, -1500),
        (40448, 10206, -1123, -1500),
    );
    check_ball(
        &rt,
        (37000, 30000, 6144, 3000),
        (40448, 27583, -6144, -3000),
    );
    check_ball(&rt, (39700, 20000, 6144, 6000), (40448, 26000, -6144, 6000));
    check_ball(&rt, (700, 25000, -6144, 6144), (512, 29440, 6144, -6144));
}

#[test]
fn ends_and_goals(rt: HostRuntime) {
    check_ball(&rt, (1024, 15000, -512, 0), (512, 15000, -512, 0));
    check_ball(&rt, (700, 10239, -512, 0), (512, 10239, 512, 0));
    check_ball(&rt, (700, 10240, -512, 0), (20480, 15360, 512, -256));
    check_ball(&rt, (39936, 15000, 512, 0), (40448, 15000, 512, 0));
    check_ball(&rt, (39937, 20480, 512, 0), (20480, 15360, -512, -256));
    check_ball(&rt, (39937, 20481, 512, 0), (40448, 20481, -512, 0));
}

// Where the left paddle is after a frame with an input, from the start.
fn paddle_after(input: u8) -> (i32, i32) {
    let p = Court::new().frame(Input(input), Input(0)).court.state.left;
    (p.x, p.y)
}

#[test]
fn keys(rt: HostRuntime) {
    assert_eq!(rt; paddle_after(0), (2048, 15360));
    assert_eq!(rt; paddle_after(1), (1536, 15360));
    assert_eq!(rt; paddle_after(2), (2560, 15360));
    assert_eq!(rt; paddle_after(4), (2048, 14848));
    assert_eq!(rt; paddle_after(8), (2048, 15872));
    assert_eq!(rt; paddle_after(9), (1536, 15872));
    assert_eq!(rt;
        paddle_after(3),
        (2048, 15360),
        "both keys of a pair are as good as none"
    );
    assert_eq!(rt; paddle_after(12), (2048, 15360));
}

// What is heard of a frame in which nobody moves, with so many points for seat 0 and the left
// paddle at that height.
fn check_cue(rt: &impl Abort, points: u8, y: i32, from: (i32, i32, i32, i32), cue: Cue) {
    let state = State {
        ball: ball(from),
        left: Paddle { x: 2048, y },
        right: Paddle { x: 38912, y: 15360 },
        score: Score {
            left: points,
            right: 0,
        },
        wait: 0,
    };
    assert_eq!(rt; Court::clamped(state).frame(Input(0), Input(0)).cue, cue);
}

// The last thing in a frame counts: first come the walls, then the paddles, then the ends.
#[test]
fn cues(rt: HostRuntime) {
    check_cue(&rt, 0, 15360, (20000, 15360, 512, 256), Cue::Nothing);
    check_cue(&rt, 0, 15360, (20000, 712, -300, -200), Cue::Nothing);
    check_cue(&rt, 0, 15360, (20000, 711, -300, -200), Cue::Wall);
    check_cue(&rt, 0, 15360, (3583, 15360, -512, 0), Cue::Paddle);
    check_cue(&rt, 0, 2048, (3583, 711, -512, -200), Cue::Paddle);
    check_cue(&rt, 0, 28672, (3583, 711, -512, -200), Cue::Wall);
    check_cue(&rt, 0, 28672, (700, 15360, -512, 0), Cue::Point);
    check_cue(&rt, 0, 28672, (700, 5000, -512, 0), Cue::Wall);
    check_cue(&rt, 9, 28672, (700, 15360, -512, 0), Cue::Nothing);
    assert_eq!(rt; Court::new().frame(Input(0), Input(0)).cue, Cue::Nothing);
}
