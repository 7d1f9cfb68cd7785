// The plain game as a program: plays a file of inputs from the start, and prints the state after the last frame.
//
//     plain FILE [show] [sound OUT]
//
// FILE has a byte for each frame, seat 0's input and 16 times seat 1's, and at most 1,000,000 of them.
// With `show` the picture of that state follows, as text; with `sound` the sound of the whole game is written to OUT, as a WAV file.
#![tactic(auto)]

use anyhow::{Context, anyhow};
use court::{Court, State};
use court_game::plain::{MOST_FRAMES, play_frames};
use court_game::sounds::game_wav;
use picture::{LENGTH, draw, text_of};
use std::fs::File;
use std::io::{self, Read};
use std::process::ExitCode;
use std::{env, fs};

const USAGE: &str = "usage: plain FILE [show] [sound OUT]";

// The frames of a file; of one with too many, no more than show that.
fn read_frames(rt: &HostRuntime, path: &str) -> io::Result<Vec<u8>> {
    let mut frames = Vec::new(rt.alloc());
    let file = File::open(rt, path)?;
    // There is no `From` of a usize for a u64.
    file.take(MOST_FRAMES as u64 + 1).read_to_end(&mut frames)?;
    Ok(frames)
}

fn print_state(rt: &HostRuntime, frames: usize, state: State) -> anyhow::Result<()> {
    let State {
        ball,
        left,
        right,
        score,
        wait,
    } = state;
    print!(rt;
        "beat {frames} ball {} {} way {} {} ",
        ball.x, ball.y, ball.dx, ball.dy
    )?;
    print!(rt; "bars {} {} {} {} ", left.x, left.y, right.x, right.y)?;
    println!(rt; "points {} {} wait {wait}", score.left, score.right)?;
    Ok(())
}

fn print_picture(rt: &HostRuntime, court: Court) -> anyhow::Result<()> {
    let mut picture = vec![in rt.alloc(); 0u8; LENGTH]?;
    draw(court, &mut picture).context("plain: no room for a picture")?;
    print!(rt; "{}", text_of(rt.alloc(), &picture)?)?;
    Ok(())
}

// What the command line asks for.
#[derive(Drop)]
struct Options {
    file: String,
    show: bool,
    sound: Option<String>,
}

// The options, if the command line is as `USAGE` says. Its first word is the program's.
fn options_of(mut words: env::Args) -> Option<Options> {
    words.next()?;
    let mut options = Options {
        file: words.next()?,
        show: false,
        sound: None,
    };
    while let Some(word) = words.next() {
        match word.as_str() {
            "show" => options.show = true,
            "sound" => options.sound = Some(words.next()?),
            _ => return None,
        }
    }
    Some(options)
}

fn run(rt: &HostRuntime) -> anyhow::Result<()> {
    let words = env::args(rt).map_err(|e| anyhow!("plain: command line: {e}"))?;
    let options = options_of(words).context(USAGE)?;
    let path = &options.file;
    let frames = read_frames(rt, path).map_err(|e| anyhow!("plain: {path}: {e}"))?;
    let court = play_frames(&frames).map_err(|_| anyhow!(
        "plain: {path}: more than {MOST_FRAMES} frames"
    ))?;
    print_state(rt, frames.len(), court.state)?;
    if options.show {
        print_picture(rt, court)?;
    }
    if let Some(out) = &options.sound {
        let file = game_wav(rt.alloc(), &frames)?;
        fs::write(rt, out, &file).map_err(|e| anyhow!("plain: {out}: {e}"))?;
    }
    Ok(())
}

// Each program ends so; a library for these lines would be no shorter.
fn main(rt: HostRuntime) -> ExitCode {
    match run(&rt) {
        Ok(()) => ExitCode::SUCCESS,
        Err(e) => {
            let _ = eprintln!(rt; "{e}");
            ExitCode::FAILURE
        }
    }
}
