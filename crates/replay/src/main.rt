// A recording as a program: prints the score after any frame of it, and the picture.
//
//     replay FILE BEAT [sound OUT]
//
// FILE is a recording, as `play` writes one; BEAT is a frame, 0 for the start. With `sound` the sound of the frames up to there is
// written to OUT, as a WAV file. The rules are the library's: here is only reading and printing.

#![tactic(auto)]

use anyhow::{Context, anyhow, bail};
use picture::{LENGTH, text_of};
use recording::Recording;
use recording::show::{Shown, Unshown, show};
use std::process::ExitCode;
use std::{env, fs};

const USAGE: &str = "usage: replay FILE BEAT [sound OUT]";

// What the command line asks for.
#[derive(Drop)]
struct Options {
    file: String,
    frame: usize,
    sound: Option<String>,
}

// The options, if the command line is as `USAGE` says. Its first word is the program's.
fn options_of(mut words: env::Args) -> Option<Options> {
    words.next()?;
    let mut options = Options {
        file: words.next()?,
        frame: words.next()?.as_str().parse().ok()?,
        sound: None,
    };
    while let Some(word) = words.next() {
        match word.as_str() {
            "sound" => options.sound = Some(words.next()?),
            _ => return None,
        }
    }
    Some(options)
}

fn print_shown(rt: &HostRuntime, frame: usize, shown: Shown, picture: &[u8]) -> anyhow::Result<()> {
    let Shown { frames, score } = shown;
    println!(rt;
        "beat {frame} of {frames} points {} {}",
        score.left, score.right
    )?;
    print!(rt; "{}", text_of(rt.alloc(), picture)?)?;
    Ok(())
}

// Writes the sound of the frames up to one.
fn write_sound(rt: &HostRuntime, bytes: &[u8], frame: usize, out: &str) -> anyhow::Result<()> {
    let recording = Recording::read(bytes).map_err(|e| anyhow!("replay: {e}"))?;
    let file = recording.wav_until(rt.alloc(), frame)?;
    fs::write(rt, out, &file).map_err(|e| anyhow!("replay: {out}: {e}"))
}

// Shows the frame, or tells on standard output why the file is refused.
fn run(rt: &HostRuntime) -> anyhow::Result<ExitCode> {
    let words = env::args(rt).map_err(|e| anyhow!("replay: command line: {e}"))?;
    let options = options_of(words).context(USAGE)?;
    let (file, frame) = (&options.file, options.frame);
    let bytes = fs::read(rt, file).map_err(|e| anyhow!("replay: {file}: {e}"))?;
    let mut picture = vec![in rt.alloc(); 0u8; LENGTH]?;
    match show(&bytes, frame, &mut picture) {
        Ok(shown) => {
            print_shown(rt, frame, shown, &picture)?;
            if let Some(out) = &options.sound {
                write_sound(rt, &bytes, frame, out)?;
            }
            Ok(ExitCode::SUCCESS)
        }
        Err(Unshown::Recording(fault)) => {
            println!(rt; "{fault}")?;
            Ok(ExitCode::FAILURE)
        }
        Err(Unshown::Beyond(frames)) => {
            bail!("replay: {file}: no frame {frame}, it has {frames}")
        }
        Err(Unshown::Picture) => bail!("replay: no room for a picture"),
    }
}

// Each program ends so; a library for these lines would be no shorter.
fn main(rt: HostRuntime) -> ExitCode {
    match run(&rt) {
        Ok(status) => status,
        Err(e) => {
            let _ = eprintln!(rt; "{e}");
            ExitCode::FAILURE
        }
    }
}
