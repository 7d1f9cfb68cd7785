// A session at one machine as a program: carries out the events of a file, one after the other, and prints what each came to.
//
//     play SEAT N FILE [show] [letters OUT] [record OUT] [sound OUT]
//
// SEAT is 0 or 1, N the window, 1 to 60. FILE has events: 0 and an input, or 1, a packet's length in two bytes and its bytes.
// With `show` the picture follows each line; with `letters` the packets that this peer sends are written to OUT, as events of
// the other's; with `record` the recording of the confirmed frames at the end, and with `sound` the sound of each frame as it was shown
// when its tick played it, as a WAV file, to other files. The rules are the library's: here is reading and printing, and the loop over the events, whose contract says what all of them leave.

#![tactic(auto)]

ghost use Rattle.std.specs.Prelude.{◌≡◌, ℕ, true, List, [], ◌∷◌, ◌++◌, length, drop, Err, IfErr, IfOk, MatchResult, OnOk};
ghost use Rattle.court_game.specs.Games.{court_game};
ghost use Rattle.game.specs.declared.seat.Seat.{Seat as At};
ghost use Rattle.peer.specs.Peers.{Event, shows};
ghost use Rattle.picture.specs.Picture.{picture_of};
ghost use Rattle.recording.specs.Matches.{match_bytes, match_of};
ghost use Rattle.peer.specs.Refusals.{begin_checked};
ghost use Rattle.session.specs.declared.refused.Refused.TheVariants.{Event as NoEvent};
ghost use Rattle.session.specs.Files.{FileOf, FaultyAt};
ghost use Rattle.session.specs.Refusals.{said_begun};
ghost use Rattle.session.specs.Events.{event_of};
ghost use Rattle.session.specs.Rows.{After, log_after, memory as memory_of, packets_sent, sounds_handed};
ghost use Rattle.sound.specs.Wav.{wav_header_of};

use anyhow::{Context, anyhow};
use game::seat::Seat;
use peer::Peer;
use peer::memory::{INPUTS, MOST_STATES};
use picture::{LENGTH, text_of};
use recording::layout::length_of;
use recording::write::write;
use rollback::Outcome;
use session::calls::{begin, check_lent, draw, status};
use session::row::Row;
use session::sending::happen_keeping;
use session::sounding::happen_sounding;
use session::{Happening, Refused};
use sound::wav_header;
use std::alloc::{AllocError, Global};
use std::process::ExitCode;
use std::{env, fs, io};

const USAGE: &str = "usage: play SEAT N FILE [show] [letters OUT] [record OUT] [sound OUT]";

// What the command line asks for.
#[derive(Drop)]
struct Options {
    seat: Seat,
    window: usize,
    file: String,
    show: bool,
    letters: Option<String>,
    record: Option<String>,
    sound: Option<String>,
}

// Whether two words name the same file, which cannot hold both.
fn same_file(a: &Option<String>, b: &Option<String>) -> bool {
    a.is_some() && a == b
}

impl Options {
    fn shares_a_file(&self) -> bool {
        same_file(&self.letters, &self.record)
            || same_file(&self.letters, &self.sound)
            || same_file(&self.record, &self.sound)
    }
}

fn seat_of(word: &str) -> Option<Seat> {
    match word {
        "0" => Some(Seat::Left),
        "1" => Some(Seat::Right),
        _ => None,
    }
}

// The options, if the command line is as `USAGE` says. Its first word is the program's.
fn options_of(mut words: env::Args) -> Option<Options> {
    words.next()?;
    let (seat, window, file) = (words.next()?, words.next()?, words.next()?);
    let mut options = Options {
        seat: seat_of(&seat)?,
        window: window.parse().ok()?,
        file,
        show: false,
        letters: None,
        record: None,
        sound: None,
    };
    while let Some(word) = words.next() {
        match word.as_str() {
            "show" => options.show = true,
            "letters" => options.letters = Some(words.next()?),
            "record" => options.record = Some(words.next()?),
            "sound" => options.sound = Some(words.next()?),
            _ => return None,
        }
    }
    if options.shares_a_file() {
        return None;
    }
    Some(options)
}

// The memory that a session is lent. `radio` has a struct much like it: a library of two or three `vec!`s, with its contract, edit
// and test, would be longer than both.
#[derive(Drop)]
struct Memory {
    inputs: Vec<u8>,
    states: Vec<u8>,
    picture: Vec<u8>,
}

impl Memory {
    fn new(alloc: Global) -> Result<Memory, AllocError> {
        Ok(Memory {
            inputs: vec![in alloc; 0u8; INPUTS]?,
            states: vec![in alloc; 0u8; MOST_STATES]?,
            picture: vec![in alloc; 0u8; LENGTH]?,
        })
    }

    // A session for a file of events: first what does not let it begin is refused, and then a file that is no row of events.
    fn begin<'a>(&mut self, options: &Options, file: &'a [u8]) -> Result<(Peer, Row<'a>), Refused>
        ensures refused { MatchResult (said_begun (begin_checked options.now.window (length self.old.inputs.items) (length self.old.states.items)) (length self.old.picture.items)) (λ _. IfErr result (λ f. (at : ℕ) × (f ≡ NoEvent at) × FaultyAt file.now at)) (λ f. result ≡ Err f) }
        ensures begun { IfOk result (λ r. After options.now.seat options.now.window [] (memory_of r.0 self.new.inputs.items self.new.states.items) × (r.1.file.now ≡ file.now)) }
    {
        check_lent(options.window, &self.inputs, &self.states, &self.picture)?;
        let row = Row::of(file)?;
        let p = begin(
            options.seat,
            options.window,
            &self.inputs,
            &mut self.states,
            &self.picture,
        )?;
        Ok((p, row))
    }
}

// The line for an event.
fn print_outcome(
    rt: &HostRuntime,
    p: &Peer,
    states: &[u8],
    outcome: Outcome,
) -> anyhow::Result<()> {
    match outcome {
        Outcome::Taken(_) => println!(rt; "{}", status(p, states)?)?,
        Outcome::Lost => println!(rt; "lost")?,
        Outcome::Refused(refusal) => println!(rt; "{}", Refused::from(refusal))?,
    }
    Ok(())
}

// Draws what the peer shows, and prints the picture's text.
fn print_picture(
    rt: &HostRuntime,
    p: &Peer,
    states: &[u8],
    picture: &mut [u8],
) -> anyhow::Result<()>
    ensures { OnOk result ((seat : At) (window : ℕ) (es : List Event) (inputs : List ℕ) → After seat window es (memory_of p.now inputs states.now) → picture.new ≡ picture_of (shows court_game seat (log_after window es)) ++ drop 19200 picture.old) }
{
    draw(p, states, picture)?;
    print!(rt; "{}", text_of(rt.alloc(), picture)?)?;
    Ok(())
}

// The line for an event, and the picture if it is asked for.
fn tell(
    rt: &HostRuntime,
    p: &Peer,
    states: &[u8],
    picture: &mut [u8],
    show: bool,
    outcome: Outcome,
) -> anyhow::Result<()>
    ensures { OnOk result (show ≡ true → (seat : At) (window : ℕ) (es : List Event) (inputs : List ℕ) → After seat window es (memory_of p.now inputs states.now) → picture.new ≡ picture_of (shows court_game seat (log_after window es)) ++ drop 19200 picture.old) }
{
    print_outcome(rt, p, states, outcome)?;
    if show {
        print_picture(rt, p, states, picture)?;
    }
    Ok(())
}

// What is kept of a row of events: the packets that were sent, and the sounds that were handed out, where they are asked for.
#[derive(Drop)]
struct Kept {
    letters: Vec<u8>,
    sounds: Vec<u8>,
}

// One event, with what is kept of it.
fn happen_kept(
    p: &mut Peer,
    inputs: &mut [u8],
    states: &mut [u8],
    event: Happening,
    kept: &mut Kept,
    heard: bool,
) -> Result<Outcome, AllocError>
    ensures row { (seat : At) (window : ℕ) (es : List Event) →
        After seat window es (memory_of p.old inputs.old states.old) →
        let row = es ++ event_of event.entry ∷ [] in
        After seat window row (memory_of p.new inputs.new states.new) }
    ensures packets { OnOk result ((seat : At) (window : ℕ) (es : List Event) →
        After seat window es (memory_of p.old inputs.old states.old) →
        let log = log_after window es in
        kept.new.letters.items
        ≡ kept.old.letters.items ++ packets_sent window log (event_of event.entry ∷ [])) }
    ensures sounds { OnOk result (heard ≡ true → (seat : At) (window : ℕ) (es : List Event) →
        After seat window es (memory_of p.old inputs.old states.old) →
        let log = log_after window es in
        kept.new.sounds.items
        ≡ kept.old.sounds.items ++ sounds_handed seat window log (event_of event.entry ∷ [])) }
{
    let Kept { letters, sounds } = kept;
    if heard {
        happen_sounding(p, inputs, states, event, letters, sounds)
    } else {
        happen_keeping(p, inputs, states, event, letters)
    }
}

// All events of a row, each with its line. Hands back the packets that were sent, and the sounds if they are to be heard: those that the
// definitions give the row.
fn play(
    rt: &HostRuntime,
    p: &mut Peer,
    memory: &mut Memory,
    row: Row,
    show: bool,
    heard: bool,
) -> anyhow::Result<Kept>
    ensures row { OnOk result ((seat : At) (window : ℕ) (before es : List Event) → After seat window before (memory_of p.old memory.old.inputs.items memory.old.states.items) → FileOf es row.entry.file.now → After seat window (before ++ es) (memory_of p.new memory.new.inputs.items memory.new.states.items)) }
    ensures packets { IfOk result (λ k. (seat : At) (window : ℕ) (before es : List Event) → After seat window before (memory_of p.old memory.old.inputs.items memory.old.states.items) → FileOf es row.entry.file.now → k.letters.items ≡ packets_sent window (log_after window before) es) }
    ensures sounds { IfOk result (λ k. heard ≡ true →
        (seat : At) (window : ℕ) (before es : List Event) →
        After seat window before (memory_of p.old memory.old.inputs.items memory.old.states.items) →
        FileOf es row.entry.file.now →
        k.sounds.items ≡ sounds_handed seat window (log_after window before) es) }
{
    let mut kept = Kept {
        letters: Vec::new(rt.alloc()),
        sounds: Vec::new(rt.alloc()),
    };
    for event in row.events() {
        let outcome = happen_kept(
            p,
            &mut memory.inputs,
            &mut memory.states,
            event?,
            &mut kept,
            heard,
        )?;
        tell(rt, p, &memory.states, &mut memory.picture, show, outcome)?;
    }
    Ok(kept)
}

// The sounds that a peer handed out as a WAV file: one for each frame that it played.
fn wav_of(heap: Global, p: &Peer, sounds: &[u8]) -> anyhow::Result<Vec<u8>>
    ensures { IfOk result (λ file. file.items ≡ wav_header_of p.now.own ++ sounds.now) }
{
    let mut file = Vec::new(heap);
    // The check proves that the cast loses nothing.
    file.extend_from_slice(&wav_header(p.own as u32))?;
    file.extend_from_slice(sounds)?;
    Ok(file)
}

// The recording of the peer's confirmed frames.
fn recording_of(heap: Global, p: &Peer, inputs: &[u8]) -> anyhow::Result<Vec<u8>>
    ensures row { IfOk result (λ bytes. (seat : At) (window : ℕ) (es : List Event) (states : List ℕ) → After seat window es (memory_of p.now inputs.now states) → bytes.items ≡ match_bytes (match_of seat window (log_after window es))) }
{
    let mut bytes = vec![in heap; 0u8; length_of(p)]?;
    write(p, inputs, &mut bytes).map_err(|_| anyhow!("play: no room for a recording"))?;
    Ok(bytes)
}

fn at_file(path: &str, error: io::Error) -> anyhow::Error {
    anyhow!("play: {path}: {error}")
}

// Plays the session, or tells on standard output why it is refused.
fn run(rt: &HostRuntime) -> anyhow::Result<ExitCode> {
    let words = env::args(rt).map_err(|e| anyhow!("play: command line: {e}"))?;
    let options = options_of(words).context(USAGE)?;
    let file = fs::read(rt, &options.file).map_err(|e| at_file(&options.file, e))?;
    let mut memory = Memory::new(rt.alloc())?;
    let (mut p, row) = match memory.begin(&options, &file) {
        Ok(begun) => begun,
        Err(refused) => {
            println!(rt; "{refused}")?;
            return Ok(ExitCode::FAILURE);
        }
    };
    let heard = options.sound.is_some();
    let kept = play(rt, &mut p, &mut memory, row, options.show, heard)?;
    if let Some(out) = &options.letters {
        fs::write(rt, out, &kept.letters).map_err(|e| at_file(out, e))?;
    }
    if let Some(out) = &options.record {
        let bytes = recording_of(rt.alloc(), &p, &memory.inputs)?;
        fs::write(rt, out, &bytes).map_err(|e| at_file(out, e))?;
    }
    if let Some(out) = &options.sound {
        let file = wav_of(rt.alloc(), &p, &kept.sounds)?;
        fs::write(rt, out, &file).map_err(|e| at_file(out, e))?;
    }
    Ok(ExitCode::SUCCESS)
}

// Each program ends so; a library for these lines would be no shorter.
fn main(rt: HostRuntime) -> ExitCode {
    match run(&rt) {
        Ok(status) => status,
        Err(e) => {
            let _ = eprintln!(rt; "{e}");
            ExitCode::FAILURE
        }
    }
}
