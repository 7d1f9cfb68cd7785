// The tone that sounds in a frame.
ghost use Rattle.std.specs.Prelude.{◌≤◌};
ghost use Rattle.sound.specs.Tones.{last_age};

use court::Cue;

/// What sounds in a frame: the cue that began it, and how many frames ago. Silence is a tone of
/// `Cue::Nothing`, of age 0.
#[derive(Clone, Copy, PartialEq, Eq, Debug)]
pub struct Tone {
    pub kind: Cue,
    pub age: u8,
    ghost in_range: { age ≤ last_age kind },
}

impl Tone {
    ghost use Rattle.std.specs.Prelude.{◌≡◌, ℕ, List};
    ghost use Rattle.sound.specs.Tones.{Sounding, IsInRange, tone_after, silence, tone_bytes, tone_said, frames_of};
    ghost use Rattle.sound.specs.Sounding.{sounding};

    /// No tone.
    pub fn silent() -> Tone
        ensures { sounding result ≡ silence }
    {
        Tone {
            kind: Cue::Nothing,
            age: 0,
        }
    }

    // How many frames a tone of a kind lasts.
    fn frames(kind: Cue) -> u8
        ensures { result ≡ frames_of kind }
    {
        match kind {
            Cue::Nothing => 0,
            Cue::Paddle | Cue::Wall => 6,
            Cue::Point => 30,
        }
    }

    // The tone one frame later, if that frame gives no cue.
    fn continued(self) -> Tone
        ensures { sounding result ≡ tone_after (sounding self) Cue.Nothing }
    {
        if self.age + 1 < Tone::frames(self.kind) {
            Tone {
                kind: self.kind,
                age: self.age + 1,
            }
        } else {
            Tone::silent()
        }
    }

    /// The tone one frame later, in the frame that gives a cue. The newest cue counts: its tone
    /// replaces one that still sounds.
    pub fn after(self, cue: Cue) -> Tone
        ensures { sounding result ≡ tone_after (sounding self) cue }
    {
        match cue {
            Cue::Nothing => self.continued(),
            _ => Tone { kind: cue, age: 0 },
        }
    }

    /// The tone as a saved state has it: its kind and its age.
    pub fn to_bytes(self) -> [u8; 2]
        ensures { result ≡ tone_bytes (sounding self) }
    {
        let kind = match self.kind {
            Cue::Nothing => 0,
            Cue::Paddle => 1,
            Cue::Wall => 2,
            Cue::Point => 3,
        };
        [kind, self.age]
    }

    /// The tone that two bytes say. Bytes of no tone are silence.
    pub fn from_bytes(bytes: [u8; 2]) -> Tone
        ensures value { sounding result ≡ tone_said bytes }
        ensures saved { (t : Sounding) → IsInRange t → bytes ≡ tone_bytes t → sounding result ≡ t }
    {
        let [kind, age] = bytes;
        let kind = match kind {
            1 => Cue::Paddle,
            2 => Cue::Wall,
            3 => Cue::Point,
            _ => Cue::Nothing,
        };
        if age < Tone::frames(kind) {
            Tone { kind, age }
        } else {
            Tone::silent()
        }
    }
}
