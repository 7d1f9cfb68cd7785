// Theorems about tones and sounds, each on the contract of a function.
ghost use Rattle.sound.specs.Tones.{NewestCounts, Lasts, Ends, StaysSilent, StaysInRange, ReadInRange, ComesBack};
ghost use Rattle.sound.specs.Sound.{SamplesInPlace, SumsToZero, Whole, FrameByFrame};
ghost use Rattle.sound.specs.Wav.{LengthsAreTold};

/// A tone lasts its frames and no longer, and a newer one replaces it.
pub fn tones_last()
    ensures newest { NewestCounts }
    ensures lasts { Lasts }
    ensures ends { Ends }
    ensures silent { StaysSilent }
{}

/// Tones are in range, and their bytes are read as what they were.
pub fn tones_come_back()
    ensures stays { StaysInRange }
    ensures read { ReadInRange }
    ensures back { ComesBack }
{}

/// A frame has its 800 samples, each in its place, and those of a tone that is heard to its end add
/// up to 0.
pub fn samples_add_up()
    ensures in_place { SamplesInPlace }
    ensures whole { Whole }
    ensures zero { SumsToZero }
{}

/// A sound is written frame by frame, and the lengths in a WAV file are those of the file.
pub fn sounds_are_whole()
    ensures frames { FrameByFrame }
    ensures lengths { LengthsAreTold }
{}
