// Theorems about packets in bytes, each on the contract of a function.
ghost use Rattle.packet.specs.Wire.{WrittenRead, ReadWritten, OneAtMost, RefusedExactly, LowestTold};

// What is written is read, and only that; so bytes are one packet at most, and those are refused that no packet is written as.
pub fn reads_what_was_written()
    ensures written { WrittenRead }
    ensures read { ReadWritten }
    ensures one { OneAtMost }
    ensures refused { RefusedExactly }
{}

// Of several faults the one at the lowest place is told.
#[tactic(auto, using(crate::proofs::Lowest::lowest_told))]
pub fn tells_the_lowest_fault()
    ensures { LowestTold }
{}
