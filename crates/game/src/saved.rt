// A game whose states can be saved, in 64 bytes each: what an engine asks of it that goes back.
ghost use Rattle.std.specs.Prelude.{◌≡◌, length};
ghost use Rattle.game.specs.Saved.{SavedRules, Lawful};

// The bytes of a saved state.
pub const STATE_BYTES: usize = 64;

// The clauses below say the number.
const _: () = prove!(STATE_BYTES == 64);

// It stands beside `Game` and asks for nothing of it: a type is put on such an engine by this trait alone.
pub trait SavedGame: Copy {
    // A state as the game's own description has it.
    ghost states: { Type 0 };

    ghost saved: { SavedRules states };

    // The state that a value stands for.
    ghost state: { Self → states };

    // Whether a byte is an input of the game.
    fn fits(input: u8) -> bool
        ensures { result ≡ saved.fits input };

    fn start() -> Self
        ensures { state result ≡ saved.game.start };

    // One frame, with the inputs of seat 0, on the left, and of seat 1.
    fn advance(self, left: u8, right: u8) -> Self
        ensures { state result ≡ saved.game.frame (state self) left right };

    // Writes the state's bytes. They are a slice and no array: a saved state is a part of the one slice that is lent for all.
    fn save(self, part: &mut [u8])
        requires { length part.old ≡ 64 }
        ensures { part.new ≡ saved.coded (state self) };

    // The state whose bytes these are. Bytes that no state of a game has are some state too.
    fn load(part: &[u8]) -> Self
        requires { length part.now ≡ 64 }
        ensures { (s : states) → saved.ok s → part.now ≡ saved.coded s → state result ≡ s };

    ghost lawful: { Lawful saved };
}
