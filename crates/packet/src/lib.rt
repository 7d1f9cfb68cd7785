// A packet between two peers, in bytes: reader and writer, each the other's inverse.
// A packet is read where it lies: its inputs are a part of the slice that it was read from.
// Rests on byte_numbers and game.
#![tactic(auto)]

pub mod fault;
pub mod message;
mod read;
pub mod statements;
mod write;

pub use fault::{Fault, Unwritten};
pub use message::Packet;

// Where the fields of a packet lie. Before them is the mark, and behind them are the inputs.
const FIRST_AT: usize = 1;

const COUNT_AT: usize = 5;

const ACK_AT: usize = 6;

const INPUTS_AT: usize = 10;

const MARK: u8 = b'H';

// As many inputs as a packet has at most.
pub const MOST_INPUTS: u8 = 120;

// As many bytes as a packet has at most. A constant's value calls no `from`.
pub const MOST_LENGTH: usize = INPUTS_AT + MOST_INPUTS as usize;

// What a packet carries: which inputs a game takes is said by the game, also where it is the same number.
const LARGEST_INPUT: u8 = 15;
