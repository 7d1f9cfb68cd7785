// Tests of two machines and a bad radio: rows of moves, what both come to, and one machine's calls.

#![tactic(auto)]

#[cfg(test)]
mod machines;
#[cfg(test)]
mod rows;
