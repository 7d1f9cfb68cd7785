// Tests of peers over lent memory, at two and at four seats.

#![tactic(auto)]

#[cfg(test)]
mod peers;
