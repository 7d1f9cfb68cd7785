// Tests of the court and of its plain game.
#![tactic(auto)]

#[cfg(test)]
mod frames;
#[cfg(test)]
mod games;
