// Tests of a peer's numbers, log and refusals.

#![tactic(auto)]

#[cfg(test)]
mod logs;
#[cfg(test)]
mod machine;
#[cfg(test)]
mod packets;
