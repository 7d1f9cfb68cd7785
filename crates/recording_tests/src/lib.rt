// Tests of recordings: their bytes, faults of bytes, and what is shown of them.
#![tactic(auto)]

#[cfg(test)]
mod reading;
#[cfg(test)]
mod writing;
