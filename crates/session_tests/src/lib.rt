// Tests of a session: events in files, what calls answer and write, pictures of what a peer shows.

#![tactic(auto)]

#[cfg(test)]
mod calls;
#[cfg(test)]
mod files;
#[cfg(test)]
mod machine;
#[cfg(test)]
mod sessions;
#[cfg(test)]
mod sounds;
