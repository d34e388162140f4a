//! Tests of networks, queues, workers and machines that no call of the program shows,
//! in a crate of their own so that they cost the crates below nothing.
#![tactic(auto)]

#[cfg(test)]
mod chan_lines;
#[cfg(test)]
mod channel_files;
#[cfg(test)]
mod held;
#[cfg(test)]
mod machines;
#[cfg(test)]
mod meeting;
#[cfg(test)]
mod networks;
#[cfg(test)]
mod rounds;
#[cfg(test)]
mod running;
#[cfg(test)]
mod task_lines;
#[cfg(test)]
mod tasks;
