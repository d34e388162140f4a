//! Tests of instances of procs: each line of a table is a text whose procs have none where each is asked for in turn.

mod made;
mod networks;
