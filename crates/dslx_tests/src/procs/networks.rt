//! Procs that spawn what has no instance yet.

use crate::procs::made::instances;
use std::alloc::Global;
use std::test::Fail;

/// The last proc, or the first one, spawns an instance that no proc before it is.
const NOTHING: &str = "
proc P { config() { spawn Q(); () } init { () } next(s: ()) { s } } proc Q { config() { () } init { () } next(s: ()) { s } } //
proc S<N: u32> { config() { () } init { N } next(s: u32) { s } } proc P { config() { spawn S<u32:4>(); () } init { () } next(s: ()) { s } } //
";

/// The first line of a table that has all its instances; nothing where none has.
fn first_made<'a>(alloc: Global, table: &'a str) -> Result<&'a str, Fail> {
    for line in table.lines() {
        if let Some((text, _)) = line.split_once(" //") {
            if instances(alloc, text)?.is_some() {
                return Ok(line);
            }
        }
    }
    Ok("")
}

#[test]
fn what_spawns_no_instance_becomes_nothing(rt: HostRuntime) -> Result<(), Fail> {
    let odd = first_made(rt.alloc(), NOTHING)?;
    assert_eq!(rt; odd, "");
    Ok(())
}
