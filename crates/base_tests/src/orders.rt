//! Orders of things by what they need, worked by hand.

use base::topo_order::{Sorted, needing_themselves, sort};
use sqlite_items::Items;
use std::test::Fail;

#[test]
fn things_stand_behind_what_they_need(rt: HostRuntime) -> Result<(), Fail> {
    let alloc = rt.alloc();
    let needs = [
        Items::from_slice(alloc, &[1])?,
        Items::from_slice(alloc, &[2])?,
        Items::new(alloc),
        Items::from_slice(alloc, &[0, 2])?,
    ];
    match sort(alloc, &needs)? {
        Sorted::Order(order) => assert_eq!(rt; order.as_slice(), [2, 1, 0, 3].as_slice()),
        Sorted::Cycle(_) => assert!(rt; false),
    }
    Ok(())
}

#[test]
fn a_thing_that_needs_itself_is_found(rt: HostRuntime) -> Result<(), Fail> {
    let alloc = rt.alloc();
    let needs = [
        Items::from_slice(alloc, &[1])?,
        Items::from_slice(alloc, &[2])?,
        Items::from_slice(alloc, &[1])?,
    ];
    match sort(alloc, &needs)? {
        Sorted::Order(_) => assert!(rt; false),
        Sorted::Cycle(thing) => assert_eq!(rt; thing, 1),
    }
    Ok(())
}

/// Things 1, 2 and 4 need one another, 5 needs itself, and 0 and 3 need some of these.
#[test]
fn things_that_need_themselves_are_found(rt: HostRuntime) -> Result<(), Fail> {
    let alloc = rt.alloc();
    let needs = [
        Items::from_slice(alloc, &[1, 3])?,
        Items::from_slice(alloc, &[6, 2])?,
        Items::from_slice(alloc, &[4])?,
        Items::from_slice(alloc, &[5, 6])?,
        Items::from_slice(alloc, &[2, 1])?,
        Items::from_slice(alloc, &[6, 5])?,
        Items::new(alloc),
    ];
    let wanted = [false, true, true, false, true, true, false];
    assert_eq!(rt;
        needing_themselves(alloc, &needs)?.as_slice(),
        wanted.as_slice()
    );
    Ok(())
}
