//! Places in tables.

ghost use Rattle.std.specs.Prelude.{◌≡◌, ◌<◌, ℕ, OnOk, length};
ghost use Rattle.dslx_check_facts.specs.Known.{at_place};
ghost use Rattle.dslx_check_declarations.specs.Work.Learnt.{PutsAtPlace, PutsThere};

use std::alloc::AllocError;

/// PutsAtPlace a value at a place that is there. Another place is refused as for want of memory.
pub(crate) fn put<T: Drop>(list: &mut Vec<T>, at: u32, value: T) -> Result<(), AllocError>
    ensures { OnOk result (PutsAtPlace list.old.items list.new.items at value) }
{
    let place = at as usize;
    if list.len() <= place {
        return Err(AllocError);
    }
    list[place] = value;
    Ok(())
}

/// PutsAtPlace something at a place, which is made if it isn't there, as are those before it, where nothing stands then.
#[tactic(auto, using(crate::proofs::OnWork::OnPlaces::puts_there))]
pub fn put_there<T: Drop>(places: &mut Vec<Option<T>>, at: u32, value: T) -> Result<(), AllocError>
    ensures { OnOk result (PutsThere places.old.items places.new.items at value) }
{
    make_place(places, at)?;
    put(places, at, Some(value))
}

/// Makes a place, and those before it, with nothing in them.
fn make_place<T: Drop>(places: &mut Vec<Option<T>>, at: u32) -> Result<(), AllocError>
    ensures { OnOk result ((n : ℕ) → at_place places.new.items n ≡ at_place places.old.items n) }
{
    let first = places.len();
    'places: for _ in first..at as usize + 1 {
        places.push(None)?;
    }
    Ok(())
}
