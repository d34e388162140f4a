//! A channel whose name no package's input may have: it has `/` and `.`.

use chan_file::read_inputs;
use net_core::{Chan, Kind, Name, Net};
use net_samples::net_fits;
use std::alloc::{AllocError, Global};
use std::test::Fail;
use xb_bits::Bits;
use xb_value::{Seq, Ty, at};

fn chan(alloc: Global, name: &str, width: u64, kind: Kind) -> Result<Chan, AllocError> {
    Ok(Chan {
        name: Name::from_string(String::from_str(alloc, name)?),
        ty: Ty::Bits(width),
        kind,
        depth: 1,
    })
}

/// Inputs `a` and `t/p.q`, and an output `out`, of eight bits each.
fn channels(alloc: Global) -> Result<Net, AllocError> {
    let mut chans = Seq::new(alloc);
    chans.push(chan(alloc, "a", 8, Kind::Input)?)?;
    chans.push(chan(alloc, "t/p.q", 8, Kind::Input)?)?;
    chans.push(chan(alloc, "out", 8, Kind::Output)?)?;
    Ok(Net {
        name: Name::from_string(String::from_str(alloc, "Inc")?),
        procs: Seq::new(alloc),
        chans,
    })
}

#[test]
fn words_of_two_channels(rt: HostRuntime) -> Result<(), Fail> {
    let net = channels(rt.alloc())?;
    assert!(rt; net_fits(&net));
    let text = b"# two\nchan t/p.q\n0x7\n\nchan a\n0xff\n0x0";
    let inputs = read_inputs(rt.alloc(), text, &net).map_err(|_| "refused")?;
    let words = at(inputs.words.as_slice(), 0).ok_or("no channel")?;
    assert_eq!(rt;
        words.as_slice(),
        [Bits::new(8, 255), Bits::new(8, 0)].as_slice()
    );
    let words = at(inputs.words.as_slice(), 1).ok_or("no channel")?;
    assert_eq!(rt; words.as_slice(), [Bits::new(8, 7)].as_slice());
    Ok(())
}
