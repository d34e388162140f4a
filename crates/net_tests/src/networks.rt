//! A step of a network is made where one can be.

ghost use Rattle.std.specs.Prelude.{◌≡◌, ◌<◌, ◌^◌, length, map};
ghost use Rattle.net_core.specs.WellFormed.{IsNet, IsInputs, IsDepths, AreBehaviorsOf};
ghost use Rattle.net_samples.specs.Behaviors.{behavior_of};

use net_core::{Chan, Inputs, Kind, Name, Net, ProcHead, Site};
use net_samples::{
    Port, Sample, Source, Step, When, ask_and_step, bodies_fit, depths_fit, inputs_fit, net_fits,
};
use std::alloc::{AllocError, Global};
use std::process::Abort;
use std::test::Fail;
use xb_bits::Bits;
use xb_value::{Seq, Ty, Value};

/// A network and what its procs do.
#[derive(Drop)]
struct Fixture {
    net: Net,
    samples: Vec<Sample>,
    depths: Vec<u32>,
}

const fn site(chan: u32, sends: bool, when: When, source: Source) -> Port {
    Port {
        site: Site { chan, sends },
        when,
        source,
    }
}

/// A name of so many letters.
fn name(alloc: Global, letters: usize) -> Result<Name, AllocError> {
    let mut text = String::new(alloc);
    for _ in 0..letters {
        text.push('x')?;
    }
    Ok(Name::from_string(text))
}

fn sample(alloc: Global, ports: &[Port], step: Step) -> Result<Sample, AllocError>
    requires { length ports.now < 2 ^ 30 }
{
    Ok(Sample {
        ports: Seq::from_slice(alloc, ports)?,
        step,
    })
}

/// A proc that opens with 0.
fn head(alloc: Global, ports: &[Port], step: Step) -> Result<ProcHead, AllocError> {
    let width = match step {
        Step::Stay | Step::Flip => 1,
        Step::Count(_) => 8,
    };
    let mut sites = Vec::new(alloc);
    for port in ports {
        sites.push(port.site)?;
    }
    Ok(ProcHead {
        path: name(alloc, 0)?,
        state: Ty::Bits(u64::from(width)),
        init: Value::Bits(Bits::new(width, 0)),
        sites: Seq::from_vec(sites),
    })
}

/// Channels of these kinds, each of a depth.
fn channels(alloc: Global, kinds: &[Kind]) -> Result<Seq<Chan>, AllocError> {
    let mut chans = Vec::new(alloc);
    for kind in kinds {
        let letters = chans.len();
        chans.push(Chan {
            name: name(alloc, letters)?,
            ty: Ty::Bits(8),
            kind: *kind,
            depth: 1,
        })?;
    }
    Ok(Seq::from_vec(chans))
}

fn make_fixture(
    alloc: Global,
    kinds: &[Kind],
    procs: &[(&[Port], Step)],
    depth: u32,
) -> Result<Fixture, Fail> {
    let mut heads = Vec::new(alloc);
    let mut samples = Vec::new(alloc);
    for (ports, step) in procs {
        if ports.len() >= 1 << 30 {
            Err("too many ports")?;
        }
        heads.push(head(alloc, ports, *step)?)?;
        samples.push(sample(alloc, ports, *step)?)?;
    }
    let mut depths = Vec::new(alloc);
    for _ in kinds {
        depths.push(depth)?;
    }
    let net = Net {
        name: name(alloc, 0)?,
        procs: Seq::from_vec(heads),
        chans: channels(alloc, kinds)?,
    };
    Ok(Fixture {
        net,
        samples,
        depths,
    })
}

/// No words but these, on channel 0.
fn words(alloc: Global, chans: usize, numbers: &[u8]) -> Result<Inputs, AllocError> {
    let mut words = Vec::new(alloc);
    for c in 0..chans {
        let mut list = Vec::new(alloc);
        if c == 0 {
            for number in numbers {
                list.push(Bits::new(8, u128::from(*number)))?;
            }
        }
        words.push(Seq::from_vec(list))?;
    }
    Ok(Inputs {
        words: Seq::from_vec(words),
    })
}

/// The parts of a fixture belong together.
fn assert_fits(rt: &impl Abort, fixture: &Fixture, inputs: &Inputs)
    ensures net { IsNet fixture.now.net }
    ensures samples { AreBehaviorsOf fixture.now.net (map behavior_of fixture.now.samples.items) }
    ensures inputs { IsInputs fixture.now.net inputs.now.words }
    ensures depths { IsDepths fixture.now.net fixture.now.depths.items }
{
    assert!(rt; net_fits(&fixture.net));
    assert!(rt; bodies_fit(&fixture.net, fixture.samples.as_slice()));
    assert!(rt; inputs_fit(&fixture.net, inputs));
    assert!(rt; depths_fit(&fixture.net, fixture.depths.as_slice()));
}

/// It receives from a channel, and sends on another one.
fn passes(from: u32, to: u32) -> [Port; 2] {
    [
        site(from, false, When::Always, Source::Last),
        site(to, true, When::Always, Source::Last),
    ]
}

/// An input whose words are passed on by procs in a row to an output.
fn chain(alloc: Global, count: u32) -> Result<Fixture, Fail> {
    let mut kinds = Vec::new(alloc);
    let mut ports = Vec::new(alloc);
    kinds.push(Kind::Input)?;
    for p in 0..count {
        kinds.push(if p == count - 1 {
            Kind::Output
        } else {
            Kind::Inner
        })?;
        ports.push(passes(p, p + 1))?;
    }
    let mut procs: Vec<(&[Port], Step)> = Vec::new(alloc);
    for sites in ports.as_slice() {
        procs.push((sites, Step::Stay))?;
    }
    make_fixture(alloc, kinds.as_slice(), procs.as_slice(), 1)
}

/// What the first proc of a network can do and does.
fn first_step(
    rt: &impl Abort,
    alloc: Global,
    fixture: &Fixture,
    numbers: &[u8],
) -> Result<(bool, bool), Fail> {
    let inputs = words(alloc, fixture.net.chans.len(), numbers)?;
    assert_fits(rt, fixture, &inputs);
    let samples = fixture.samples.as_slice();
    let depths = fixture.depths.as_slice();
    assert!(rt; !samples.is_empty());
    Ok(ask_and_step(alloc, &fixture.net, samples, &inputs, depths)?)
}

#[test]
fn a_step_is_made_where_it_can_be(rt: HostRuntime) -> Result<(), Fail> {
    let receives = chain(rt.alloc(), 1)?;
    assert_eq!(rt;
        first_step(&rt, rt.alloc(), &receives, &[])?,
        (false, false)
    );
    assert_eq!(rt; first_step(&rt, rt.alloc(), &receives, &[5])?, (true, true));
    Ok(())
}
