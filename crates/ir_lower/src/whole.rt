//! A whole checked text.

ghost use Rattle.std.specs.Prelude.{◌≡◌, false, IfErr, IfOk, OnOk, map, slice_get};
ghost use Rattle.ir_tree.specs.Networks.{network_of};
ghost use Rattle.ir_tree.specs.Rules.Verified.{IsVerified};
ghost use Rattle.dslx_core.specs.Designs.{core_family, core_network};
ghost use Rattle.dslx_interp.specs.Network.Bodies.{own_instance};
ghost use Rattle.dslx_interp.specs.Network.Linked.{IsLinked};
ghost use Rattle.ir_lower.specs.Inner.Made.{IsPackageOf};
ghost use Rattle.ir_lower.specs.Deep.{receives_deep};
ghost use Rattle.ir_lower.specs.Lowered.{IsLoweringOf, RefusesLowering};

use crate::channels::{channels_of, name_copy};
use crate::deep::{deep_limit, receives_deep};
use crate::procs::procs_of;
use crate::same::is_net;
use crate::signatures::signatures_of;
use crate::types::Stop;
use dslx_core::Design;
use dslx_interp::network::{Elaborated, elaborate};
use ir_tree::rules::verify;
use ir_tree::{Package, net_of};
use net_core::Net;
use std::alloc::{AllocError, Global};
use xb_span::ReadError;

/// The package of a checked text. Its word is the limit `levels` where a proc receives words in which 64 tuples and arrays stand one in
/// another, since such a word stands in a pair with its token.
///
/// Else it gives up for want of memory alone, but for checked texts of which a part has no type that a node may have, or of which the package
/// breaks a rule or passes a limit. None is known; that there is none isn't proved.
pub fn lower(alloc: Global, design: &Design) -> Result<Package, ReadError>
    requires { IsLinked design.now }
    ensures lowered { IfOk result (λ ir. IsLoweringOf design.now ir) }
    ensures shallow { IfOk result (λ ir. receives_deep (core_network design.now) ≡ false) }
    ensures refused { IfErr result (RefusesLowering design.now) }
{
    let made = elaborated(alloc, design)?;
    if receives_deep(alloc, &made.net)? {
        return Err(ReadError::Over(deep_limit()));
    }
    let ir = package_with(alloc, design, &made)?;
    Ok(ir)
}

/// The package of a network.
fn package_with(alloc: Global, design: &Design, made: &Elaborated) -> Result<Package, AllocError>
    requires net { made.now.net ≡ core_network design.now }
    requires instances { map (slice_get design.now.procs) made.now.instances.items ≡ map own_instance (core_family design.now).procs }
    ensures { IfOk result (λ ir. IsLoweringOf design.now ir) }
{
    match package_or_stop(alloc, design, made) {
        Ok(ir) => Ok(ir),
        Err(_) => Err(AllocError),
    }
}

/// The same, or why there is none.
fn package_or_stop(alloc: Global, design: &Design, made: &Elaborated) -> Result<Package, Stop>
    requires net { made.now.net ≡ core_network design.now }
    requires instances { map (slice_get design.now.procs) made.now.instances.items ≡ map own_instance (core_family design.now).procs }
    ensures { IfOk result (λ ir. IsLoweringOf design.now ir) }
{
    let ir = package_of(alloc, design, made)?;
    check_package(alloc, &made.net, &ir)?;
    Ok(ir)
}

/// The network of the text.
fn elaborated(alloc: Global, design: &Design) -> Result<Elaborated, AllocError>
    requires { IsLinked design.now }
    ensures net { IfOk result (λ made. made.net ≡ core_network design.now) }
    ensures instances { IfOk result (λ made. map (slice_get design.now.procs) made.instances.items ≡ map own_instance (core_family design.now).procs) }
{
    match elaborate(alloc, design) {
        Ok(made) => Ok(made),
        Err(_) => Err(AllocError),
    }
}

/// The package that is made of a network.
fn package_of(alloc: Global, design: &Design, made: &Elaborated) -> Result<Package, Stop>
    ensures { IfOk result (λ ir. IsPackageOf design.now made.now.net.chans made.now.instances.items ir) }
{
    let signatures = signatures_of(alloc, design, made)?;
    let channels = channels_of(alloc, made.net.chans.as_slice())?;
    let procs = procs_of(alloc, signatures.as_slice(), design, made)?;
    let name = name_copy(alloc, &made.net.name)?;
    Ok(Package {
        name,
        channels,
        procs,
    })
}

/// The package breaks no rule and passes no limit, and it has this network.
fn check_package(alloc: Global, net: &Net, ir: &Package) -> Result<(), Stop>
    ensures verified { OnOk result (IsVerified ir.now) }
    ensures network { OnOk result (net.now ≡ network_of ir.now) }
{
    verify_package(alloc, ir)?;
    has_network(alloc, net, ir)
}

fn verify_package(alloc: Global, ir: &Package) -> Result<(), Stop>
    ensures { OnOk result (IsVerified ir.now) }
{
    match verify(alloc, ir) {
        Ok(()) => Ok(()),
        Err(_) => Err(Stop::Untyped),
    }
}

fn has_network(alloc: Global, net: &Net, ir: &Package) -> Result<(), Stop>
    ensures { OnOk result (net.now ≡ network_of ir.now) }
{
    let own = net_of(alloc, ir)?;
    if is_net(net, &own) {
        Ok(())
    } else {
        Err(Stop::Untyped)
    }
}
