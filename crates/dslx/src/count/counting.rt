//! How large the network of an accepted text is.

ghost use Rattle.std.specs.Prelude.{◌≡◌, ℕ, List, [], Option, Some, IfOk};
ghost use Rattle.dslx_meaning.specs.Network.{top_proc};
ghost use Rattle.dslx_meaning.specs.Rules.ModuleRules.{faults_of};
ghost use Rattle.dslx_meaning.specs.Rules.NetworkLimits.{network_count};
ghost use Rattle.dslx_elab.specs.Orders.{EndsWithTop, IsSpawnOrder};
ghost use Rattle.dslx.specs.Count.Sizes.{size_of_count};
ghost use Rattle.dslx.specs.Count.Counting.{is_channel, is_same_instance, last_of, size_of_instance, sizes_behind, with_channels, with_sizes, size_among};

use crate::count::size::NetworkSize;
use dslx_config::configs::{find_proc, spawned_there};
use dslx_core::lowering::Instantiated;
use dslx_tree::{ConfigStatement, Module, Proc};
use dslx_values::equal_values;
use std::alloc::{AllocError, Global};

/// How large the network of a text is whose procs' instances stand in this order, each behind those that it spawns, the top's at the end
/// (as `crate::order::spawn_order` gives them). The outer channels count too.
///
/// Each instance's size is worked out once, from those of the instances that it spawns. It looks at each config once for each of its
/// instances, and at all instances that come before for each spawn, as making the order does; it doesn't matter how large the network is.
pub fn network_size(
    alloc: Global,
    text: &Module,
    top: &Proc,
    order: &[Instantiated],
) -> Result<NetworkSize, AllocError>
    ensures { IfOk result (λ size. (name : Option (List ℕ)) → faults_of text.now name ≡ [] → top_proc text.now name ≡ Some top.now
        → IsSpawnOrder text.now name [] order.now → EndsWithTop text.now top.now order.now → size ≡ size_of_count (network_count text.now name top.now)) }
{
    dslx_total::checked::checked_items_mention_such();
    dslx_total::checked::what_is_checked_is_known();
    dslx_total::configs::lower_total_configs();
    let sizes = all_sizes(alloc, text, order)?;
    let outer = outer_channels(top.config.ends.len());
    Ok(outer.and(last_size(sizes.as_slice())))
}

/// So many outer channels.
fn outer_channels(count: usize) -> NetworkSize
    ensures { result ≡ size_of_count (record { procs = 0; channels = count }) }
{
    NetworkSize {
        procs: 0,
        channels: (count as u64).min(1025),
    }
}

fn last_size(sizes: &[NetworkSize]) -> NetworkSize
    ensures { result ≡ last_of sizes.now }
{
    match sizes.last() {
        Some(size) => *size,
        None => nothing(),
    }
}

/// The sizes of these instances, each by those of the ones before it.
fn all_sizes(
    alloc: Global,
    text: &Module,
    order: &[Instantiated],
) -> Result<Vec<NetworkSize>, AllocError>
    ensures { IfOk result (λ sizes. sizes.items ≡ sizes_behind text.now order.now [] order.now) }
{
    let mut sizes = Vec::new(alloc);
    'order: for instance in order {
        sizes.push(instance_size(alloc, text, order, sizes.as_slice(), instance)?)?;
    }
    Ok(sizes)
}

/// An instance of a proc with what it makes and spawns, where these first ones of the order have their sizes.
fn instance_size(
    alloc: Global,
    text: &Module,
    order: &[Instantiated],
    sizes: &[NetworkSize],
    instance: &Instantiated,
) -> Result<NetworkSize, AllocError>
    ensures { IfOk result (λ size. size ≡ size_of_instance text.now order.now sizes.now instance.now) }
{
    let Some(process) = find_proc(text.items.as_slice(), &instance.name) else {
        return Ok(nothing());
    };
    let args = instance.parametric_args.as_slice();
    match spawned_there(alloc, text, process, args)? {
        Some(spawned) => {
            let own = own_size(process.config.config_statements.as_slice());
            Ok(spawned_too(own, order, sizes, spawned.as_slice()))
        }
        None => Ok(nothing()),
    }
}

/// A proc with the channels that its `config` makes.
fn own_size(config_statements: &[ConfigStatement]) -> NetworkSize
    ensures { result ≡ with_channels (record { procs = 1; channels = 0 }) config_statements.now }
{
    let mut size = NetworkSize {
        procs: 1,
        channels: 0,
    };
    'statements: for statement in config_statements {
        if makes_channel(statement) {
            size = size.and(one_channel());
        }
    }
    size
}

fn makes_channel(statement: &ConfigStatement) -> bool
    ensures { result ≡ is_channel statement.now }
{
    match statement {
        ConfigStatement::Channel(_) => true,
        ConfigStatement::Spawn(_) => false,
    }
}

/// With all that these spawned instances bring.
fn spawned_too(
    own: NetworkSize,
    order: &[Instantiated],
    sizes: &[NetworkSize],
    spawned: &[Instantiated],
) -> NetworkSize
    ensures { result ≡ with_sizes order.now sizes.now own spawned.now }
{
    let mut size = own;
    'spawned: for instance in spawned {
        size = size.and(size_before(order, sizes, instance));
    }
    size
}

/// The size of an instance, if it is one of the first of the order, which have their sizes.
fn size_before(
    order: &[Instantiated],
    sizes: &[NetworkSize],
    instance: &Instantiated,
) -> NetworkSize
    ensures { result ≡ size_among order.now sizes.now instance.now }
{
    'sizes: for i in 0..sizes.len() {
        match order.get(i) {
            Some(other) => if is_same(instance, other) {
                return sizes[i];
            },
            None => return nothing(),
        }
    }
    nothing()
}

fn is_same(one: &Instantiated, other: &Instantiated) -> bool
    ensures { result ≡ is_same_instance one.now other.now }
{
    one.name == other.name
        && equal_values(
            one.parametric_args.as_slice(),
            other.parametric_args.as_slice(),
        )
}

fn nothing() -> NetworkSize
    ensures { result ≡ record { procs = 0; channels = 0 } }
{
    NetworkSize {
        procs: 0,
        channels: 0,
    }
}

fn one_channel() -> NetworkSize
    ensures { result ≡ record { procs = 0; channels = 1 } }
{
    NetworkSize {
        procs: 0,
        channels: 1,
    }
}
