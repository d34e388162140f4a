//! Instances are judged.

ghost use Rattle.std.specs.Prelude.{◌≡◌, Some, IfOk, OnOk, slice_get};
ghost use Rattle.dslx_check_facts.specs.Known.{text_of};
ghost use Rattle.dslx_check_facts.specs.Names.{definition_at};
ghost use Rattle.dslx_check_facts.specs.Walks.{OnlyMisses, shown};
ghost use Rattle.dslx_check_tasks.specs.Standing.{WorkGoesOn};
ghost use Rattle.dslx_check_tasks.specs.Told.{IsSumIf, IsSumOf, TellsInstance};

use crate::laws::what_is_known;
use crate::work::{Work, begin, is_missing, there, walked};
use dslx_check_declarations::work::learn_instance;
use dslx_check_declarations::work::places::put_there;
use dslx_check_facts::{Facts, InstanceKey, Need, Sums, Walk, reached_since};
use dslx_check_judge::instances::{InstanceSeen, instance_seen};
use dslx_check_rules::Faults;
use dslx_check_uses::definition;
use dslx_tree::Definition;
use dslx_values::copy_values;
use std::alloc::{AllocError, Global};

impl<'a> Work<'a> {
    /// Judges an instance, unless it is judged, or puts it back.
    pub(crate) fn judge_instance(&mut self, instance: u32) -> Result<(), AllocError>
        ensures { OnOk result (WorkGoesOn self.old self.new) }
    {
        if there(self.instances.as_slice(), instance).is_some() {
            return Ok(());
        }
        let key = key_of(self.facts.alloc, &self.walk, instance)?;
        match definition(&self.facts, key.item) {
            None => Err(AllocError),
            Some(own) => self.walk_instance(instance, &key, own),
        }
    }

    /// Walks over the text of an instance.
    fn walk_instance(
        &mut self,
        instance: u32,
        key: &InstanceKey,
        own: &'a Definition,
    ) -> Result<(), AllocError>
        requires key { slice_get (shown self.now.walk).met instance ≡ Some key.now }
        requires own { definition_at (text_of self.now.facts).items (key.now).item ≡ Some own.now }
        ensures { OnOk result (WorkGoesOn self.old self.new) }
    {
        what_is_known();
        begin(&mut self.walk);
        let args = key.parametric_args.as_slice();
        let seen = instance_seen(&self.facts, &mut self.walk, key.item, own, args)?;
        let sums = sums_if(&self.facts, &mut self.walk, own, seen)?;
        if is_missing(&self.walk) {
            self.postpone(Need::Instance(instance))
        } else {
            self.tell_instance(instance, seen.faults, sums)
        }
    }

    /// What an instance comes to is known from here on.
    fn tell_instance(
        &mut self,
        instance: u32,
        faults: Faults,
        sums: Option<Sums>,
    ) -> Result<(), AllocError>
        ensures { OnOk result (TellsInstance self.old self.new instance faults sums) }
    {
        let reaches = walked(self.facts.alloc, &self.walk, faults)?;
        put_there(&mut self.instances, instance, reaches)?;
        match sums {
            None => Ok(()),
            Some(sums) => learn_instance(&mut self.facts, instance, sums),
        }
    }
}

/// The item and the parametric arguments of an instance.
pub fn key_of(alloc: Global, w: &Walk, instance: u32) -> Result<InstanceKey, AllocError>
    ensures { IfOk result (λ key. slice_get (shown w.now).met instance ≡ Some key) }
{
    match w.instances.get(instance) {
        None => Err(AllocError),
        Some(key) => copy_of(alloc, key),
    }
}

fn copy_of(alloc: Global, key: &InstanceKey) -> Result<InstanceKey, AllocError>
    ensures { IfOk result (λ copy. copy ≡ key.now) }
{
    let parametric_args = copy_values(alloc, key.parametric_args.as_slice())?;
    Ok(InstanceKey {
        item: key.item,
        parametric_args,
    })
}

/// What an instance of a function comes to with all that it reaches. That of a proc isn't asked for.
fn sums_if(
    f: &Facts,
    w: &mut Walk,
    own: &Definition,
    seen: InstanceSeen,
) -> Result<Option<Sums>, AllocError>
    ensures misses { OnOk result (OnlyMisses (shown w.old) (shown w.new)) }
    ensures sums { IfOk result (IsSumIf f.now (shown w.old) (shown w.new) own.now seen) }
{
    match own {
        Definition::Function(_) => {
            let sums = sums_of(f, w, seen)?;
            Ok(Some(sums))
        }
        _ => Ok(None),
    }
}

fn sums_of(f: &Facts, w: &mut Walk, seen: InstanceSeen) -> Result<Sums, AllocError>
    ensures misses { OnOk result (OnlyMisses (shown w.old) (shown w.new)) }
    ensures sums { IfOk result (IsSumOf f.now (shown w.old) (shown w.new) seen) }
{
    let all = reached_since(f, w, 0)?;
    Ok(Sums {
        sound: seen.faults.is_empty() && all.sound,
        unbroken: !seen.faults.broken && all.unbroken,
        size: seen.size,
    })
}
