ghost use Rattle.std.specs.Prelude.{◌≡◌, ◌≤◌, map, All, IfOk};
ghost use Rattle.xb_bits.specs.Word.{word};
ghost use Rattle.vlog_tree.specs.Signals.{signals as module_signals};

use std::alloc::{AllocError, Global};
use vlog_tree::VModule;
use xb_bits::Bits;

/// A 0 for each signal of a module.
pub fn zeros_of(alloc: Global, design: &VModule) -> Result<Vec<Bits>, AllocError>
    requires ports { All (λ p. (1 ≤ p.width) × (p.width ≤ 128)) design.now.ports }
    requires own { All (λ d. (1 ≤ d.width) × (d.width ≤ 128)) design.now.declarations }
    ensures { IfOk result (λ values. values.items ≡ map (λ d. word d.width 0) (module_signals design.now)) }
{
    let mut values = Vec::new(alloc);
    for port in design.ports.as_slice() {
        values.push(Bits::new(port.width as u8, 0))?;
    }
    for own in design.declarations.as_slice() {
        values.push(Bits::new(own.width as u8, 0))?;
    }
    Ok(values)
}
