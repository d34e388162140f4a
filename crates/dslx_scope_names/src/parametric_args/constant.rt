ghost use Rattle.std.specs.Prelude.{◌≡◌};
ghost use Rattle.dslx_meaning.specs.Items.{meanings_of};

use base::texts::Name;
use dslx_meaning::names::find_constant;
use dslx_tree::Module;

/// Whether a name is a constant's.
#[tactic(auto, using(crate::proofs::OnParametricArgs::Constants::is_constants, crate::proofs::OnParametricArgs::Constants::is_no_constants))]
pub(crate) fn is_constant(text: &Module, name: &Name) -> bool
    ensures { result ≡ (meanings_of text.now).is_constant name.now }
{
    match find_constant(text.items.as_slice(), name) {
        Some(_) => true,
        None => false,
    }
}
