//! Whether patterns bind names.

ghost use Rattle.std.specs.Prelude.{◌≡◌, map};
ghost use Rattle.std.specs.List.{list_all};
ghost use Rattle.dslx_tree.specs.declared.pattern.Shape.{out-Shape};
ghost use Rattle.dslx_meaning.specs.Items.{meanings_of};
ghost use Rattle.dslx_core.specs.Lowering.Patterns.{names_of_all};
ghost use Rattle.dslx_core.specs.Lowering.Steps.{lower_pattern_of_text};
ghost use Rattle.dslx_scope_names.specs.Patterns.Tops.{top_names};

use crate::names::is_constant_named;
use dslx_tree::{Module, Pattern, Shape};

/// Whether each name in these patterns is a constant's.
#[cycle(binds)]
pub fn binds_nothing_new(text: &Module, patterns: &[Pattern]) -> bool
    ensures { result ≡ list_all (meanings_of text.now).is_constant (names_of_all (map lower_pattern_of_text patterns.now)) }
{
    'patterns: for pattern in patterns {
        if !binds_nothing(text, pattern) {
            return false;
        }
    }
    true
}

/// Whether each name in a pattern is a constant's.
#[cycle(binds)]
#[tactic(auto, using(crate::proofs::OnPatterns::Opened::names_by_top))]
fn binds_nothing(text: &Module, pattern: &Pattern) -> bool
    ensures { result ≡ list_all (meanings_of text.now).is_constant (lower_pattern_of_text pattern.now).names }
{
    form_binds_nothing(text, &pattern.shape)
}

#[cycle(binds)]
fn form_binds_nothing(text: &Module, form: &Shape) -> bool
    ensures { result ≡ list_all (meanings_of text.now).is_constant (top_names (out-Shape form.now)) }
{
    match form {
        Shape::Name(name) => is_constant_named(text, name),
        Shape::Tuple(parts) => binds_nothing_new(text, parts.as_slice()),
        _ => true,
    }
}
