//! Which fault is named by what is found of a text.

ghost use Rattle.std.specs.Prelude.{◌≡◌, ◌≤◌, ℕ, List, Option, Some, length, nat_lt, true, false};
ghost use Rattle.xb_span.specs.Fault.{first_of, key_of};
ghost use Rattle.xb_span.specs.declared.fault.Fault.{Fault};
ghost use Rattle.dslx_tree.specs.declared.item.Module.{Module};
ghost use Rattle.dslx_meaning.specs.Rules.ModuleRules.{first_fault, globals_of, instances_faults, instances_of};
ghost use Rattle.dslx_meaning.specs.Rules.Namesakes.{told_apart};
ghost use Rattle.dslx_meaning.specs.Rules.TypeEnvs.{Instance};
ghost use Rattle.dslx_core.specs.Typing.Laws.Least.{HaveSameFaults};
ghost use Rattle.dslx_core.specs.Typing.TypingRelations.Closed.{IsLeastClosed};
ghost use Rattle.dslx_check.specs.Least.Starts.{AreInstancesApart, AreStarted, found_faults, starts_of, too_many};

/// Faults of one place in the order are one.
pub fn one_place_is_one_fault()
    ensures { (f g : Fault) → key_of f ≡ key_of g → f ≡ g }
{}

/// Lists with the same faults name the same one, or none.
pub fn same_faults_name_one()
    ensures { (fs gs : List Fault) → HaveSameFaults fs gs → first_of fs ≡ first_of gs }
{
    dslx_core::typing::laws::any_order_names_one_fault();
    one_place_is_one_fault();
}

/// Instances that are the least that have those that a text starts from and all that they reach have the same faults as those of the text. They are
/// no fewer, and as many where each was found once.
pub fn found_instances_are_all()
    ensures size { (m : Module) (top : Option (List ℕ)) (all : List Instance) → IsLeastClosed (globals_of m) (starts_of m top) all → AreInstancesApart all → length all ≡ length (instances_of m top) }
    ensures faults { (m : Module) (top : Option (List ℕ)) (all : List Instance) → IsLeastClosed (globals_of m) (starts_of m top) all
        → HaveSameFaults (instances_faults (globals_of m) all) (instances_faults (globals_of m) (instances_of m top)) }
    ensures no_fewer { (m : Module) (top : Option (List ℕ)) (all : List Instance) → IsLeastClosed (globals_of m) (starts_of m top) all → length (instances_of m top) ≤ length all }
    ensures fewer { (m : Module) (top : Option (List ℕ)) (some : List Instance) → AreStarted (globals_of m) (starts_of m top) some → AreInstancesApart some → length some ≤ length (instances_of m top) }
{
    dslx_core::typing::typing::what_is_checked_is_least();
}

/// So the first fault of a text is that of what is found outside all instances and in those; and where more instances are found, each once, than a
/// text may have, the text is refused for that, whether more are to be found or not.
pub fn what_is_found_names_the_first_fault()
    ensures few { (text : Module) (top : Option (List ℕ)) (all : List Instance) → IsLeastClosed (globals_of (told_apart text)) (starts_of (told_apart text) top) all → nat_lt 4096 (length all) ≡ false
        → first_fault text top ≡ first_of (found_faults text top all) }
    ensures many { (text : Module) (top : Option (List ℕ)) (some : List Instance) → AreStarted (globals_of (told_apart text)) (starts_of (told_apart text) top) some → AreInstancesApart some
        → nat_lt 4096 (length some) ≡ true → first_fault text top ≡ Some too_many }
{
    found_instances_are_all();
    same_faults_name_one();
}
