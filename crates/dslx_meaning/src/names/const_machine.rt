//! A machine for the values of expressions of a text, and that it finds what they mean.
//!
//! There is no code here: `specs/Names/` has what each step does, and code that takes these steps gives the value by the definition.
ghost use Rattle.std.specs.Prelude.{◌≡◌, ℕ, List, Some, length};
ghost use Rattle.dslx_tree.specs.declared.expr.Expr.{Expr};
ghost use Rattle.dslx_tree.specs.declared.item.Module.{Module};
ghost use Rattle.dslx_tree.specs.declared.type_expr.TypeExpr.{TypeExpr};
ghost use Rattle.dslx_meaning.specs.Environment.{Given};
ghost use Rattle.dslx_meaning.specs.Items.{meanings_of};
ghost use Rattle.dslx_meaning.specs.Meaning.{bound_of, denotation, size_of, value_of, written_type};
ghost use Rattle.dslx_meaning.specs.Names.ConstMachine.States.{count_in_finding, type_in, value_in};
ghost use Rattle.dslx_meaning.specs.Names.ConstMachine.Kept.{KeptValues, kept_within};
ghost use Rattle.dslx_meaning.specs.Names.ConstMachine.Steps.{begins, begins_over, after};
ghost use Rattle.dslx_meaning.specs.Names.ConstMachine.Tasks.{CountsBound, CountsSize, ValueDen, Finding, FindsType};

/// What the machine has found when nothing is left to be done, after however many steps, is what the definition says, or that
/// there is none: the value of an expression, a written type, a size, or a bound of a slice. Where values of constants and members are
/// kept, it is what the expression denotes where they have these, and what is hidden denotes nothing.
pub fn machine_finds_denotations()
    ensures value { (m : Module) (bound : List Given) (e : Expr) (n : ℕ) (f : Finding)
        → after n (begins m bound (ValueDen e)) ≡ Some f → value_in f ≡ value_of e (record { items = meanings_of m; bound = bound }) }
    ensures over { (m : Module) (kept : KeptValues) (bound : List Given) (e : Expr) (n : ℕ) (f : Finding)
        → after n (begins_over m (Some kept) bound (ValueDen e)) ≡ Some f → value_in f ≡ value_of e (record { items = kept_within kept m (length m.items); bound = bound }) }
    ensures ty { (m : Module) (bound : List Given) (t : TypeExpr) (n : ℕ) (f : Finding)
        → after n (begins m bound (FindsType t)) ≡ Some f → type_in f ≡ written_type t (record { items = meanings_of m; bound = bound }) }
    ensures size { (m : Module) (bound : List Given) (e : Expr) (n : ℕ) (f : Finding)
        → after n (begins m bound (CountsSize e)) ≡ Some f → count_in_finding f ≡ size_of (denotation e) (record { items = meanings_of m; bound = bound }) }
    ensures bound { (m : Module) (bound : List Given) (e : Expr) (n : ℕ) (f : Finding)
        → after n (begins m bound (CountsBound e)) ≡ Some f → count_in_finding f ≡ bound_of (denotation e) (record { items = meanings_of m; bound = bound }) }
{}
