//! Laws of what modules mean, each the contract of a function without a body.

ghost use Rattle.std.specs.Prelude.{◌≡◌, ◌<◌, ℕ, List, length, true};
ghost use Rattle.xb_bits.specs.Word.{Word};
ghost use Rattle.vlog_tree.specs.declared.module.VModule.{VModule};
ghost use Rattle.vlog_tree.specs.Signals.{signals};
ghost use Rattle.vlog_tree.specs.declared.expression.Expr.{Expr};
ghost use Rattle.vlog_tree.specs.Forms.{fits};
ghost use Rattle.vlog_tree.specs.Value.{Values, expr_value};
ghost use Rattle.vlog_tree.specs.Meaning.{IsNow};
ghost use Rattle.vlog_tree.specs.Settled.{values_of, settled, IsOrdered, AreReady, DrivesWires, ReadsSignals, AreAllDriven};

/// Where a module's assignments stand in an order in which each reads only what is there before it, taking them one
/// after another gives the values that the module means, and no other values are its meaning.
pub fn order_gives_the_meaning()
    ensures meaning { (m : VModule) (held given : Values) (words : List Word) →
        IsOrdered m.assignments → DrivesWires m m.assignments → AreReady m held given words →
        IsNow m held given (values_of (settled m.assignments words)) }
    ensures only { (m : VModule) (held given values : Values) (words : List Word) →
        IsOrdered m.assignments → DrivesWires m m.assignments → ReadsSignals (length (signals m)) m.assignments → AreAllDriven m → AreReady m held given words →
        IsNow m held given values →
        (s : ℕ) → s < length (signals m) → values s ≡ values_of (settled m.assignments words) s }
{}

/// An expression that fits a width is worth a number of that width.
pub fn values_fit()
    ensures { (values : Values) (w : ℕ) (x : Expr) → fits (λ s. (values s).width) w x ≡ true → (expr_value values x).width ≡ w }
{}
