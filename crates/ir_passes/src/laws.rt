//! Laws of what optimising gives.

ghost use Rattle.std.specs.Prelude.{◌≡◌};
ghost use Rattle.ir_tree.specs.declared.package.Package.{Package};
ghost use Rattle.ir_passes.specs.Optimised.{IsMade, IsOptimised};

/// One package comes of a package: the rules leave no choice.
pub fn optimised_is_one()
    ensures { (ir a b : Package) → IsMade ir a → IsMade ir b → a ≡ b }
{}

/// A package that was optimised is given back as it is.
pub fn optimised_is_given_back()
    ensures { (ir a b : Package) → IsOptimised ir a → IsOptimised a b → b ≡ a }
{}
