//! The laws of the modules of packages, each the contract of a function that calls the laws below it.

ghost use Rattle.std.specs.Prelude.{◌≡◌, ℕ, List};
ghost use Rattle.ir_tree.specs.declared.package.Package.{Package};
ghost use Rattle.vlog_tree.specs.declared.module.VModule.{VModule};
ghost use Rattle.vlog_tree.specs.WellFormed.{CanRun};
ghost use Rattle.block_verilog.specs.Schedule.Pipelines.{block_of};
ghost use Rattle.block_verilog.specs.Drives.{DrivesBlock};
ghost use Rattle.block_verilog.specs.Modules.{IsMadeOfParts};

/// A module that is put together of the parts of a package drives at its ports what the package's block does.
pub fn modules_drive_their_blocks()
    ensures { (m : VModule) (ir : Package) (clock : ℕ) (schedules : List (List ℕ)) (depths : List ℕ) → CanRun m → IsMadeOfParts m ir clock schedules depths →
        DrivesBlock m ir.channels (block_of ir schedules depths) }
{
    crate::schedule::laws::scheduled_packages_are_blocks();
    block_build::netlist::holding::netlists_drive_what_their_blocks_do();
    block_build::netlist::holding::ends_show_the_machines();
    crate::pipelines::laws::pipelines_are_made();
    crate::pipelines::laws::registers_go_on_as_they_are_set();
    crate::widths::signals_carry_words();
    block_build::netlist::sets::registers_take_their_sets();
    ir_tree::rules::typed::procs_fit_their_network();
}
