//! Laws of scheduled packages, each the contract of a function without a body.

ghost use Rattle.std.specs.Prelude.{◌≡◌, ℕ, List, slice_get, Some};
ghost use Rattle.ir_tree.specs.declared.package.Package.{Package};
ghost use Rattle.ir_tree.specs.declared.package.Proc.{Proc};
ghost use Rattle.ir_tree.specs.Rules.Verified.{IsVerified};
ghost use Rattle.block_stage.specs.Machine.Pipeline.{IsPipeline};
ghost use Rattle.block_build.specs.Block.{IsBlock};
ghost use Rattle.pipe_schedule.specs.Legal.{IsLegalAt};
ghost use Rattle.pipe_schedule.specs.Timed.{timed_nodes};
ghost use Rattle.block_verilog.specs.Schedule.Pipelines.{pipeline_of, block_of, AreLegal};

/// A proc of a verified package with a legal schedule is a pipeline.
pub fn scheduled_procs_are_pipelines()
    ensures { (ir : Package) (p : ℕ) (proc : Proc) (clock : ℕ) (stages : List ℕ) → IsVerified ir → slice_get ir.procs p ≡ Some proc → IsLegalAt (timed_nodes proc) clock stages →
        IsPipeline (pipeline_of ir.channels proc stages) }
{
    ir_tree::rules::typed::procs_keep_types();
    ir_tree::rules::typed::sites_are_alone_at_their_ends();
}

/// A verified package whose procs have legal schedules is a block, whatever the depths of its FIFOs.
pub fn scheduled_packages_are_blocks()
    ensures { (ir : Package) (clock : ℕ) (schedules : List (List ℕ)) (depths : List ℕ) → IsVerified ir → AreLegal clock ir.procs schedules → IsBlock (block_of ir schedules depths) }
{
    scheduled_procs_are_pipelines();
    ir_tree::rules::typed::procs_fit_their_network();
}
