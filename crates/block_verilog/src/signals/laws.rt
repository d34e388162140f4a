//! Laws of the wires of procs, each the contract of a function without a body.

ghost use Rattle.std.specs.Prelude.{◌≡◌, ℕ, List, slice_get, Some};
ghost use Rattle.ir_tree.specs.declared.package.Package.{Package};
ghost use Rattle.ir_tree.specs.declared.package.Proc.{Proc};
ghost use Rattle.ir_tree.specs.Rules.Verified.{IsVerified};
ghost use Rattle.vlog_tree.specs.Value.{Values};
ghost use Rattle.block_build.specs.declared.netlist.fifos.ChannelView.{ChannelView};
ghost use Rattle.block_build.specs.Netlist.Nodes.{NodesShow, ProcNets};
ghost use Rattle.block_verilog.specs.declared.signals.layout.ProcRegisters.{ProcRegisters};
ghost use Rattle.block_verilog.specs.declared.signals.procs.NodeWires.{NodeWires};
ghost use Rattle.block_verilog.specs.Signals.Nodes.{AreOfNodes, NodesMade};
ghost use Rattle.block_verilog.specs.Signals.Registers.{stage_of};

/// The signals that are put for the nodes of a verified proc show their values, each in its own stage: whatever words come,
/// where those of what it reads show what that is worth, and a receive's wire has the word of its site.
pub fn made_nodes_show_values()
    ensures { (ir : Package) (p : ℕ) (proc : Proc) → IsVerified ir → slice_get ir.procs p ≡ Some proc → (v : Values) (stages : List ℕ) (registers : ProcRegisters) (views : List ChannelView) (made : NodeWires) →
        NodesMade v ir.channels proc stages registers views made → (nets : ProcNets) → AreOfNodes nets made →
        NodesShow v ir.channels proc nets (stage_of stages) }
{}
