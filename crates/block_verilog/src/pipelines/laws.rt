//! Laws of the hardware of scheduled procs, each the contract of a function without a body.

ghost use Rattle.std.specs.Prelude.{◌≡◌, ℕ, Bool, List, length};
ghost use Rattle.xb_value.specs.Typing.{IsOfType};
ghost use Rattle.ir_tree.specs.declared.node.Operand.TheVariants as operand;
ghost use Rattle.ir_tree.specs.declared.package.Package.{Package};
ghost use Rattle.ir_tree.specs.Types.{ty_of};
ghost use Rattle.vlog_tree.specs.declared.expression.Atom.{Atom};
ghost use Rattle.vlog_tree.specs.Value.{Values};
ghost use Rattle.block_build.specs.declared.netlist.fifos.ChannelView.{ChannelView};
ghost use Rattle.block_build.specs.Netlist.Blocks.{AllPartnersMade, ChannelNets};
ghost use Rattle.block_build.specs.Netlist.Ends.{all_sites, end_requests};
ghost use Rattle.block_build.specs.Netlist.Holding.{AreReset, PipelineMade, RegistersGoOn};
ghost use Rattle.block_build.specs.Netlist.Leaves.{ShowsValue};
ghost use Rattle.block_build.specs.Netlist.Registers.{AreTaken, resets_of};
ghost use Rattle.block_build.specs.Netlist.Requests.{requests_at};
ghost use Rattle.block_verilog.specs.Signals.Nodes.{channel_view};
ghost use Rattle.block_verilog.specs.Pipelines.Nets.{ProcParts, ArePut, PartsDriven, KeepsWords, ShowsView, pipeline_nets};
ghost use Rattle.block_verilog.specs.Pipelines.Pipelines.{next_nets, proc_registers};

/// What is put for a proc of a verified package with a legal schedule is a pipeline of it: each part promises what it is to. Its sites
/// have the channels' other sides as partners, and what they ask at an end of a channel is what its machine's sites do.
pub fn pipelines_are_made()
    ensures made { (ir : Package) (p clock k : ℕ) (parts : ProcParts) → ArePut ir p clock k parts → let one = pipeline_nets parts in
        (v : Values) (run : Atom) (views : List ChannelView) → PartsDriven v run views parts → KeepsWords v parts.scheduled.channels one.proc one.nets →
        PipelineMade v run parts.scheduled.channels one.proc one.nets one.stage one.carried one.pipeline one.stages }
    ensures partners { (ir : Package) (p clock k : ℕ) (parts : ProcParts) → ArePut ir p clock k parts → let one = pipeline_nets parts in
        (v : Values) (run : Atom) (views : List ChannelView) → PartsDriven v run views parts → (ends : ℕ → ChannelNets) → ((c : ℕ) → ShowsView (ends c) (channel_view views c)) →
        AllPartnersMade one.proc one.nets ends one.pipeline 0 one.stages }
    ensures requests { (ir : Package) (p clock k : ℕ) (parts : ProcParts) → ArePut ir p clock k parts → let one = pipeline_nets parts in
        (v : Values) (run : Atom) (views : List ChannelView) → PartsDriven v run views parts → (chan : ℕ) (sends : Bool) →
        requests_at chan sends parts.made.nodes.sites parts.made.stages.handshakes.items ≡
        end_requests one.pipeline.proc.behavior.sites chan sends one.nets.sent 0 (all_sites one.stages) }
{
    crate::schedule::laws::scheduled_procs_are_pipelines();
    block_build::netlist::holding::verified_procs_can_be_pipelined();
    block_build::netlist::holding::the_layout_serves_procs();
    block_build::netlist::stages::stages_go_on();
    crate::signals::laws::made_nodes_show_values();
}

/// Its registers, which take the signals that are put for them, go on as the machine's do; and where they take what they are reset to,
/// the turn stands in the first stage, with the first state.
pub fn registers_go_on_as_they_are_set()
    ensures next { (ir : Package) (p clock k : ℕ) (parts : ProcParts) → ArePut ir p clock k parts → let one = pipeline_nets parts in
        (v next : Values) (run : Atom) (views : List ChannelView) → PartsDriven v run views parts → PartsDriven next run views parts →
        AreTaken v next k (next_nets parts.scheduled parts.layout parts.made parts.at parts.nums) →
        RegistersGoOn v next one.proc one.nets one.stage one.carried one.pipeline one.stages }
    ensures count { (ir : Package) (p clock k : ℕ) (parts : ProcParts) → ArePut ir p clock k parts →
        (v : Values) (run : Atom) (views : List ChannelView) → PartsDriven v run views parts →
        length (next_nets parts.scheduled parts.layout parts.made parts.at parts.nums) ≡ length (proc_registers parts.scheduled parts.layout.reads) }
    ensures reset { (ir : Package) (p clock k : ℕ) (parts : ProcParts) → ArePut ir p clock k parts → let one = pipeline_nets parts in
        (v next : Values) (run : Atom) (views : List ChannelView) → PartsDriven next run views parts →
        AreTaken v next k (resets_of (proc_registers parts.scheduled parts.layout.reads)) →
        AreReset next 0 one.stages × ShowsValue next (one.nets.shown 0 operand.State) one.pipeline.proc.opening × IsOfType (ty_of one.proc.state) one.pipeline.proc.opening }
{
    crate::schedule::laws::scheduled_procs_are_pipelines();
    block_build::netlist::holding::verified_procs_can_be_pipelined();
    block_build::netlist::holding::registers_carry_on();
    block_build::netlist::holding::the_layout_serves_procs();
    block_build::netlist::stages::stages_go_on();
    crate::signals::laws::made_nodes_show_values();
    ir_tree::rules::typed::procs_fit_their_network();
}
