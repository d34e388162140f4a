//! Laws of what a pipeline's registers hold, from cycle to cycle, each the contract of a function without a body.

ghost use Rattle.std.specs.Prelude.{◌≡◌, ◌<◌, ◌≤◌, ◌==◌, ℕ, suc, slice_get, Bool, true, false, not, is_some, List, [], map, length, Option, Some};
ghost use Rattle.xb_bits.specs.Word.{Word};
ghost use Rattle.net_core.specs.declared.net.Site.{Site};
ghost use Rattle.net_core.specs.Cuts.{words_sent, count_received};
ghost use Rattle.block_stage.specs.Fifo.Fifo.{next_word};
ghost use Rattle.xb_value.specs.declared.value.Value.{Value};
ghost use Rattle.xb_value.specs.Typing.{IsOfType};
ghost use Rattle.ir_tree.specs.declared.ir_type.IrType.{IrType};
ghost use Rattle.ir_tree.specs.declared.node.Node.{Node};
ghost use Rattle.ir_tree.specs.Types.{ty_of};
ghost use Rattle.ir_tree.specs.declared.node.Role.TheVariants as role;
ghost use Rattle.ir_tree.specs.Activations.{sent};
ghost use Rattle.ir_tree.specs.NodeValues.{role_of};
ghost use Rattle.ir_tree.specs.declared.package.Package.{Package};
ghost use Rattle.ir_tree.specs.Rules.Fitting.{type_in, types_behind};
ghost use Rattle.ir_tree.specs.Rules.Typed.Typed.{HaveTypes};
ghost use Rattle.ir_tree.specs.Rules.Verified.{IsVerified};
ghost use Rattle.ir_tree.specs.declared.node.Operand.{Operand};
ghost use Rattle.ir_tree.specs.declared.node.Operand.TheVariants as operand;
ghost use Rattle.ir_tree.specs.declared.package.Channel.{Channel};
ghost use Rattle.ir_tree.specs.declared.package.Proc.{Proc};
ghost use Rattle.vlog_tree.specs.declared.expression.Atom.{Atom};
ghost use Rattle.vlog_tree.specs.Value.{Values, bit, atom_value};
ghost use Rattle.block_stage.specs.Machine.Pipeline.{Pipeline};
ghost use Rattle.block_stage.specs.Machine.Cycle.{Ports, Registers, circuit, opened};
ghost use Rattle.block_stage.specs.Machine.Circuits.{cycle_by, asserts_by};
ghost use Rattle.block_build.specs.Netlist.Ends.{some_wires, some_net, word_wires, word_net, all_sites, end_requests};
ghost use Rattle.block_build.specs.Netlist.Wires.{AreWired};
ghost use Rattle.block_build.specs.Block.{Block, IsBlock};
ghost use Rattle.block_build.specs.Rows.{State, InputRow, HasReset, state_after, is_ready, offers};
ghost use Rattle.block_build.specs.Netlist.Blocks.{BlockNets, BlockRow, BlockNext, ChannelShown, rows_before};
ghost use Rattle.block_build.specs.Netlist.Stages.{StageNets, AreStages, AreHeld, ShowStages};
ghost use Rattle.block_build.specs.Netlist.Leaves.{ShowsValue, nets};
ghost use Rattle.block_build.specs.Netlist.Choices.{choice_wires};
ghost use Rattle.block_build.specs.Netlist.Layout.{is_carried, proc_readers};
ghost use Rattle.block_build.specs.declared.netlist.scopes.Scope.{Scope};
ghost use Rattle.block_build.specs.Netlist.Nodes.{site_index, predicate_of, IsEarlier, IsOnSignal, ReadEarlierNodes, HaveOperandTypes, NodeShows, ProcNets};
ghost use Rattle.block_build.specs.Netlist.Pure.{PureShows, IsScopeOf};
ghost use Rattle.block_build.specs.Netlist.Words.{on_signal, CarriesSent, ShowsReceived};
ghost use Rattle.block_build.specs.Netlist.Holding.{AreCarriedOn, CarriesOn, HasTypedValues, AllPortsShown, AreReset, PipelineMade, RegistersGoOn, PipelineHeld};

/// Where the registers of a proc's pipeline hold what its machine's do, and its sites find at their ports what the machine
/// finds, its wires show what the machine does in a cycle without reset, and its registers hold next what the machine's hold.
/// Values that are carried on, words that were received, the state: all that `control_is_the_machines` asks of the signals
/// that control reads.
pub fn registers_hold_the_machines()
    ensures read { (v : Values) (run : Atom) (channels : List Channel) (proc : Proc) (nets : ProcNets) (stage : Operand → ℕ) (carried : Operand → ℕ → Bool) (q : Pipeline) (stages : List StageNets) (c : Registers) (ports : Ports) →
        PipelineMade v run channels proc nets stage carried q stages → PipelineHeld v channels proc nets stage carried q stages c →
        AllPortsShown v proc nets q ports 0 stages → AreHeld v q c ports 0 stages }
    ensures now { (v : Values) (run : Atom) (channels : List Channel) (proc : Proc) (nets : ProcNets) (stage : Operand → ℕ) (carried : Operand → ℕ → Bool) (q : Pipeline) (stages : List StageNets) (c : Registers) (ports : Ports) →
        PipelineMade v run channels proc nets stage carried q stages → PipelineHeld v channels proc nets stage carried q stages c →
        AllPortsShown v proc nets q ports 0 stages → atom_value v run ≡ bit true → ShowStages v q c ports 0 stages }
    ensures next { (v next : Values) (run : Atom) (channels : List Channel) (proc : Proc) (nets : ProcNets) (stage : Operand → ℕ) (carried : Operand → ℕ → Bool) (q : Pipeline) (stages : List StageNets) (c : Registers) (ports : Ports) →
        PipelineMade v run channels proc nets stage carried q stages → atom_value v run ≡ bit true → PipelineHeld v channels proc nets stage carried q stages c →
        AllPortsShown v proc nets q ports 0 stages → RegistersGoOn v next proc nets stage carried q stages →
        PipelineHeld next channels proc nets stage carried q stages (cycle_by circuit q c ports) }
    ensures reset { (v : Values) (channels : List Channel) (proc : Proc) (nets : ProcNets) (stage : Operand → ℕ) (carried : Operand → ℕ → Bool) (q : Pipeline) (stages : List StageNets) →
        AreReset v 0 stages → ShowsValue v (nets.shown 0 operand.State) q.proc.opening → IsOfType (ty_of proc.state) q.proc.opening →
        PipelineHeld v channels proc nets stage carried q stages (opened q) }
{}

/// Registers that take what the wires of a choice carry go on with what is signalled where a stage moves, else with what they
/// hold.
pub fn registers_carry_on()
    ensures { (v next : Values) (k : ℕ) (moves : Atom) (ws : List ℕ) (source registers : List Atom) → AreWired v k (choice_wires moves ws source registers) →
        length source ≡ length ws → length registers ≡ length ws →
        map (atom_value next) registers ≡ map (atom_value v) (nets k (length ws)) →
        AreCarriedOn v next moves source registers }
{}

/// So what stands at the ends of its channels is what its machine asserts there in that cycle: whether a word is valid, and
/// which, where at most one site of the end is asserted; and whether it is ready for one. In reset it is neither.
pub fn ends_show_the_machines()
    ensures valid { (v : Values) (run : Atom) (channels : List Channel) (proc : Proc) (nets : ProcNets) (stage : Operand → ℕ) (carried : Operand → ℕ → Bool) (q : Pipeline) (stages : List StageNets) (c : Registers) (ports : Ports) →
        PipelineMade v run channels proc nets stage carried q stages → PipelineHeld v channels proc nets stage carried q stages c →
        AllPortsShown v proc nets q ports 0 stages → atom_value v run ≡ bit true →
        (chan k : ℕ) (zeros : Atom) → let requests = end_requests q.proc.behavior.sites chan true nets.sent 0 (all_sites stages) in
        AreWired v k (some_wires k zeros requests) → atom_value v zeros ≡ bit false →
        atom_value v (some_net k zeros requests) ≡ bit (is_some (next_word (words_sent q.proc.behavior.sites chan (asserts_by circuit q c ports)))) }
    ensures word { (v : Values) (run : Atom) (channels : List Channel) (proc : Proc) (nets : ProcNets) (stage : Operand → ℕ) (carried : Operand → ℕ → Bool) (q : Pipeline) (stages : List StageNets) (c : Registers) (ports : Ports) →
        PipelineMade v run channels proc nets stage carried q stages → PipelineHeld v channels proc nets stage carried q stages c →
        AllPortsShown v proc nets q ports 0 stages → atom_value v run ≡ bit true →
        (chan width k : ℕ) (zeros : Atom) → let requests = end_requests q.proc.behavior.sites chan true nets.sent 0 (all_sites stages) in
        AreWired v k (word_wires width k zeros requests) → length (words_sent q.proc.behavior.sites chan (asserts_by circuit q c ports)) ≤ 1 →
        (w : Word) → next_word (words_sent q.proc.behavior.sites chan (asserts_by circuit q c ports)) ≡ Some w →
        atom_value v (word_net k zeros requests) ≡ w }
    ensures ready { (v : Values) (run : Atom) (channels : List Channel) (proc : Proc) (nets : ProcNets) (stage : Operand → ℕ) (carried : Operand → ℕ → Bool) (q : Pipeline) (stages : List StageNets) (c : Registers) (ports : Ports) →
        PipelineMade v run channels proc nets stage carried q stages → PipelineHeld v channels proc nets stage carried q stages c →
        AllPortsShown v proc nets q ports 0 stages → atom_value v run ≡ bit true →
        (chan k : ℕ) (zeros : Atom) → let requests = end_requests q.proc.behavior.sites chan false nets.sent 0 (all_sites stages) in
        AreWired v k (some_wires k zeros requests) → atom_value v zeros ≡ bit false →
        atom_value v (some_net k zeros requests) ≡ bit (not (count_received q.proc.behavior.sites chan (asserts_by circuit q c ports) == 0)) }
    ensures reset { (v : Values) (run : Atom) (stages : List StageNets) → AreStages v run stages → atom_value v run ≡ bit false →
        (sites : List Site) (chan : ℕ) (sends : Bool) (sent : ℕ → Atom) (k : ℕ) (zeros : Atom) → let requests = end_requests sites chan sends sent 0 (all_sites stages) in
        AreWired v k (some_wires k zeros requests) → atom_value v zeros ≡ bit false → atom_value v (some_net k zeros requests) ≡ bit false }
{}

/// A block's netlist in the rows of a run: from the first row behind a reset on, whatever stood in its registers before, it
/// says of each channel whether its reader is ready for a word, whether its writer has one valid and which, as the block does.
/// At an input that is what the module drives at the port, as `is_ready`, at an output as `offers`.
pub fn netlists_drive_what_their_blocks_do()
    ensures { (block : Block) → IsBlock block → (power : State) (nets : BlockNets) (run : Atom) (row : ℕ → InputRow) (v : ℕ → Values) (n : ℕ) →
        ((k : ℕ) → k ≤ n → BlockRow (v k) run block nets (row k)) → ((k : ℕ) → k < n → BlockNext (v k) (v (suc k)) block nets (row k).rst) →
        HasReset (rows_before row n) → (c : ℕ) →
        let state = state_after block power (rows_before row n) in
        ChannelShown (v n) (nets.ends c) (is_ready block state (row n) c) (offers block state (row n) c) }
{}

/// The layout serves each stage of a proc with what its nodes read of earlier ones, and the next state where it is read; and
/// it has copies of the state and of nodes alone.
pub fn the_layout_serves_procs()
    ensures { (proc : Proc) (last : ℕ) (stage : Operand → ℕ) → ReadEarlierNodes proc.nodes → IsEarlier (length proc.nodes) proc.next →
        CarriesOn proc last stage (is_carried stage (proc_readers stage proc last)) }
{}

/// Where the nodes have values of their types, operands have, also those that aren't there.
pub fn operands_have_types()
    ensures { (state : IrType) (nodes : List Node) (s : Value) (values : List Value) → IsOfType (ty_of state) s → HaveTypes nodes values →
        HaveOperandTypes state nodes s values }
{}

/// Each proc of a verified package is one of which a pipeline's netlist can be made: its nodes read nodes before them alone, its
/// next state is the state or a node, of the state's type, and whatever words come, all operands have values of their types.
pub fn verified_procs_can_be_pipelined()
    ensures earlier { (ir : Package) (p : ℕ) (proc : Proc) → IsVerified ir → slice_get ir.procs p ≡ Some proc → ReadEarlierNodes proc.nodes }
    ensures next { (ir : Package) (p : ℕ) (proc : Proc) → IsVerified ir → slice_get ir.procs p ≡ Some proc → IsEarlier (length proc.nodes) proc.next }
    ensures next_type { (ir : Package) (p : ℕ) (proc : Proc) → IsVerified ir → slice_get ir.procs p ≡ Some proc →
        type_in (types_behind proc.state proc.nodes) proc.next ≡ proc.state }
    ensures types { (ir : Package) (p : ℕ) (proc : Proc) → IsVerified ir → slice_get ir.procs p ≡ Some proc → HasTypedValues ir.channels proc }
{
    ir_tree::rules::typed::nodes_have_types();
}

/// The nodes of a verified proc show their values. A node that is no site does where its signals show what is made of what it
/// reads; a receive where they show what is in the word that its site has; a send, whose value is a token, has none. A site's
/// signal says whether it is on, and the word that a send carries is that of its second operand.
pub fn verified_nodes_show_values()
    ensures pure { (ir : Package) (p : ℕ) (proc : Proc) → IsVerified ir → slice_get ir.procs p ≡ Some proc → (k : ℕ) (n : Node) → slice_get proc.nodes k ≡ Some n →
        (v : Values) (scope : Scope) (shown : Operand → List Atom) → IsScopeOf scope ir.channels proc k shown → role_of n ≡ role.Pure → (has : ℕ → ℕ) →
        PureShows v scope n (shown (operand.Node k)) → NodeShows v ir.channels proc.state proc.nodes has shown k n }
    ensures received { (ir : Package) (p : ℕ) (proc : Proc) → IsVerified ir → slice_get ir.procs p ≡ Some proc → (k : ℕ) (n : Node) → slice_get proc.nodes k ≡ Some n →
        (v : Values) (scope : Scope) (shown : Operand → List Atom) → IsScopeOf scope ir.channels proc k shown → (predicate : Option Operand) (c : ℕ) → role_of n ≡ role.Receive predicate c → (has : ℕ → ℕ) →
        ShowsReceived v ir.channels c (has (site_index proc.nodes k)) (on_signal scope predicate) (shown (operand.Node k)) → NodeShows v ir.channels proc.state proc.nodes has shown k n }
    ensures token { (ir : Package) (proc : Proc) (k : ℕ) (n : Node) (v : Values) (shown : Operand → List Atom) (predicate : Option Operand) (c : ℕ) → role_of n ≡ role.Send predicate c → (has : ℕ → ℕ) →
        shown (operand.Node k) ≡ [] → NodeShows v ir.channels proc.state proc.nodes has shown k n }
    ensures on { (ir : Package) (p : ℕ) (proc : Proc) → IsVerified ir → slice_get ir.procs p ≡ Some proc → (k : ℕ) (n : Node) → slice_get proc.nodes k ≡ Some n →
        (v : Values) (scope : Scope) (shown : Operand → List Atom) → IsScopeOf scope ir.channels proc k shown → (on : Atom) → on ≡ on_signal scope (predicate_of (role_of n)) →
        IsOnSignal v proc.state proc.nodes shown (predicate_of (role_of n)) on }
    ensures carried { (ir : Package) (p : ℕ) (proc : Proc) → IsVerified ir → slice_get ir.procs p ≡ Some proc → (k : ℕ) (n : Node) → slice_get proc.nodes k ≡ Some n →
        (v : Values) (scope : Scope) (shown : Operand → List Atom) → IsScopeOf scope ir.channels proc k shown → (predicate : Option Operand) (c : ℕ) → role_of n ≡ role.Send predicate c →
        (word : Atom) → CarriesSent v scope n.operands word → (o : Operand) × (slice_get n.operands 1 ≡ Some o) ×
        ((value : Value) → IsOfType (ty_of (type_in (types_behind proc.state proc.nodes) o)) value → ShowsValue v (shown o) value → atom_value v word ≡ sent value) }
{}
