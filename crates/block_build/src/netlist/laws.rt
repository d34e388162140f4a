//! Laws of netlists, each the contract of a function without a body.

ghost use Rattle.std.specs.Prelude.{◌≡◌, ◌<◌, ◌≤◌, ◌+◌, ◌-◌, ◌++◌, ℕ, suc, Bool, true, false, List, length, slice_get, Option, Some, None};
ghost use Rattle.xb_bits.specs.Word.{Word};
ghost use Rattle.xb_value.specs.declared.value.Value.{Value};
ghost use Rattle.net_core.specs.declared.net.Site.{Site};
ghost use Rattle.net_core.specs.Behavior.{Behavior, Turn, Receive, chan_at};
ghost use Rattle.vlog_tree.specs.declared.expression.Atom.{Atom};
ghost use Rattle.vlog_tree.specs.Forms.{Widths};
ghost use Rattle.vlog_tree.specs.declared.module.Assignment.{Assignment};
ghost use Rattle.vlog_tree.specs.declared.module.Set.{Set};
ghost use Rattle.vlog_tree.specs.declared.module.VModule.{VModule};
ghost use Rattle.vlog_tree.specs.Meaning.{IsNow, taken_by};
ghost use Rattle.vlog_tree.specs.Value.{Values, bit, atom_value};
ghost use Rattle.block_stage.specs.Machine.Pipeline.{Pipeline, IsPipeline, first};
ghost use Rattle.block_stage.specs.Machine.Cycle.{Ports, Registers, circuit, step_of, brought, walk_by};
ghost use Rattle.block_stage.specs.Machine.Circuits.{stage_by, cycle_by};
ghost use Rattle.block_build.specs.Netlist.Wires.{Wire, AreWired, ReadEarlier, assigned, carried};
ghost use Rattle.block_build.specs.Netlist.Handshakes.{SiteNets, site_wires, go_net};
ghost use Rattle.block_build.specs.Netlist.Order.{IsBelow, IsBit, AreSized, WidthsFit, HaveSmallLiterals, CarriesWord, AreSound, SiteReads};
ghost use Rattle.block_build.specs.Netlist.Walks.{goes_at, AreRead};
ghost use Rattle.ir_tree.specs.declared.node.Operand.{Operand};
ghost use Rattle.block_stage.specs.Fifo.Row.{Row, row_after};
ghost use Rattle.block_build.specs.Netlist.Fifos.{FifoNets, IsFifo, FifoHeld, CountShown, slot_net};
ghost use Rattle.block_build.specs.Netlist.Ends.{RequestNets, RequestValues, RequestsAre, some_wires, some_net, some_asserted, word_wires, word_net, asserted_word};
ghost use Rattle.block_build.specs.Netlist.Layout.{StageReader, last_read, is_carried, count_copies, ServesAll};
ghost use Rattle.ir_tree.specs.declared.package.Channel.{Channel};
ghost use Rattle.ir_tree.specs.declared.package.Proc.{Proc};
ghost use Rattle.ir_tree.specs.Activations.{activation};
ghost use Rattle.block_build.specs.Netlist.Procs.{turns_by_words, gathered};
ghost use Rattle.block_build.specs.Netlist.Turns.{DoesTurns, AreTurns};
ghost use Rattle.block_build.specs.Netlist.Receives.{ReceiveNets, ReceiveWired, WordsHeld, received_by};
ghost use Rattle.block_build.specs.Netlist.Stages.{StageNets, passed, move_net, move_wires, keep_wires, done_wires, IsControl, AreHeld, AreAllDoneBits, AreStages, ShowStages, ShowReset, ShowNext};

/// Wires in an order in which each reads only ports, registers and earlier wires carry what drives them, and nothing else
/// does: the values that a module has for its wires, of which no order of evaluation is spoken, are those of taking the wires
/// one after another.
pub fn wires_carry_what_drives_them()
    ensures driven { (n : ℕ) (wires : List Wire) (values : Values) → ReadEarlier n wires → AreWired (carried n wires values) n wires }
    ensures only { (n : ℕ) (wires : List Wire) (values : Values) → AreWired values n wires → carried n wires values ≡ values }
{}

/// In a module whose assignments begin with a netlist's wires these carry what drives them in every cycle; and each register
/// takes the value of its last set, or keeps what it holds where it has none.
pub fn modules_carry_their_netlists()
    ensures wires { (m : VModule) (n : ℕ) (wires : List Wire) (outputs : List Assignment) (held given values : Values) → m.assignments ≡ assigned n wires ++ outputs →
        IsNow m held given values → AreWired values n wires }
    ensures taken { (sets : List Set) (values held : Values) (i : ℕ) (set : Set) → slice_get sets i ≡ Some set →
        ((k : ℕ) (other : Set) → i < k → slice_get sets k ≡ Some other → other.target.0 ≡ set.target.0 → ⊥) →
        taken_by sets values held set.target.0 ≡ atom_value values set.value }
    ensures kept { (sets : List Set) (values held : Values) (r : ℕ) → ((k : ℕ) (other : Set) → slice_get sets k ≡ Some other → other.target.0 ≡ r → ⊥) →
        taken_by sets values held r ≡ held r }
{}

/// Wires that fit, with literals of at most 128 bits, carry numbers of their widths where the ports and registers before them
/// do.
pub fn wires_carry_words()
    ensures { (widths : Widths) (values : Values) (wires : List Wire) (n : ℕ) → AreSized widths n wires → ReadEarlier n wires → WidthsFit widths wires → HaveSmallLiterals wires →
        ((s : ℕ) → s < n → CarriesWord widths values s) → AreWired values n wires →
        (s : ℕ) → s < n + length wires → CarriesWord widths values s }
{}

/// The wires of a pipeline's stages show what the machine does in a cycle without reset, where the registers hold what the
/// machine's do, and the signals that say which sites are on and whether their partners are there are right as far as
/// each activation comes: which sites are asserted, which go, which stages move, and the bits that registers hold next.
pub fn control_is_the_machines()
    ensures now { (v : Values) (run : Atom) (q : Pipeline) (stages : List StageNets) (c : Registers) (ports : Ports) → IsControl v run q stages →
        atom_value v run ≡ bit true → AreHeld v q c ports 0 stages →
        ShowStages v q c ports 0 stages }
    ensures next { (v : Values) (run : Atom) (q : Pipeline) → IsPipeline q → (stages : List StageNets) (c : Registers) (ports : Ports) → IsControl v run q stages →
        atom_value v run ≡ bit true → AreHeld v q c ports 0 stages → AreAllDoneBits v q c 0 stages →
        ShowNext v q (cycle_by circuit q c ports) 0 stages }
{}

/// In reset no site is asserted and none goes, whatever stands in the registers.
pub fn nothing_is_asserted_in_reset()
    ensures { (v : Values) (run : Atom) (stages : List StageNets) → AreStages v run stages → atom_value v run ≡ bit false → ShowReset v stages }
{}

/// The words of a receive, whose site's wires show the machine's: where an activation goes past it, it has the word that the
/// machine receives there; and where it is done in the next cycle, its register holds the word that the machine keeps.
pub fn words_are_the_machines()
    ensures received { (v : Values) (c : Registers) (ports : Ports) (chan i : ℕ) (receive : ReceiveNets) → ReceiveWired v receive →
        atom_value v receive.site.done ≡ bit (c.done i) → WordsHeld v c ports chan i receive →
        (room : Bool) (w : Word) → received_by (step_of Receive (c.done i) (c.kept i) (ports.valid_word chan) room) ≡ Some w →
        v receive.has ≡ w }
    ensures kept { (v : Values) (q : Pipeline) → IsPipeline q → (c : Registers) (ports : Ports) (j i : ℕ) (site : Site) (receive : ReceiveNets) →
        first q j ≤ i → i < first q (suc j) → slice_get q.proc.behavior.sites i ≡ Some site → site.sends ≡ false →
        ReceiveWired v receive → WordsHeld v c ports (chan_at q.proc.behavior.sites i) i receive →
        v (go_net receive.site) ≡ bit (goes_at i (stage_by circuit q c ports j)) →
        (cycle_by circuit q c ports).done i ≡ true → v receive.keeps ≡ (cycle_by circuit q c ports).kept i }
{}

/// Where a stage's signals say, of each of its sites, what the proc does there by the words that stand on the signals of
/// receives, they are right as far as an activation comes. So a netlist's nodes need only be right by the words on its
/// signals, wherever the activation stalls.
pub fn signals_are_right_as_far_as_an_activation_comes()
    ensures { (v : Values) (b : Behavior) (turns : ℕ → Turn) (words : ℕ → Word) (done : ℕ → Bool) (kept : ℕ → Word) (ports : Ports) (s : Value) (sites : List SiteNets) (got : List Word) (i : ℕ) →
        AreTurns v b.sites turns words done kept ports i sites → DoesTurns b s turns words got i (length sites) →
        AreRead v b done kept ports s got i sites }
{}

/// An IR proc does at its sites what its nodes say by any words for them, where it received just those of the sites before
/// that receive by these words.
pub fn procs_do_what_their_words_say()
    ensures { (channels : List Channel) (proc : Proc) (s : Value) (words : ℕ → Word) (i n : ℕ) →
        let turns = turns_by_words channels proc.nodes s words in
        DoesTurns (activation channels proc) s turns words (gathered turns words i) i n }
{}

/// Each part of a pipeline's control is wires of one bit that read bits with smaller numbers alone, where its inputs are
/// such bits: a site's wires, those that say that a stage moves, and those by which full, turn and done bits go on.
pub fn control_wires_are_sound()
    ensures site { (widths : Widths) (n : ℕ) (ready : Atom) (site : SiteNets) → AreSized widths n (site_wires n ready site) →
        SiteReads widths n ready site → AreSound widths n (site_wires n ready site) }
    ensures moving { (widths : Widths) (stage behind : StageNets) (more : List StageNets) → AreSized widths stage.moving (move_wires stage behind more) →
        IsBelow stage.moving behind.full → IsBit widths behind.full →
        IsBelow stage.moving (move_net behind more) → IsBit widths (move_net behind more) →
        IsBelow stage.moving (passed stage) → IsBit widths (passed stage) →
        AreSound widths stage.moving (move_wires stage behind more) }
    ensures keeping { (widths : Widths) (n : ℕ) (comes full moves : Atom) → AreSized widths n (keep_wires n comes full moves) →
        IsBelow n comes → IsBit widths comes → IsBelow n full → IsBit widths full → IsBelow n moves → IsBit widths moves →
        AreSound widths n (keep_wires n comes full moves) }
    ensures being_done { (widths : Widths) (n : ℕ) (site : SiteNets) (moves : Atom) → AreSized widths n (done_wires n site moves) →
        IsBelow n site.done → IsBit widths site.done → go_net site < n → widths (go_net site) ≡ 1 → IsBelow n moves → IsBit widths moves →
        AreSound widths n (done_wires n site moves) }
{}

/// A stage of an IR proc's pipeline, by the words on its receives' signals and those kept of earlier stages. Where the
/// activation came with what those gathered, and the signals of its sites say what the proc's nodes do by these words, they
/// are right as far as it comes; where it passes it has gathered the words of this stage too; and words that agree at the sites
/// before an index gather the same up to there.
pub fn stages_go_by_the_words_on_their_signals()
    ensures read { (v : Values) (q : Pipeline) (channels : List Channel) (proc : Proc) → activation channels proc ≡ q.proc.behavior →
        (c : Registers) (ports : Ports) (j : ℕ) (words : ℕ → Word) (sites : List SiteNets) →
        let stage_entry = brought c j in
        let turns = turns_by_words channels proc.nodes stage_entry.state words in
        stage_entry.got ≡ gathered turns words (first q j) →
        AreTurns v q.proc.behavior.sites turns words c.done c.kept ports (first q j) sites →
        AreRead v q.proc.behavior c.done c.kept ports stage_entry.state stage_entry.got (first q j) sites }
    ensures gathered { (v : Values) (q : Pipeline) (channels : List Channel) (proc : Proc) → activation channels proc ≡ q.proc.behavior →
        (c : Registers) (ports : Ports) (j : ℕ) (words : ℕ → Word) (sites : List SiteNets) →
        let stage_entry = brought c j in
        let turns = turns_by_words channels proc.nodes stage_entry.state words in
        let walk = walk_by circuit q.proc.behavior c.done c.kept ports stage_entry.state stage_entry.got (first q j) (length sites) in
        stage_entry.got ≡ gathered turns words (first q j) →
        AreTurns v q.proc.behavior.sites turns words c.done c.kept ports (first q j) sites →
        walk.stall ≡ None → walk.got ≡ gathered turns words (first q j + length sites) }
    ensures agree { (channels : List Channel) (proc : Proc) (s : Value) (words others : ℕ → Word) (i : ℕ) → ((k : ℕ) → k < i → words k ≡ others k) →
        gathered (turns_by_words channels proc.nodes s words) words i ≡ gathered (turns_by_words channels proc.nodes s others) others i }
{}

/// The copies of values that stages carry on serve each stage with what it reads of earlier ones; and whatever does so has them
/// all. Of each value there is one copy for each stage behind its own up to the last that reads it.
pub fn the_layout_is_the_least_that_serves_all()
    ensures serves { (stage : Operand → ℕ) (readers : List StageReader) → ServesAll stage readers (is_carried stage readers) }
    ensures least { (stage : Operand → ℕ) (readers : List StageReader) (carried_over : Operand → ℕ → Bool) → ServesAll stage readers carried_over →
        (o : Operand) (j : ℕ) → is_carried stage readers o j ≡ true → carried_over o j ≡ true }
    ensures count { (stage : Operand → ℕ) (readers : List StageReader) (o : Operand) (stages : ℕ) → last_read readers o < stages →
        count_copies (is_carried stage readers) o stages ≡ last_read readers o - stage o }
{}

/// The wires of a FIFO are its row's: whether a word is there, whether there is room, and what the count and the slots hold
/// next.
pub fn fifo_wires_are_the_rows()
    ensures count { (v : Values) (fifo : FifoNets) (row : Row Word) (asserted : Bool) (valid_data : Option Word) → IsFifo v fifo → FifoHeld v fifo row valid_data →
        atom_value v fifo.asserted ≡ bit asserted → CountShown v fifo row asserted valid_data }
    ensures slots { (v : Values) (fifo : FifoNets) (row : Row Word) (asserted : Bool) (valid_data : Option Word) → IsFifo v fifo → FifoHeld v fifo row valid_data →
        atom_value v fifo.asserted ≡ bit asserted → (x : ℕ) → x < fifo.depth → v (slot_net fifo x) ≡ (row_after fifo.depth row asserted valid_data).slot x }
{}

/// The wires of a channel's end say whether one of its sites is asserted, and have the word of the last that is.
pub fn ends_say_what_is_asked()
    ensures some { (v : Values) (asserts : List RequestNets) (said : List RequestValues) (k : ℕ) (so_far : Atom) (t : Bool) → AreWired v k (some_wires k so_far asserts) →
        atom_value v so_far ≡ bit t → RequestsAre v asserts said → atom_value v (some_net k so_far asserts) ≡ bit (some_asserted t said) }
    ensures word { (v : Values) (width : ℕ) (asserts : List RequestNets) (said : List RequestValues) (k : ℕ) (so_far : Atom) (w : Word) → AreWired v k (word_wires width k so_far asserts) →
        atom_value v so_far ≡ w → RequestsAre v asserts said → atom_value v (word_net k so_far asserts) ≡ asserted_word w said }
{}
