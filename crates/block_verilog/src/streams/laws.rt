//! The laws of modules in rows, each the contract of a function that calls the laws below it. They speak of any rows of a
//! simulation, in each of which the outside does what it likes.

ghost use Rattle.std.specs.Prelude.{◌≡◌, ◌≤◌, ◌<◌, ◌+◌, ◌*◌, ◌-◌, ◌^◌, nat_lt, ℕ, true, false, List, [], ◌∷◌, ◌++◌, length, map, get_or, slice_get, Some, Ok};
ghost use Rattle.xb_bits.specs.Word.{Word};
ghost use Rattle.ir_tree.specs.declared.package.Channel.{Channel};
ghost use Rattle.ir_tree.specs.declared.package.Ends.TheVariants.{Input, Output};
ghost use Rattle.ir_tree.specs.declared.package.Package.{Package};
ghost use Rattle.ir_tree.specs.Networks.{kind_of};
ghost use Rattle.net_core.specs.declared.net.Kind.TheVariants.{Inner};
ghost use Rattle.ir_tree.specs.declared.package.Proc.{Proc};
ghost use Rattle.ir_tree.specs.Rules.Verified.{IsVerified};
ghost use Rattle.net_core.specs.Cuts.{most_events, final_cut, unbounded_cut};
ghost use Rattle.pipe_schedule.specs.declared.schedule.Demands.{Demands};
ghost use Rattle.pipe_schedule.specs.declared.schedule.Schedule.{Schedule};
ghost use Rattle.pipe_schedule.specs.Packages.{AreSchedules};
ghost use Rattle.pipe_schedule.specs.Legal.{stage_of, depth_of, interval_of};
ghost use Rattle.pipe_schedule.specs.Timed.{timed_proc};
ghost use Rattle.vlog_tree.specs.declared.module.Direction.TheVariants as direction;
ghost use Rattle.vlog_tree.specs.declared.module.VModule.{VModule};
ghost use Rattle.vlog_tree.specs.declared.row.Drive.TheVariants.{Ready};
ghost use Rattle.vlog_tree.specs.declared.row.Outs.{Outs};
ghost use Rattle.vlog_tree.specs.declared.row.Row.{Row};
ghost use Rattle.vlog_tree.specs.declared.row.Shown.TheVariants as shown;
ghost use Rattle.vlog_tree.specs.Rows.{Runs};
ghost use Rattle.vlog_tree.specs.Signals.{channels_of, Channel as Port};
ghost use Rattle.vlog_tree.specs.Value.{Values};
ghost use Rattle.vlog_tree.specs.WellFormed.{CanRun};
ghost use Rattle.cycle_sim.specs.Cycles.CycleText.{cycle_text};
ghost use Rattle.cycle_sim.specs.Cycles.Simulated.{IsSimulated};
ghost use Rattle.cycle_sim.specs.declared.rows.rows.Repeated.{Repeated};
ghost use Rattle.cycle_sim.specs.Rows.RowFile.{Reads, all_rows};
ghost use Rattle.block_verilog.specs.Widths.{AreInputRows};
ghost use Rattle.vlog_text.specs.Reader.Given.{GivesModule};
ghost use Rattle.block_verilog.specs.Texts.{IsVerilogOf, stages_of};
ghost use Rattle.block_verilog.specs.Modules.{IsModuleOf, AreScheduled};
ghost use Rattle.block_verilog.specs.Streams.Streams.{IsHardwareOf, SomeResets, rows_since, place_of, words_moved, package_run, MovesItsWords};
ghost use Rattle.block_verilog.specs.Streams.Steadily.{IsOnlySend, NoneIsInner, AreSteady};

/// The module that is built of a verified package with its schedules is one that the laws speak of.
pub fn built_modules_are_hardware()
    ensures { (m : VModule) (ir : Package) (clock : ℕ) (schedules : List Schedule) (depths : List ℕ) → IsVerified ir → AreScheduled clock ir.procs schedules →
        let stages = map (λ (schedule : Schedule). schedule.stage) schedules in
        IsModuleOf m ir stages depths → IsHardwareOf m ir stages depths }
{}

/// So is the module as which the Verilog text of the package reads that is printed of it.
pub fn printed_texts_read_as_hardware()
    ensures { (ir : Package) (demands : Demands) (schedules : List Schedule) (depths text : List ℕ) (m : VModule) → IsVerified ir → AreSchedules ir.procs demands schedules →
        IsVerilogOf ir schedules depths text → length text < 2 ^ 32 → GivesModule text (Ok m) → IsHardwareOf m ir (stages_of schedules) depths }
{
    vlog_text::reader::laws::one_module();
}

/// Its channels are the package's outer ones, in their order and with their names.
pub fn modules_have_the_packages_channels()
    ensures inputs { (m : VModule) (ir : Package) (schedules : List (List ℕ)) (depths : List ℕ) → IsModuleOf m ir schedules depths →
        (c : ℕ) (channel : Channel) → slice_get ir.channels c ≡ Some channel → channel.ends ≡ Input →
        (own : Port) × (slice_get (channels_of m) (place_of ir.channels c) ≡ Some own) × (own.direction ≡ direction.Input) × (own.name ≡ channel.name) }
    ensures outputs { (m : VModule) (ir : Package) (schedules : List (List ℕ)) (depths : List ℕ) → IsModuleOf m ir schedules depths →
        (c : ℕ) (channel : Channel) → slice_get ir.channels c ≡ Some channel → channel.ends ≡ Output →
        (own : Port) × (slice_get (channels_of m) (place_of ir.channels c) ≡ Some own) × (own.direction ≡ direction.Output) × (own.name ≡ channel.name) }
{}

/// Whatever the outside does in each row: the words that went through the module's channels since the last reset, as a
/// simulation counts them, are prefixes of those that the package's network sends, without a bound on its channels, over
/// what the inputs received. Each proc makes as many activations as there were rows, or more.
pub fn modules_move_the_networks_words()
    ensures { (m : VModule) (ir : Package) (schedules : List (List ℕ)) (depths : List ℕ) → IsHardwareOf m ir schedules depths →
        (rows : List Row) (outs : List Outs) (held : Values) → AreInputRows m rows → Runs m rows outs held → SomeResets rows →
        (activations : ℕ) (deep : List ℕ) → length (rows_since [] rows) ≤ activations →
        MovesItsWords ir activations deep (words_moved m ir.channels rows outs) }
{
    crate::schedule::laws::scheduled_packages_are_blocks();
    block_build::laws::words_move_where_both_sides_are_ready();
    block_build::laws::block_words_are_the_networks();
}

/// A run of a package whose inner channels are deep enough is the one without a bound: it comes to the same cut, of which its
/// streams and states are told.
pub fn deep_runs_have_no_bound()
    ensures { (ir : Package) (inputs : List (List Word)) (activations : ℕ) (depths : List ℕ) → let run = package_run ir inputs activations depths in
        ((c : ℕ) (channel : Channel) → slice_get ir.channels c ≡ Some channel → kind_of channel.ends ≡ Inner → most_events run ≤ get_or depths c 0) →
        final_cut run ≡ unbounded_cut run }
{}

/// The rows that `sim` reads of a file for a module are such as the laws speak of.
pub fn rows_of_files_are_input_rows()
    ensures { (m : VModule) (file : List ℕ) (rows : List Repeated) → CanRun m → Reads m file (Ok rows) → AreInputRows m (all_rows rows) }
{
    cycle_sim::rows::laws::rows_fit();
}

/// So the text that `sim` writes of the module over the rows of a file tells, in its lines `moved`, prefixes of the words that the
/// package's network sends, and the words that it receives.
pub fn simulations_show_the_networks_words()
    ensures { (m : VModule) (ir : Package) (schedules : List (List ℕ)) (depths : List ℕ) → IsHardwareOf m ir schedules depths →
        (file text : List ℕ) (repeated : List Repeated) → Reads m file (Ok repeated) → let rows = all_rows repeated in
        IsSimulated m rows text → SomeResets rows →
        (outs : List Outs) × (text ≡ cycle_text m rows outs) × ((activations : ℕ) (deep : List ℕ) → length (rows_since [] rows) ≤ activations →
        MovesItsWords ir activations deep (words_moved m ir.channels rows outs)) }
{
    rows_of_files_are_input_rows();
    modules_move_the_networks_words();
}

/// A word that is offered at an output and not taken is offered unchanged in the next row, unless that resets.
pub fn offered_words_stand()
    ensures { (m : VModule) (ir : Package) (schedules : List (List ℕ)) (depths : List ℕ) → IsHardwareOf m ir schedules depths →
        (rows : List Row) (row next : Row) (outs : List Outs) (now later : Outs) (held : Values) → AreInputRows m (rows ++ row ∷ next ∷ []) →
        Runs m (rows ++ row ∷ next ∷ []) (outs ++ now ∷ later ∷ []) held → SomeResets (rows ++ row ∷ next ∷ []) → next.reset ≡ false →
        (c : ℕ) (channel : Channel) (w : Word) → slice_get ir.channels c ≡ Some channel → channel.ends ≡ Output →
        let at = place_of ir.channels c in
        slice_get row.channels at ≡ Some (Ready false) → slice_get now.channels at ≡ Some (shown.Output w true) →
        slice_get later.channels at ≡ Some (shown.Output w true) }
{
    crate::schedule::laws::scheduled_packages_are_blocks();
    block_build::laws::offers_stand();
}

/// In each row that resets, the first one too, the module drives 0 at the `rdy` of each input and the `vld` of each output.
pub fn reset_rows_drive_nothing()
    ensures inputs { (m : VModule) (ir : Package) (schedules : List (List ℕ)) (depths : List ℕ) → IsModuleOf m ir schedules depths →
        (rows : List Row) (row : Row) (outs : List Outs) (now : Outs) (held : Values) → AreInputRows m (rows ++ row ∷ []) →
        Runs m (rows ++ row ∷ []) (outs ++ now ∷ []) held → row.reset ≡ true →
        (c : ℕ) (channel : Channel) → slice_get ir.channels c ≡ Some channel → channel.ends ≡ Input →
        slice_get now.channels (place_of ir.channels c) ≡ Some (shown.Input false) }
    ensures outputs { (m : VModule) (ir : Package) (schedules : List (List ℕ)) (depths : List ℕ) → IsModuleOf m ir schedules depths →
        (rows : List Row) (row : Row) (outs : List Outs) (now : Outs) (held : Values) → AreInputRows m (rows ++ row ∷ []) →
        Runs m (rows ++ row ∷ []) (outs ++ now ∷ []) held → row.reset ≡ true →
        (c : ℕ) (channel : Channel) → slice_get ir.channels c ≡ Some channel → channel.ends ≡ Output →
        (w : Word) × (slice_get now.channels (place_of ir.channels c) ≡ Some (shown.Output w false)) }
{}

/// Where there is no inner channel, and in each row since the last reset every input is offered a word and every output is
/// ready: where a proc has one send on a channel, without a predicate, word `k` moves exactly in row `k * interval + s` since
/// the reset, from 0 on. `s` is the send's stage, which is one of the proc's. So with interval 1 a word moves in each row from
/// row `s` on.
pub fn always_fed_words_move_in_their_rows()
    ensures each { (m : VModule) (ir : Package) (schedules : List (List ℕ)) (depths : List ℕ) → IsHardwareOf m ir schedules depths → NoneIsInner ir.channels →
        (rows : List Row) (outs : List Outs) (held : Values) → AreInputRows m rows → Runs m rows outs held → SomeResets rows → AreSteady (rows_since [] rows) →
        (p i c : ℕ) (proc : Proc) (stages : List ℕ) → slice_get ir.procs p ≡ Some proc → slice_get schedules p ≡ Some stages → IsOnlySend proc i c →
        (k : ℕ) → nat_lt k (length (words_moved m ir.channels rows outs c)) ≡ nat_lt (k * interval_of (timed_proc proc) stages + stage_of stages i) (length (rows_since [] rows)) }
    ensures all { (m : VModule) (ir : Package) (schedules : List (List ℕ)) (depths : List ℕ) → IsHardwareOf m ir schedules depths → NoneIsInner ir.channels →
        (rows : List Row) (outs : List Outs) (held : Values) → AreInputRows m rows → Runs m rows outs held → SomeResets rows → AreSteady (rows_since [] rows) →
        (p i c : ℕ) (proc : Proc) (stages : List ℕ) → slice_get ir.procs p ≡ Some proc → slice_get schedules p ≡ Some stages → IsOnlySend proc i c →
        interval_of (timed_proc proc) stages ≡ 1 → length (words_moved m ir.channels rows outs c) ≡ length (rows_since [] rows) - stage_of stages i }
    ensures stage { (stages : List ℕ) (i : ℕ) → stage_of stages i < depth_of stages }
{
    crate::schedule::laws::scheduled_packages_are_blocks();
    block_build::laws::words_move_where_both_sides_are_ready();
    block_build::laws::always_fed_words_move_in_their_row();
    ir_tree::rules::typed::procs_fit_their_network();
}
