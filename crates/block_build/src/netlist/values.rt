//! Laws of the values on a netlist's signals, each the contract of a function without a body.

ghost use Rattle.std.specs.Prelude.{◌≡◌, ◌<◌, ◌≤◌, ◌+◌, ◌-◌, ◌^◌, ◌==◌, ℕ, suc, Bool, List, [], ◌∷◌, map, length, get_or, slice_get, if◌then◌else◌, Option, Some};
ghost use Rattle.std.specs.List.{AllByRecursion};
ghost use Rattle.xb_bits.specs.Word.{Word, word};
ghost use Rattle.xb_bits.specs.Operations as bits;
ghost use Rattle.xb_value.specs.declared.ty.Ty.{Ty};
ghost use Rattle.xb_value.specs.declared.ty.Ty as ty;
ghost use Rattle.xb_value.specs.declared.value.Value.{Value, out-Value, Tuple, Array};
ghost use Rattle.xb_value.specs.Flat.{joined};
ghost use Rattle.xb_value.specs.Typing.{IsOfType};
ghost use Rattle.xb_value.specs.Width.{width_of};
ghost use Rattle.net_core.specs.Behavior.{IsWordOf};
ghost use Rattle.delay_model.specs.declared.op.Op.TheVariants as op;
ghost use Rattle.delay_model.specs.declared.op.Binary.{Binary};
ghost use Rattle.delay_model.specs.declared.op.Unary.{Unary};
ghost use Rattle.delay_model.specs.declared.op.Unary.TheVariants as operation;
ghost use Rattle.delay_model.specs.declared.op.Compare.{Compare};
ghost use Rattle.delay_model.specs.declared.op.Shift.{Shift};
ghost use Rattle.delay_model.specs.declared.op.Reduce.{Reduce};
ghost use Rattle.delay_model.specs.declared.op.Extend.{Extend};
ghost use Rattle.delay_model.specs.declared.op.Extend.TheVariants as extend;
ghost use Rattle.ir_tree.specs.declared.ir_type.IrType.{IrType};
ghost use Rattle.ir_tree.specs.declared.node.Node.{Node};
ghost use Rattle.ir_tree.specs.declared.node.Operand.{Operand};
ghost use Rattle.ir_tree.specs.declared.node.Operand.TheVariants as operand;
ghost use Rattle.ir_tree.specs.declared.package.Channel.{Channel};
ghost use Rattle.ir_tree.specs.declared.package.Proc.{Proc};
ghost use Rattle.ir_tree.specs.Activations.{sent};
ghost use Rattle.ir_tree.specs.Constants.{no_value};
ghost use Rattle.ir_tree.specs.NodeValues.{operand_value, optional_value, channel_type, is_one, received, node_values};
ghost use Rattle.ir_tree.specs.Operations.{binary_word, unary_word, holds, bit, shift_word, reduce_word, extend_word, on_word, on_words, on_tuple, of_one, of_two, plain_value, longer_value, slice_value, dyn_slice_value, chosen, element_at, index_value};
ghost use Rattle.ir_tree.specs.Types.{ty_of};
ghost use Rattle.vlog_tree.specs.declared.expression.Atom.{Atom};
ghost use Rattle.vlog_tree.specs.declared.expression.Simple.TheVariants as simple;
ghost use Rattle.vlog_tree.specs.declared.expression.Unary.TheVariants as unary;
ghost use Rattle.vlog_tree.specs.Value.{Values, atom_value};
ghost use Rattle.block_build.specs.Netlist.Wires.{AreWired};
ghost use Rattle.block_build.specs.Netlist.Gates.{net};
ghost use Rattle.block_build.specs.Netlist.Leaves.{all_leaves, ShowsValue, nets, leaf_widths, leaf_counts, cut_into, repeated, total_width, ShowAll, parts_of};
ghost use Rattle.block_build.specs.Netlist.Operators.{binary_wires, binary_net, compare_gate, SignalsCarry, shift_gate, SignalCarries, unary_gate, reduce_gate, part_of, simple_gate, fitted, dyn_slice_wires, sign_wires, bit_wires};
ghost use Rattle.block_build.specs.Netlist.Results.{GivesOne, GivesTwo, ShowWords, StandsForRest};
ghost use Rattle.block_build.specs.Netlist.Choices.{choice_wires, pick_wires, chosen_below};
ghost use Rattle.block_build.specs.Netlist.Procs.{setting_by};
ghost use Rattle.block_build.specs.Netlist.Nodes.{value_by_words, AreStaged, HaveOperandTypes, ProcNets, NodesShow, ShowEarlier, AreHeard};

/// The wires of operations on two numbers give their results: of arithmetic and logic, comparisons, shifts, and the bits
/// from a number of them on.
pub fn wires_of_two_numbers_give_results()
    ensures binary { (v : Values) (o : Binary) (width k : ℕ) (a b zeros ones : Atom) → AreWired v k (binary_wires o width k a b zeros ones) →
        atom_value v zeros ≡ word width 0 → atom_value v ones ≡ word width (2 ^ width - 1) →
        GivesTwo v width width (binary_word o) a b (net (binary_net o k)) }
    ensures compared { (v : Values) (o : Compare) (width k : ℕ) (a b : Atom) (s t : ℕ) → AreWired v k (compare_gate o a b s t ∷ []) →
        SignalsCarry v o s t (atom_value v a) (atom_value v b) →
        GivesTwo v width width (λ x y. bit (holds o x y)) a b (net k) }
    ensures shifted { (v : Values) (o : Shift) (width u k : ℕ) (a amount : Atom) (s : ℕ) → AreWired v k (shift_gate o width a amount s ∷ []) →
        SignalCarries v o s (atom_value v a) →
        GivesTwo v width u (shift_word o) a amount (net k) }
    ensures sliced { (v : Values) (all u width k : ℕ) (a start zeros : Atom) → AreWired v k (dyn_slice_wires all width k a start zeros) →
        1 ≤ width → (all < width → atom_value v zeros ≡ word (width - all) 0) →
        GivesTwo v all u (λ x y. bits.dyn_slice x y width) a start (net (suc k)) }
{}

/// The wires of operations on one number give their results: of the complement, the negative and the bits in the other
/// order, one bit of all bits, and the number made shorter or longer; and so do those of numbers side by side.
pub fn wires_of_one_number_give_results()
    ensures complement { (v : Values) (width k : ℕ) (a : Atom) → AreWired v k (unary_gate width unary.Complement a ∷ []) →
        GivesOne v width (unary_word operation.Not) a (net k) }
    ensures negative { (v : Values) (width k : ℕ) (a : Atom) → AreWired v k (unary_gate width unary.Negate a ∷ []) →
        GivesOne v width (unary_word operation.Neg) a (net k) }
    ensures reversed { (v : Values) (width s k r : ℕ) → AreWired v k (bit_wires width s 0 width) →
        AreWired v r (simple_gate width (simple.Concat (nets k width)) ∷ []) →
        GivesOne v width (unary_word operation.Reverse) (net s) (net r) }
    ensures reduced { (v : Values) (o : Reduce) (width k : ℕ) (a : Atom) → AreWired v k (reduce_gate o a ∷ []) →
        GivesOne v width (reduce_word o) a (net k) }
    ensures sliced { (v : Values) (all start width s k : ℕ) → AreWired v k (simple_gate width (part_of all s start width) ∷ []) →
        1 ≤ width → start + width ≤ all →
        GivesOne v all (λ x. bits.slice x start width) (net s) (net k) }
    ensures zero_extended { (v : Values) (all width s k : ℕ) (zeros : Atom) → AreWired v k (simple_gate width (fitted all width s zeros) ∷ []) →
        1 ≤ width → all ≤ width → (all < width → atom_value v zeros ≡ word (width - all) 0) →
        GivesOne v all (λ x. extend_word extend.Zero x width) (net s) (net k) }
    ensures sign_extended { (v : Values) (all width s k : ℕ) (zeros ones : Atom) → AreWired v k (sign_wires all width k s zeros ones) →
        1 ≤ all → all ≤ width → atom_value v zeros ≡ word (width - all) 0 → atom_value v ones ≡ word (width - all) (2 ^ (width - all) - 1) →
        GivesOne v all (λ x. extend_word extend.Sign x width) (net s) (net (suc k)) }
    ensures joined { (v : Values) (width k : ℕ) (atoms : List Atom) → AreWired v k (simple_gate width (simple.Concat atoms) ∷ []) →
        v k ≡ joined (map (atom_value v) atoms) }
{}

/// Where the operands' signals show values of bits, and a signal is given the result for their numbers, it shows the value of
/// the operation.
pub fn numbers_show_values()
    ensures binary { (v : Values) (o : Binary) (w : ℕ) (a b r : Atom) (x y : Value) → GivesTwo v w w (binary_word o) a b r →
        IsOfType (ty.Bits w) x → IsOfType (ty.Bits w) y → ShowsValue v (a ∷ []) x → ShowsValue v (b ∷ []) y →
        ShowsValue v (r ∷ []) (plain_value (op.Binary o) (x ∷ y ∷ [])) }
    ensures unary { (v : Values) (o : Unary) (w : ℕ) (a r : Atom) (x : Value) → GivesOne v w (unary_word o) a r →
        IsOfType (ty.Bits w) x → ShowsValue v (a ∷ []) x →
        ShowsValue v (r ∷ []) (plain_value (op.Unary o) (x ∷ [])) }
    ensures compared { (v : Values) (o : Compare) (w : ℕ) (a b r : Atom) (x y : Value) → GivesTwo v w w (λ p q. bit (holds o p q)) a b r →
        IsOfType (ty.Bits w) x → IsOfType (ty.Bits w) y → ShowsValue v (a ∷ []) x → ShowsValue v (b ∷ []) y →
        ShowsValue v (r ∷ []) (plain_value (op.Compare o) (x ∷ y ∷ [])) }
    ensures shifted { (v : Values) (o : Shift) (w u : ℕ) (a b r : Atom) (x y : Value) → GivesTwo v w u (shift_word o) a b r →
        IsOfType (ty.Bits w) x → IsOfType (ty.Bits u) y → ShowsValue v (a ∷ []) x → ShowsValue v (b ∷ []) y →
        ShowsValue v (r ∷ []) (plain_value (op.Shift o) (x ∷ y ∷ [])) }
    ensures reduced { (v : Values) (o : Reduce) (w : ℕ) (a r : Atom) (x : Value) → GivesOne v w (reduce_word o) a r →
        IsOfType (ty.Bits w) x → ShowsValue v (a ∷ []) x →
        ShowsValue v (r ∷ []) (plain_value (op.Reduce o) (x ∷ [])) }
    ensures sliced { (v : Values) (w start width : ℕ) (a r : Atom) (x : Value) → GivesOne v w (λ p. bits.slice p start width) a r →
        1 ≤ width → start + width ≤ w → IsOfType (ty.Bits w) x → ShowsValue v (a ∷ []) x →
        ShowsValue v (r ∷ []) (of_one (on_word (slice_value start width)) (x ∷ [])) }
    ensures sliced_from { (v : Values) (w u width : ℕ) (a b r : Atom) (x y : Value) → GivesTwo v w u (λ p q. bits.dyn_slice p q width) a b r →
        1 ≤ width → width ≤ 128 → IsOfType (ty.Bits w) x → IsOfType (ty.Bits u) y → ShowsValue v (a ∷ []) x → ShowsValue v (b ∷ []) y →
        ShowsValue v (r ∷ []) (of_two (on_words (dyn_slice_value width)) (x ∷ y ∷ [])) }
    ensures extended { (v : Values) (o : Extend) (w width : ℕ) (a r : Atom) (x : Value) → GivesOne v w (λ p. extend_word o p width) a r →
        w ≤ width → width ≤ 128 → IsOfType (ty.Bits w) x → ShowsValue v (a ∷ []) x →
        ShowsValue v (r ∷ []) (longer_value (op.Extend o) width (x ∷ [])) }
    ensures joined { (v : Values) (ws : List ℕ) (atoms : List Atom) (r : Atom) (values : List Value) → ShowWords v ws atoms values →
        1 ≤ total_width ws → total_width ws ≤ 128 → atom_value v r ≡ joined (map (atom_value v) atoms) →
        ShowsValue v (r ∷ []) (plain_value op.Concat values) }
{}

/// The signals of a tuple and of an array are those of their parts, one after another; and where such signals show one, each
/// part of them shows a part of it. A token has none.
pub fn parts_show_values()
    ensures token { (v : Values) → ShowsValue v [] no_value }
    ensures tuple { (v : Values) (atoms : List (List Atom)) (values : List Value) → ShowAll v atoms values → ShowsValue v (all_leaves atoms) (Tuple values) }
    ensures array { (v : Values) (atoms : List (List Atom)) (values : List Value) → ShowAll v atoms values → ShowsValue v (all_leaves atoms) (Array values) }
    ensures part { (v : Values) (ts : List Ty) (i : ℕ) (atoms : List Atom) (x : Value) → IsOfType (ty.Tuple ts) x → ShowsValue v atoms x →
        ShowsValue v (get_or (parts_of (leaf_counts ts) atoms) i []) (of_one (on_tuple (element_at i)) (x ∷ [])) }
    ensures element { (v : Values) (atoms : List (List Atom)) (values : List Value) (i : ℕ) → ShowAll v atoms values →
        ShowsValue v (get_or atoms i []) (get_or values i no_value) }
    ensures count { (v : Values) (t : Ty) (atoms : List Atom) (x : Value) → IsOfType t x → ShowsValue v atoms x → length atoms ≡ length (leaf_widths t) }
{}

/// The wires of a choice show the value that is chosen: by a bit, or by whether a number is this one. Where the indices of
/// values are compared in turn, what is chosen in the end is the value at the index, or what stands for the rest.
pub fn choices_show_values()
    ensures bit { (v : Values) (k : ℕ) (c : Atom) (ws : List ℕ) (firsts seconds : List Atom) (t : Bool) (x y : Value) → AreWired v k (choice_wires c ws firsts seconds) →
        atom_value v c ≡ bit t → length firsts ≡ length ws → length seconds ≡ length ws → ShowsValue v firsts x → ShowsValue v seconds y →
        ShowsValue v (nets k (length ws)) (if t then x else y) }
    ensures number { (v : Values) (k i n w : ℕ) (selector number : Atom) (ws : List ℕ) (firsts seconds : List Atom) (x y : Value) → AreWired v k (pick_wires k selector number ws firsts seconds) →
        atom_value v selector ≡ word w n → atom_value v number ≡ word w i → length firsts ≡ length ws → length seconds ≡ length ws → ShowsValue v firsts x → ShowsValue v seconds y →
        ShowsValue v (nets (suc k) (length ws)) (if n == i then x else y) }
    ensures none { (n : ℕ) (other : Value) (values : List Value) → chosen_below n 0 other values ≡ other }
    ensures more { (n i : ℕ) (other : Value) (values : List Value) → (if n == i then get_or values i no_value else chosen_below n i other values) ≡ chosen_below n (suc i) other values }
    ensures selected { (v : Values) (w m : ℕ) (a : Atom) (x s : Value) (values : List Value) (cases : List Operand) (default : Option Operand) (other : Value) (result : List Atom) →
        IsOfType (ty.Bits w) x → ShowsValue v (a ∷ []) x → StandsForRest s values cases default w m other →
        ((n : ℕ) → n < 2 ^ w → atom_value v a ≡ word w n → ShowsValue v result (chosen_below n m other (map (operand_value s values) cases))) →
        ShowsValue v result (of_one (on_word (λ (y : Word). optional_value s values (chosen cases default y.value))) (x ∷ [])) }
    ensures element { (v : Values) (t : Ty) (count w m : ℕ) (a : Atom) (x i : Value) (atoms : List Atom) (result : List Atom) →
        IsOfType (ty.Array t count) x → IsOfType (ty.Bits w) i → ShowsValue v atoms x → ShowsValue v (a ∷ []) i → m ≤ count - 1 → ((count - 1 ≤ m → ⊥) → 2 ^ w ≤ m) →
        ((n : ℕ) (values : List Value) → n < 2 ^ w → atom_value v a ≡ word w n → length values ≡ count → ShowAll v (parts_of (repeated count (length (leaf_widths t) ∷ [])) atoms) values →
        ShowsValue v result (chosen_below n m (get_or values (count - 1) no_value) values)) →
        ShowsValue v result (index_value op.ArrayIndex i (x ∷ [])) }
    ensures updated { (v : Values) (t : Ty) (count w : ℕ) (a : Atom) (x e i : Value) (atoms : List Atom) (results : List (List Atom)) →
        IsOfType (ty.Array t count) x → IsOfType (ty.Bits w) i → ShowsValue v atoms x → ShowsValue v (a ∷ []) i → length results ≡ count →
        ((n j : ℕ) (values : List Value) → n < 2 ^ w → atom_value v a ≡ word w n → j < count → length values ≡ count → ShowAll v (parts_of (repeated count (length (leaf_widths t) ∷ [])) atoms) values →
        ShowsValue v (get_or results j []) (if n == j then e else get_or values j no_value)) →
        ShowsValue v (all_leaves results) (index_value op.ArrayUpdate i (x ∷ e ∷ [])) }
{}

/// The signals of a receive show what it gives: a token, and the value in its word where it is on, else 0 in each number. It is
/// on where its predicate's signal carries 1.
pub fn receives_show_values()
    ensures on { (v : Values) (on : Atom) (x : Value) → IsOfType (ty.Bits 1) x → ShowsValue v (on ∷ []) x → atom_value v on ≡ bit (is_one (out-Value x)) }
    ensures given { (v : Values) (channels : List Channel) (c : ℕ) (t : IrType) (numbers : List Atom) (b : Bool) (x : Word) →
        channel_type channels c ≡ Some t → IsWordOf (width_of (ty_of t)) x →
        map (atom_value v) numbers ≡ cut_into (leaf_widths (ty_of t)) (if b then x.value else 0) →
        ShowsValue v numbers (received channels c b x) }
{}

/// The wire on which the numbers of a value stand side by side carries the word that is sent of it.
pub fn sent_words_are_carried()
    ensures { (v : Values) (width k : ℕ) (t : Ty) (atoms : List Atom) (value : Value) → AreWired v k (simple_gate width (simple.Concat atoms) ∷ []) →
        IsOfType t value → 1 ≤ width_of t → width_of t ≤ 128 → ShowsValue v atoms value → v k ≡ sent value }
{}

/// In a stage each node's signals show its value by the words on the signals of receives, whether or not an activation comes
/// so far: where what the stage reads of earlier stages is shown there, and in stage 0 the state. What stands in earlier stages
/// has the same value by all words that agree at the sites of earlier stages.
pub fn nodes_show_values()
    ensures shown { (v : Values) (channels : List Channel) (proc : Proc) (nets : ProcNets) (stage : Operand → ℕ) (site_stage : ℕ → ℕ) (j : ℕ) (s : Value) (words : ℕ → Word) →
        AreStaged proc.nodes stage site_stage → NodesShow v channels proc nets stage →
        HaveOperandTypes proc.state proc.nodes s (node_values (setting_by channels s words) proc.nodes) →
        (j ≡ 0 → ShowsValue v (nets.shown j operand.State) s) → ShowEarlier v channels proc nets stage j s words → AreHeard v channels proc nets stage j words →
        (k : ℕ) (n : Node) → slice_get proc.nodes k ≡ Some n → stage (operand.Node k) ≡ j →
        ShowsValue v (nets.shown j (operand.Node k)) (value_by_words channels proc.nodes s words (operand.Node k)) }
    ensures agree { (channels : List Channel) (nodes : List Node) (s : Value) (words others : ℕ → Word) (stage : Operand → ℕ) (site_stage : ℕ → ℕ) (j : ℕ) →
        AreStaged nodes stage site_stage → ((i : ℕ) → site_stage i < j → words i ≡ others i) → (o : Operand) → stage o < j →
        value_by_words channels nodes s words o ≡ value_by_words channels nodes s others o }
{}
