//! Wires of choices between values.

ghost use Rattle.std.specs.Prelude.{◌≡◌, ◌≤◌, ◌<◌, ◌+◌, ◌^◌, ◌++◌, ◌==◌, ℕ, Bool, List, [], map, length, get_or, nat_lt, if◌then◌else◌, OnOk, IfOk};
ghost use Rattle.xb_bits.specs.Word.{Word, word as number_of};
ghost use Rattle.xb_value.specs.declared.value.Value.{Value};
ghost use Rattle.net_core.specs.Behavior.{IsWordOf};
ghost use Rattle.vlog_tree.specs.Value.{Values, bit as bit_of, atom_value};
ghost use Rattle.block_build.specs.Netlist.Added.{next_number, AddsWires, Puts};
ghost use Rattle.block_build.specs.Netlist.Choices.{choice_wires, ShowsChosen, ShowsUpdated, ShowAllUpdated};
ghost use Rattle.block_build.specs.Netlist.Leaves.{ShowsValue, AreSome, cut_into, nets, total_width};

use crate::netlist::literals::{literal, zeros};
use crate::netlist::operators::part;
use crate::netlist::wires::WireList;
use std::alloc::{AllocError, Global};
use vlog_tree::{Atom, Binary, Expr, Signal, Simple};
use xb_value::Seq;

/// Of two values with numbers of these widths the first where the bit is 1, else the second. Its signals are put behind those
/// that are there. It recurses once a number of a type.
pub fn choose(
    wires: &mut WireList,
    bit: Atom,
    widths: &[u64],
    firsts: &[Atom],
    seconds: &[Atom],
    chosen: &mut Vec<Atom>,
) -> Result<(), AllocError>
    ensures puts { OnOk result (Puts wires.old wires.new (choice_wires bit widths.now firsts.now seconds.now)) }
    ensures signals { OnOk result (chosen.new.items ≡ chosen.old.items ++ nets (next_number wires.old) (length (choice_wires bit widths.now firsts.now seconds.now))) }
{
    match widths {
        [] => Ok(()),
        [width, widths @ ..] => match firsts {
            [] => Ok(()),
            [first, firsts @ ..] => match seconds {
                [] => Ok(()),
                [second, seconds @ ..] => {
                    chosen.push(wires.choice(*width, bit, *first, *second)?)?;
                    choose(wires, bit, widths, firsts, seconds, chosen)
                }
            },
        },
    }
}

/// The first where a number is this one, else the second.
pub fn pick(
    alloc: Global,
    wires: &mut WireList,
    selector: Atom,
    number: Atom,
    widths: &[u64],
    firsts: &[Atom],
    seconds: &[Atom],
) -> Result<Seq<Atom>, AllocError>
    ensures shows { IfOk result (λ chosen. AddsWires wires.old wires.new (λ v. (n i w : ℕ) (x y : Value) →
        atom_value v selector ≡ number_of w n → atom_value v number ≡ number_of w i → length firsts.now ≡ length widths.now → length seconds.now ≡ length widths.now →
        ShowsValue v firsts.now x → ShowsValue v seconds.now y → ShowsValue v chosen (if n == i then x else y))) }
    ensures count { length firsts.now ≡ length widths.now → length seconds.now ≡ length widths.now → IfOk result (λ chosen. length chosen ≡ length widths.now) }
{
    let same = wires.binary(1, Binary::Equal, selector, number)?;
    let mut chosen = Vec::new(alloc);
    choose(wires, same, widths, firsts, seconds, &mut chosen)?;
    Ok(Seq::from_vec(chosen))
}

/// Of values with numbers of these widths the one at the index that a selector of so many bits has, another where it is past
/// them.
pub fn select(
    alloc: Global,
    wires: &mut WireList,
    selector: Atom,
    bits: u64,
    widths: &[u64],
    values: &[Seq<Atom>],
    other: Seq<Atom>,
) -> Result<Seq<Atom>, AllocError>
    ensures { IfOk result (λ chosen. AddsWires wires.old wires.new (λ v. ShowsChosen v selector bits (length widths.now) values.now other (length values.now) chosen)) }
{
    let mut chosen = other;
    'values: for i in 0..values.len() {
        let number = literal(bits, i as u128);
        let firsts = values[i].as_slice();
        let picked = pick(
            alloc,
            wires,
            selector,
            number,
            widths,
            firsts,
            chosen.as_slice(),
        )?;
        chosen = picked;
    }
    Ok(chosen)
}

/// The elements of an array, with numbers of these widths, where another stands in place of the one at the index that a number of
/// so many bits has.
pub fn update(
    alloc: Global,
    wires: &mut WireList,
    index: Atom,
    bits: u64,
    widths: &[u64],
    elements: &[Seq<Atom>],
    element: &[Atom],
) -> Result<Vec<Seq<Atom>>, AllocError>
    ensures count { IfOk result (λ updated. length updated.items ≡ length elements.now) }
    ensures shows { IfOk result (λ updated. AddsWires wires.old wires.new (λ v. ShowAllUpdated v index bits (length widths.now) element.now elements.now updated.items)) }
{
    let mut updated = Vec::new(alloc);
    'elements: for i in 0..elements.len() {
        let old = elements[i].as_slice();
        let made = updated_at(alloc, wires, index, bits, i, widths, element, old)?;
        updated.push(made)?;
    }
    Ok(updated)
}

/// The element of an index behind that.
fn updated_at(
    alloc: Global,
    wires: &mut WireList,
    index: Atom,
    bits: u64,
    i: usize,
    widths: &[u64],
    element: &[Atom],
    old: &[Atom],
) -> Result<Seq<Atom>, AllocError>
    ensures { IfOk result (λ new. AddsWires wires.old wires.new (λ v. ShowsUpdated v index bits (length widths.now) element.now i old.now new)) }
{
    if has_number(bits, i) {
        pick(
            alloc,
            wires,
            index,
            literal(bits, i as u128),
            widths,
            element,
            old,
        )
    } else {
        Seq::from_slice(alloc, old)
    }
}

/// Whether so many bits can have this number.
pub fn has_number(bits: u64, number: usize) -> bool
    ensures { result ≡ nat_lt number (2 ^ bits) }
{
    64 <= bits || (number as u64) < 1 << bits
}

/// The numbers of these widths, `left` bits in all, in the low bits of the word on a signal of `all` bits, where the bit is 1;
/// else 0 in each. Their signals are put behind those that are there. It recurses once a number of a type.
pub fn receive(
    wires: &mut WireList,
    all: u64,
    left: u64,
    word: Signal,
    on: Atom,
    widths: &[u64],
    numbers: &mut Vec<Atom>,
) -> Result<(), AllocError>
    ensures { OnOk result (AddsWires wires.old wires.new (λ v. (t : Bool) (x : Word) → v word.0 ≡ x → IsWordOf all x → total_width widths.now ≡ left → left ≤ all → AreSome widths.now →
        atom_value v on ≡ bit_of t →
        map (atom_value v) numbers.new.items ≡ map (atom_value v) numbers.old.items ++ cut_into widths.now (if t then x.value else 0))) }
{
    match widths {
        [] => Ok(()),
        [width, widths @ ..] => {
            let low = left.saturating_sub(*width);
            let here = part(all, word, low, *width);
            let number = Expr::Choice(on, here, Simple::Atom(zeros(*width)));
            numbers.push(wires.driven(*width, number)?)?;
            receive(wires, all, low, word, on, widths, numbers)
        }
    }
}
