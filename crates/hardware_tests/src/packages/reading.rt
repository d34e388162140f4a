//! Texts that are printed as they were read, as no command prints them.

use ir_text::parser::read_ir;
use ir_text::printer::print_ir;
use std::test::Fail;

const CHAIN: &str = "package Chain
chan a(bits[32], id=0, kind=input)
chan b(bits[32], id=1, kind=output)
proc Chain(st: (), init=()) {
  after_all.1: token = after_all(id=1)
  receive.2: (token, bits[32]) = receive(after_all.1, channel=a, id=2)
  tuple_index.3: token = tuple_index(receive.2, index=0, id=3)
  tuple_index.4: bits[32] = tuple_index(receive.2, index=1, id=4)
  literal.5: bits[32] = literal(value=1, id=5)
  add.6: bits[32] = add(tuple_index.4, literal.5, id=6)
  add.7: bits[32] = add(add.6, literal.5, id=7)
  add.8: bits[32] = add(add.7, literal.5, id=8)
  send.9: token = send(tuple_index.3, add.8, channel=b, id=9)
  next(st)
}
";

/// Each form of a line, printed as packages are.
const FORMS: &str = "package Forms
chan a/b.c(bits[8], id=0, kind=inner, depth=3)
chan in(((bits[1], bits[3][2][4]), bits[8]), id=1, kind=input)
chan out((bits[2], bits[1]), id=2, kind=output)
proc add.1(st: (bits[8], bits[2][3]), init=(255, [0, 1, 2])) {
  after_all.1: token = after_all(id=1)
  literal.2: bits[1] = literal(value=1, id=2)
  receive.3: (token, bits[8]) = receive(after_all.1, predicate=literal.2, channel=a/b.c, id=3)
  tuple_index.4: token = tuple_index(receive.3, index=0, id=4)
  receive.5: (token, ((bits[1], bits[3][2][4]), bits[8])) = receive(tuple_index.4, channel=in, id=5)
  tuple_index.6: token = tuple_index(receive.5, index=0, id=6)
  tuple_index.7: bits[8] = tuple_index(st, index=0, id=7)
  tuple_index.8: bits[2][3] = tuple_index(st, index=1, id=8)
  bit_slice.9: bits[3] = bit_slice(tuple_index.7, start=5, width=3, id=9)
  dynamic_bit_slice.10: bits[2] = dynamic_bit_slice(tuple_index.7, bit_slice.9, width=2, id=10)
  sign_ext.11: bits[16] = sign_ext(tuple_index.7, new_bit_count=16, id=11)
  array_index.12: bits[2] = array_index(tuple_index.8, indices=[bit_slice.9], id=12)
  array_update.13: bits[2][3] = array_update(tuple_index.8, array_index.12, indices=[literal.2], id=13)
  sel.14: bits[2] = sel(dynamic_bit_slice.10, cases=[array_index.12, dynamic_bit_slice.10], default=array_index.12, id=14)
  sel.15: bits[2] = sel(literal.2, cases=[sel.14, array_index.12], id=15)
  concat.20: bits[24] = concat(sign_ext.11, tuple_index.7, id=20)
  xor_reduce.21: bits[1] = xor_reduce(concat.20, id=21)
  tuple.22: (bits[2], bits[1]) = tuple(sel.15, xor_reduce.21, id=22)
  send.23: token = send(tuple_index.6, tuple.22, predicate=xor_reduce.21, channel=out, id=23)
  tuple.24: (bits[8], bits[2][3]) = tuple(tuple_index.7, array_update.13, id=24)
  next(tuple.24)
}
proc Other(st: bits[128], init=340282366920938463463374607431768211455) {
  bit_slice.1: bits[8] = bit_slice(st, start=120, width=8, id=1)
  after_all.7: token = after_all(id=7)
  send.4294967295: token = send(after_all.7, bit_slice.1, channel=a/b.c, id=4294967295)
  next(st)
}
";

#[test]
fn printed_texts_are_read_and_printed_the_same(rt: HostRuntime) -> Result<(), Fail> {
    for text in [CHAIN, FORMS] {
        let package = read_ir(rt.alloc(), text)?;
        let printed = print_ir(rt.alloc(), &package)?;
        assert_eq!(rt; printed.as_str(), text);
    }
    Ok(())
}
