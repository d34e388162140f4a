//! A toy grammar of nested lists, `(a, (), a,)`, and its texts.

ghost use Rattle.std.specs.Prelude.{◌≡◌};
ghost use Rattle.base.specs.Grammar.Ll1.{IsLl1};

use base::grammar::Symbol::{Nonterminal, Terminal};
use base::grammar::{
    Grammar, ParseError, Production, Span, Step, Symbol, parse, parse_tree, steps,
};
use std::alloc::Global;
use std::test::Fail;

const NAME: u8 = 0;

const COMMA: u8 = 1;

const OPEN: u8 = 2;

const CLOSE: u8 = 3;

const END: u8 = 4;

const LIST: u8 = 0;

const ITEMS: u8 = 1;

const MORE: u8 = 2;

const ITEM: u8 = 3;

static SYMBOLS: [Symbol; 9] = [
    // 0: list = OPEN items CLOSE
    Terminal(OPEN),
    Nonterminal(ITEMS),
    Terminal(CLOSE),
    // 1: items = item more
    Nonterminal(ITEM),
    Nonterminal(MORE),
    // 2: items = (nothing)
    // 3: more = COMMA items
    Terminal(COMMA),
    Nonterminal(ITEMS),
    // 4: more = (nothing)
    // 5: item = NAME
    Terminal(NAME),
    // 6: item = list
    Nonterminal(LIST),
];

static PRODUCTIONS: [Production; 7] = [
    Production {
        head: LIST,
        first: 0,
        end: 3,
        chosen: 0b00100,
    },
    Production {
        head: ITEMS,
        first: 3,
        end: 5,
        chosen: 0b00101,
    },
    Production {
        head: ITEMS,
        first: 5,
        end: 5,
        chosen: 0b01000,
    },
    Production {
        head: MORE,
        first: 5,
        end: 7,
        chosen: 0b00010,
    },
    Production {
        head: MORE,
        first: 7,
        end: 7,
        chosen: 0b01000,
    },
    Production {
        head: ITEM,
        first: 7,
        end: 8,
        chosen: 0b00001,
    },
    Production {
        head: ITEM,
        first: 8,
        end: 9,
        chosen: 0b00100,
    },
];

static SPANS: [Span; 4] = [
    Span { first: 0, end: 1 },
    Span { first: 1, end: 3 },
    Span { first: 3, end: 5 },
    Span { first: 5, end: 7 },
];

#[tactic(auto, unfolding(base::specs::Grammar::Ll1::is_ll1))]
fn lists() -> Grammar<'static>
    ensures valid { IsLl1 result }
    ensures end { result.end ≡ END }
{
    Grammar {
        symbols: &SYMBOLS,
        productions: &PRODUCTIONS,
        spans: &SPANS,
        end: END,
    }
}

/// The index of the fault, or the length where there is none, and the productions.
fn outcome(alloc: Global, kinds: &[u8]) -> Result<(usize, Vec<u16>), Fail> {
    let Some(&last) = kinds.last() else {
        return Err("no end mark".into());
    };
    if last != END {
        return Err("another mark at the end".into());
    }
    match parse(alloc, &lists(), kinds) {
        Ok(productions) => Ok((kinds.len(), productions)),
        Err(ParseError::Fault(fault)) => Ok((fault.place, fault.productions)),
        Err(ParseError::OutOfMemory) => Err("out of memory".into()),
    }
}

#[test]
fn derivations(rt: HostRuntime) -> Result<(), Fail> {
    let (place, productions) = outcome(rt.alloc(), &[OPEN, CLOSE, END])?;
    assert_eq!(rt; place, 3);
    assert_eq!(rt; productions.as_slice(), [0, 2].as_slice());

    // (a, (), )
    let kinds = [OPEN, NAME, COMMA, OPEN, CLOSE, COMMA, CLOSE, END];
    let (place, productions) = outcome(rt.alloc(), &kinds)?;
    assert_eq!(rt; place, 8);
    assert_eq!(rt;
        productions.as_slice(),
        [0, 1, 5, 3, 1, 6, 0, 2, 3, 2].as_slice()
    );
    Ok(())
}

#[test]
fn faults(rt: HostRuntime) -> Result<(), Fail> {
    // `(a, ())` with one token that can't stand there, at each index in turn: the index, and how many
    // productions lead to the tokens before it
    let derivation = [0, 1, 5, 3, 1, 6, 0, 2, 4];
    let cases = [
        ([NAME, NAME, COMMA, OPEN, CLOSE, CLOSE, END], 0, 0),
        ([OPEN, COMMA, COMMA, OPEN, CLOSE, CLOSE, END], 1, 1),
        ([OPEN, NAME, NAME, OPEN, CLOSE, CLOSE, END], 2, 3),
        ([OPEN, NAME, COMMA, COMMA, CLOSE, CLOSE, END], 3, 4),
        ([OPEN, NAME, COMMA, OPEN, COMMA, CLOSE, END], 4, 7),
        ([OPEN, NAME, COMMA, OPEN, CLOSE, OPEN, END], 5, 8),
        ([OPEN, NAME, COMMA, OPEN, CLOSE, CLOSE, NAME], 6, 9),
        // the end mark too early
        ([OPEN, NAME, COMMA, OPEN, CLOSE, END, END], 5, 8),
        ([END, OPEN, CLOSE, END, END, END, END], 0, 0),
        // a kind that the grammar doesn't have
        ([OPEN, NAME, COMMA, OPEN, CLOSE, 200, END], 5, 8),
    ];
    for (kinds, place, count) in cases {
        assert!(rt; count <= derivation.len());
        let mut ended = kinds.to_vec(rt.alloc())?;
        ended.push(END)?;
        let (at, productions) = outcome(rt.alloc(), &ended)?;
        assert_eq!(rt; at, place);
        assert_eq!(rt; productions.as_slice(), &derivation[..count]);
    }

    // the end mark too late: behind a whole text, and behind another mark
    for kinds in [[OPEN, CLOSE, CLOSE, END], [OPEN, CLOSE, NAME, END]] {
        let (at, productions) = outcome(rt.alloc(), &kinds)?;
        assert_eq!(rt; at, 2);
        assert_eq!(rt; productions.as_slice(), [0, 2].as_slice());
    }
    let (at, productions) = outcome(rt.alloc(), &[OPEN, CLOSE, END, END])?;
    assert_eq!(rt; at, 3);
    assert_eq!(rt; productions.as_slice(), [0, 2].as_slice());
    Ok(())
}

#[test]
fn a_million_tokens(rt: HostRuntime) -> Result<(), Fail> {
    let mut kinds = vec![in rt.alloc(); OPEN]?;
    for _ in 0..500_000 {
        kinds.push(NAME)?;
        kinds.push(COMMA)?;
    }
    kinds.push(CLOSE)?;
    kinds.push(END)?;
    let (place, productions) = outcome(rt.alloc(), &kinds)?;
    assert_eq!(rt; place, 1_000_003);
    assert_eq!(rt; productions.len(), 1_500_002);
    Ok(())
}

#[test]
fn trees(rt: HostRuntime) -> Result<(), Fail> {
    // (a, (), )
    let kinds = [OPEN, NAME, COMMA, OPEN, CLOSE, COMMA, CLOSE, END];
    let grammar = lists();
    let productions = parse(rt.alloc(), &grammar, &kinds)?;
    let nodes = parse_tree(rt.alloc(), &grammar, &productions, &kinds)?;
    let ends = [10, 10, 3, 10, 10, 8, 8, 8, 10, 10];
    let tokens = [7, 5, 1, 4, 3, 2, 2, 0, 1, 0];
    assert_eq!(rt; nodes.len(), 10);
    for place in 0..10 {
        assert_eq!(rt; nodes[place].end, ends[place], "at {place}");
        assert_eq!(rt; nodes[place].tokens, tokens[place], "at {place}");
    }
    Ok(())
}

#[test]
fn built_from_the_bottom(rt: HostRuntime) -> Result<(), Fail> {
    // (a)
    let grammar = lists();
    let productions = parse(rt.alloc(), &grammar, &[OPEN, NAME, CLOSE, END])?;
    let made = steps(rt.alloc(), &grammar, &productions)?;
    let wanted = [
        Step::Shift,
        Step::Shift,
        Step::Reduce(5),
        Step::Reduce(4),
        Step::Reduce(1),
        Step::Shift,
        Step::Reduce(0),
        Step::Shift,
    ];
    assert!(rt; made.as_slice() == wanted.as_slice(), "other steps");
    Ok(())
}
