//! What each production does with the parts of its symbols.

ghost use Rattle.std.specs.Prelude.{◌≡◌, OnOk, slice_index_or};
ghost use Rattle.ir_builder.specs.Building.{reduced, rule_of};

use crate::state::State;
use ir_tree::Ends;
use std::alloc::{AllocError, Global};

/// What is done where a tree of a production is complete.
#[derive(Clone, Copy, PartialEq, Eq)]
pub enum Rule {
    /// Nothing: the parts stay.
    Keep,
    /// So many tokens say nothing more.
    Skip(usize),
    /// A list ends.
    Start,
    /// The list has one element more, behind so many tokens.
    More(usize),
    Name,
    Number,
    BitsElement,
    TokenElement,
    TupleElement,
    TypeOf,
    NumberValue,
    TupleValue,
    ArrayValue,
    StateOperand,
    NodeOperand,
    SomeOperand,
    NoOperand,
    PlainCall,
    SliceCall,
    DynamicCall,
    ExtendCall,
    SelCall,
    IndexCall,
    IndicesCall,
    LiteralCall,
    SiteChannel,
    SiteCall,
    ChannelId,
    Input,
    Output,
    Inner,
    ChannelOf,
    HeadOf,
    NodeOf,
    NextOf,
    ProcOf,
    PackageLine,
}

/// The rule of each production, in the order of docs/ir.grammar.
const RULES: [Rule; 97] = [
    Rule::PackageLine,
    Rule::Keep,
    Rule::Keep,
    Rule::Keep,
    Rule::Keep,
    Rule::Name,
    Rule::Name,
    Rule::Name,
    Rule::Name,
    Rule::Name,
    Rule::Keep,
    Rule::Keep,
    Rule::Keep,
    Rule::Keep,
    Rule::Keep,
    Rule::Keep,
    Rule::Keep,
    Rule::Keep,
    Rule::Keep,
    Rule::Keep,
    Rule::Keep,
    Rule::Keep,
    Rule::Keep,
    Rule::Keep,
    Rule::Keep,
    Rule::Keep,
    Rule::Keep,
    Rule::Keep,
    Rule::Keep,
    Rule::Keep,
    Rule::Keep,
    Rule::Keep,
    Rule::Keep,
    Rule::Keep,
    Rule::Number,
    Rule::Number,
    Rule::ChannelOf,
    Rule::ChannelId,
    Rule::Skip(2),
    Rule::Input,
    Rule::Output,
    Rule::Inner,
    Rule::TypeOf,
    Rule::BitsElement,
    Rule::TokenElement,
    Rule::TupleElement,
    Rule::More(2),
    Rule::Start,
    Rule::More(0),
    Rule::Start,
    Rule::More(1),
    Rule::Start,
    Rule::NumberValue,
    Rule::TupleValue,
    Rule::ArrayValue,
    Rule::More(0),
    Rule::Start,
    Rule::More(1),
    Rule::Start,
    Rule::ProcOf,
    Rule::HeadOf,
    Rule::Skip(2),
    Rule::Skip(2),
    Rule::NextOf,
    Rule::More(0),
    Rule::Start,
    Rule::NodeOf,
    Rule::StateOperand,
    Rule::NodeOperand,
    Rule::PlainCall,
    Rule::SliceCall,
    Rule::DynamicCall,
    Rule::ExtendCall,
    Rule::SelCall,
    Rule::IndexCall,
    Rule::IndicesCall,
    Rule::LiteralCall,
    Rule::SiteCall,
    Rule::More(1),
    Rule::Start,
    Rule::Keep,
    Rule::Skip(3),
    Rule::Skip(3),
    Rule::Skip(3),
    Rule::Skip(3),
    Rule::Skip(3),
    Rule::SiteChannel,
    Rule::SomeOperand,
    Rule::NoOperand,
    Rule::SomeOperand,
    Rule::NoOperand,
    Rule::Skip(5),
    Rule::Skip(5),
    Rule::More(0),
    Rule::Start,
    Rule::More(1),
    Rule::Start,
];

/// The rule of a production.
pub fn rule_of(production: u16) -> Rule
    ensures { result ≡ rule_of production }
{
    rule_at(&RULES, usize::from(production))
}

/// The rule at that index; nothing is done where there is none.
fn rule_at(rules: &[Rule], at: usize) -> Rule
    ensures { result ≡ slice_index_or rules.now at Rule.Keep }
{
    match rules.get(at) {
        Some(rule) => *rule,
        None => Rule::Keep,
    }
}

impl State<'_> {
    /// Does what is done where a tree is complete.
    pub fn reduce(&mut self, alloc: Global, rule: Rule) -> Result<(), AllocError>
        ensures { OnOk result (self.new ≡ reduced rule self.old) }
    {
        match rule {
            Rule::Keep => Ok(()),
            Rule::Skip(count) => {
                self.skip(count);
                Ok(())
            }
            Rule::More(count) => self.more(count),
            Rule::Start => self.start(),
            Rule::Name => self.name(),
            Rule::Number => self.number(),
            Rule::BitsElement => self.bits_element(alloc),
            Rule::TokenElement => self.token_element(alloc),
            Rule::TupleElement => self.tuple_element(alloc),
            Rule::TypeOf => self.type_of(alloc),
            Rule::NumberValue => self.number_value(),
            Rule::TupleValue => self.tuple_value(),
            Rule::ArrayValue => self.array_value(),
            Rule::StateOperand => self.state_operand(),
            Rule::NodeOperand => self.node_operand(),
            Rule::SomeOperand => self.some_operand(),
            Rule::NoOperand => self.no_operand(),
            Rule::PlainCall => self.plain_call(alloc),
            Rule::SliceCall => self.slice_call(alloc),
            Rule::DynamicCall => self.dynamic_call(alloc),
            Rule::ExtendCall => self.extend_call(alloc),
            Rule::SelCall => self.sel_call(alloc),
            Rule::IndexCall => self.index_call(alloc),
            Rule::IndicesCall => self.indices_call(alloc),
            Rule::LiteralCall => self.literal_call(alloc),
            Rule::SiteChannel => self.site_channel(),
            Rule::SiteCall => self.site_call(alloc),
            Rule::ChannelId => self.channel_id(),
            Rule::Input => self.outer(Ends::Input),
            Rule::Output => self.outer(Ends::Output),
            Rule::Inner => self.inner(),
            Rule::ChannelOf => self.channel_of(alloc),
            Rule::HeadOf => self.head_of(),
            Rule::NodeOf => self.node_of(alloc),
            Rule::NextOf => self.next_of(),
            Rule::ProcOf => self.proc_of(alloc),
            Rule::PackageLine => self.package_line(),
        }
    }
}
