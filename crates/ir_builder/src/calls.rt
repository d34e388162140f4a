//! What the rules of calls make.

ghost use Rattle.std.specs.Prelude.{◌≡◌, drop, reverse, take, IfOk, OnOk};
ghost use Rattle.base.specs.Stacks.Tops.{top_or};
ghost use Rattle.ir_builder.specs.Rules.{plain_call, slice_call, dynamic_call, extend_call, sel_call, index_call, indices_call, literal_call, site_channel, site_call};

use crate::parts::numbered;
use crate::state::{Call, State};
use crate::token::Token;
use ir_tree::{Attributes, Constant, Operand, Operands};
use std::alloc::{AllocError, Global};
use xb_value::Seq;

impl State<'_> {
    /// Takes the operands of the list on top.
    fn take_operands(&mut self, alloc: Global) -> Result<Operands, AllocError>
        ensures operands { IfOk result (λ r. r ≡ reverse (take (top_or 0 self.old.counts) self.old.operands)) }
        ensures rest { OnOk result (self.new ≡ record self.old {
          counts = drop 1 self.old.counts;
          operands = drop (top_or 0 self.old.counts) self.old.operands;
        }) }
    {
        let count = self.counts.pop_or(0);
        let list = Seq::from_vec(self.operands.take_top(count)?);
        Operands::from_slice(alloc, list.as_slice())
    }

    pub fn plain_call(&mut self, alloc: Global) -> Result<(), AllocError>
        ensures { OnOk result (self.new ≡ plain_call self.old) }
    {
        let operands = self.take_operands(alloc)?;
        self.calls.push(Call {
            operands,
            attributes: Attributes::None,
        })
    }

    /// `start=N, width=N`
    pub fn slice_call(&mut self, alloc: Global) -> Result<(), AllocError>
        ensures { OnOk result (self.new ≡ slice_call self.old) }
    {
        let operands = self.take_operands(alloc)?;
        let width = self.numbers.pop_or(0);
        let start = self.numbers.pop_or(0);
        self.calls.push(Call {
            operands,
            attributes: Attributes::StartAndWidth(start, width),
        })
    }

    /// `width=N`
    pub fn dynamic_call(&mut self, alloc: Global) -> Result<(), AllocError>
        ensures { OnOk result (self.new ≡ dynamic_call self.old) }
    {
        let operands = self.take_operands(alloc)?;
        let width = self.numbers.pop_or(0);
        self.calls.push(Call {
            operands,
            attributes: Attributes::Width(width),
        })
    }

    /// `new_bit_count=N`
    pub fn extend_call(&mut self, alloc: Global) -> Result<(), AllocError>
        ensures { OnOk result (self.new ≡ extend_call self.old) }
    {
        let operands = self.take_operands(alloc)?;
        let width = self.numbers.pop_or(0);
        self.calls.push(Call {
            operands,
            attributes: Attributes::NewBitCount(width),
        })
    }

    /// `cases=[..], default=..`
    pub fn sel_call(&mut self, alloc: Global) -> Result<(), AllocError>
        ensures { OnOk result (self.new ≡ sel_call self.old) }
    {
        let cases = self.take_operands(alloc)?;
        let operands = self.take_operands(alloc)?;
        let default = self.options.pop_or(None);
        self.calls.push(Call {
            operands,
            attributes: Attributes::Cases(cases, default),
        })
    }

    /// `index=N`
    pub fn index_call(&mut self, alloc: Global) -> Result<(), AllocError>
        ensures { OnOk result (self.new ≡ index_call self.old) }
    {
        let operands = self.take_operands(alloc)?;
        let index = self.numbers.pop_or(0);
        self.calls.push(Call {
            operands,
            attributes: Attributes::Index(index),
        })
    }

    /// `indices=[..]`
    pub fn indices_call(&mut self, alloc: Global) -> Result<(), AllocError>
        ensures { OnOk result (self.new ≡ indices_call self.old) }
    {
        let index = self.operands.pop_or(Operand::State);
        let operands = self.take_operands(alloc)?;
        self.calls.push(Call {
            operands,
            attributes: Attributes::Indices(index),
        })
    }

    /// `value=V`
    pub fn literal_call(&mut self, alloc: Global) -> Result<(), AllocError>
        ensures { OnOk result (self.new ≡ literal_call self.old) }
    {
        let operands = self.take_operands(alloc)?;
        let constant = self.constants.pop_or(Constant::Number(0));
        self.calls.push(Call {
            operands,
            attributes: Attributes::Value(constant),
        })
    }

    /// `channel=NAME,`
    pub fn site_channel(&mut self) -> Result<(), AllocError>
        ensures { OnOk result (self.new ≡ site_channel self.old) }
    {
        self.skip(3);
        let name = self.names.pop_or(Token::nothing());
        let channel = numbered(self.channel_names.place(name.text()));
        self.site_channels.push(channel)
    }

    /// `predicate=.., channel=NAME`
    pub fn site_call(&mut self, alloc: Global) -> Result<(), AllocError>
        ensures { OnOk result (self.new ≡ site_call self.old) }
    {
        let operands = self.take_operands(alloc)?;
        let channel = self.site_channels.pop_or(0);
        let predicate = self.options.pop_or(None);
        self.calls.push(Call {
            operands,
            attributes: Attributes::Channel(predicate, channel),
        })
    }
}
