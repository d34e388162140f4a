//! The ends in a `config` by their numbers.

ghost use Rattle.std.specs.Prelude.{◌≡◌, ◌∷◌, ◌++◌, [], IfOk, List, OnOk, length, map};
ghost use Rattle.dslx_tree.specs.declared.process.ConfigStatement.{ConfigStatement as ConfigStatementTree};
ghost use Rattle.dslx_tree.specs.declared.process.ConfigStatement.TheVariants.{Channel as made_channel};
ghost use Rattle.dslx_meaning.specs.Network.{made_ends, outer_ends};
ghost use Rattle.dslx_core.specs.Networks.Ends.{end_number as number_of_end, end_numbers as parametric_args_of_ends, numbered_ends as all_ends};
ghost use Rattle.dslx_config.specs.Configs.Shown.{held};

use base::texts::Name;
use dslx_tree::{Channel, ConfigStatement, End, Ident, Proc};
use std::alloc::{AllocError, Global};
use xb_value::Seq;

/// An end in a `config`: its number among those that the `config` is given and, behind these, the channels that it makes, whose
/// two ends have one number.
#[derive(Clone, Copy)]
pub(crate) struct NumberedEnd<'a> {
    pub(crate) name: &'a Name,
    pub(crate) number: u64,
}

/// All ends in the `config` of a proc.
pub(crate) fn numbered_ends<'a>(
    alloc: Global,
    process: &'a Proc,
) -> Result<Vec<NumberedEnd<'a>>, AllocError>
    ensures { IfOk result (λ ends. map held ends.items ≡ all_ends process.now) }
{
    let mut ends = Vec::new(alloc);
    number_given(&mut ends, process.config.ends.as_slice())?;
    let given = process.config.ends.len() as u64;
    number_made(
        &mut ends,
        given,
        process.config.config_statements.as_slice(),
    )?;
    Ok(ends)
}

fn number_given<'a>(ends: &mut Vec<NumberedEnd<'a>>, given: &'a [End]) -> Result<(), AllocError>
    ensures { OnOk result (map held ends.new.items ≡ map held ends.old.items ++ outer_ends 0 given.now) }
{
    'given: for i in 0..given.len() {
        ends.push(NumberedEnd {
            name: &given[i].name.name,
            number: i as u64,
        })?;
    }
    Ok(())
}

/// Both ends of each channel, the first of which has this number.
fn number_made<'a>(
    ends: &mut Vec<NumberedEnd<'a>>,
    first: u64,
    config_statements: &'a [ConfigStatement],
) -> Result<(), AllocError>
    ensures { OnOk result (map held ends.new.items ≡ map held ends.old.items ++ made_ends first config_statements.now) }
{
    let mut number = first;
    'config_statements: for config_statement in config_statements {
        number = number_config_statement(ends, number, config_statement)?;
    }
    Ok(())
}

/// Both ends, if a channel is made, under this number; the number of the next channel.
#[tactic(auto, using(crate::proofs::OnConfigs::Numbered::channel_numbered))]
fn number_config_statement<'a>(
    ends: &mut Vec<NumberedEnd<'a>>,
    number: u64,
    config_statement: &'a ConfigStatement,
) -> Result<u64, AllocError>
    ensures { IfOk result (λ next. (rest : List ConfigStatementTree) → map held ends.new.items ++ made_ends next rest ≡ map held ends.old.items ++ made_ends number (config_statement.now ∷ rest)) }
{
    match config_statement {
        ConfigStatement::Channel(channel) => match number.checked_add(1) {
            Some(next) => {
                number_channel(ends, number, channel)?;
                Ok(next)
            }
            None => Err(AllocError),
        },
        ConfigStatement::Spawn(_) => Ok(number),
    }
}

#[tactic(auto, using(crate::proofs::OnConfigs::Numbered::two_more))]
fn number_channel<'a>(
    ends: &mut Vec<NumberedEnd<'a>>,
    number: u64,
    channel: &'a Channel,
) -> Result<(), AllocError>
    ensures { OnOk result (map held ends.new.items ≡ map held ends.old.items ++ made_ends number (made_channel channel.now ∷ [])) }
{
    ends.push(NumberedEnd {
        name: &channel.sender.name,
        number,
    })?;
    ends.push(NumberedEnd {
        name: &channel.receiver.name,
        number,
    })?;
    Ok(())
}

/// The number of the first end of each name; `None` where there is none. It looks at the ends up to that one.
pub(crate) fn end_numbers(
    alloc: Global,
    ends: &[NumberedEnd],
    names: &[Ident],
) -> Result<Option<Seq<u64>>, AllocError>
    ensures { IfOk result (λ parametric_args. parametric_args ≡ parametric_args_of_ends (map held ends.now) names.now) }
{
    let mut parametric_args = Vec::new(alloc);
    'names: for name in names {
        match end_number(ends, &name.name) {
            Some(number) => parametric_args.push(number)?,
            None => return Ok(None),
        }
    }
    Ok(Some(Seq::from_vec(parametric_args)))
}

fn end_number(ends: &[NumberedEnd], name: &Name) -> Option<u64>
    ensures { result ≡ number_of_end name.now (map held ends.now) }
{
    'ends: for end in ends {
        if *name == *end.name {
            return Some(end.number);
        }
    }
    None
}
