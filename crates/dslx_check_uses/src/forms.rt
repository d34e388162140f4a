//! Forms of calls.

ghost use Rattle.std.specs.Prelude.{◌≡◌};
ghost use Rattle.dslx_meaning.specs.Names.Called.{kind_of};
ghost use Rattle.dslx_check_uses.specs.Forms.{form_by};

use dslx_meaning::names::Callee;
use dslx_tree::Direction;

/// What is called: an effect in a direction, with so many arguments, a function of the text, or a builtin.
#[derive(Clone, Copy)]
pub enum CallForm {
    Effect(Direction, usize),
    Function,
    Builtin,
}

/// What a called name stands for.
pub fn form_of(callee: Callee) -> CallForm
    ensures { result ≡ form_by (kind_of callee) }
{
    match callee {
        Callee::Receive => CallForm::Effect(Direction::In, 2),
        Callee::ReceiveIf => CallForm::Effect(Direction::In, 4),
        Callee::Send => CallForm::Effect(Direction::Out, 3),
        Callee::SendIf => CallForm::Effect(Direction::Out, 4),
        Callee::Function => CallForm::Function,
        Callee::Join => CallForm::Builtin,
        Callee::Update => CallForm::Builtin,
        Callee::CountLeading => CallForm::Builtin,
        Callee::CountTrailing => CallForm::Builtin,
        Callee::Reverse => CallForm::Builtin,
        Callee::AllOnes => CallForm::Builtin,
        Callee::SomeOne => CallForm::Builtin,
        Callee::Parity => CallForm::Builtin,
    }
}
