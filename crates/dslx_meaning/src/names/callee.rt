ghost use Rattle.std.specs.Prelude.{◌≡◌};
ghost use Rattle.dslx_meaning.specs.Callees.{kind_of_call};
ghost use Rattle.dslx_meaning.specs.Names.Called.{kind_of};

use base::texts::Name;

/// What a called name stands for: an effect, a builtin, or a function of the text.
#[derive(Clone, Copy, PartialEq, Eq)]
pub enum Callee {
    Join,
    Receive,
    ReceiveIf,
    Send,
    SendIf,
    CountLeading,
    CountTrailing,
    Reverse,
    AllOnes,
    SomeOne,
    Parity,
    Update,
    Function,
}

/// What a called name stands for.
pub fn callee_of(name: &Name) -> Callee
    ensures { kind_of result ≡ kind_of_call name.now }
{
    let text = name.as_str();
    if text == "join" {
        Callee::Join
    } else if text == "recv" {
        Callee::Receive
    } else if text == "recv_if" {
        Callee::ReceiveIf
    } else if text == "send" {
        Callee::Send
    } else if text == "send_if" {
        Callee::SendIf
    } else if text == "clz" {
        Callee::CountLeading
    } else if text == "ctz" {
        Callee::CountTrailing
    } else if text == "rev" {
        Callee::Reverse
    } else if text == "and_reduce" {
        Callee::AllOnes
    } else if text == "or_reduce" {
        Callee::SomeOne
    } else if text == "xor_reduce" {
        Callee::Parity
    } else if text == "update" {
        Callee::Update
    } else {
        Callee::Function
    }
}
