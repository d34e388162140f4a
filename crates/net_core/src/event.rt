use xb_bits::Bits;
use xb_value::Value;

/// What a proc does next. A site is named by its index among the proc's sites.
#[derive(Drop)]
pub enum Event {
    /// It receives a word at a site.
    Recv(u32),
    /// It sends a word at a site.
    Send(u32, Bits),
    /// Its activation ends, with this state.
    End(Value),
}
