use crate::item::Item;
use crate::view::View;
use crossbeam_queue::Pass;

/// The right to send on a channel. It has no bytes, and goes where its proc goes.
#[derive(Drop)]
pub struct SendPass<S> {
    pub(crate) pass: Pass<Item<S>, View>,
}

/// The right to receive from a channel.
#[derive(Drop)]
pub struct RecvPass<S> {
    pub(crate) pass: Pass<Item<S>, View>,
}
