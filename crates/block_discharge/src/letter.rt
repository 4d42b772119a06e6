//! A message with the place that it is about.

use block_events::Message;

/// A message, and where the block that takes it looks for the direction that the message is about.
#[derive(Clone, Copy)]
pub struct Letter {
    /// The message.
    pub message: Message,
    /// A place among the block's directions to other blocks: of the message's direction or of its
    /// opposite, whichever leaves the block.
    pub place: u32,
}
