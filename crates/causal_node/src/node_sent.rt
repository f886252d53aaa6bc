//! The messages that a node keeps.
ghost use Rattle.std.specs.Prelude.{◌≡◌, slice_get};
ghost use Rattle.std.specs.Option.{option_map};

use crate::node::Node;

impl Node {
    /// Returns the body of the kept message of this number.
    pub fn body(&self, ssn: u32) -> Option<&[u8]>
        ensures { option_map (λ body. body.now) result ≡ slice_get self.now.bodies ssn }
    {
        let message = self.memory.sent.messages.get(ssn as usize)?;
        Some(message.body.as_slice())
    }
}
