//! The body of a message.
ghost use Rattle.std.specs.Prelude.{◌≡◌};
ghost use Rattle.causal_process.specs.Bodies.{first_byte};

use causal_name::NoMemory;
use smallvec::SmallVec;
use std::alloc::Global;
use std::marker::Model;

/// A message body: any number of bytes. Its model is the list of its bytes. A body of at most 16 bytes needs no heap
/// memory.
#[derive(Drop)]
pub struct Body {
    bytes: SmallVec<u8, 16>,
}

impl Model for Body {
    ghost use Rattle.std.specs.Prelude.{ℕ, List};

    ghost Value = { List ℕ };

    ghost view = { λ body. body.bytes.items };
}

impl Body {
    ghost use Rattle.std.specs.Prelude.{[], IfOk};

    /// Returns an empty body. It allocates nothing.
    pub fn empty(alloc: Global) -> Body
        ensures { result ≡ [] }
    {
        Body {
            bytes: SmallVec::new(alloc),
        }
    }

    /// Returns the body with these bytes. It allocates nothing.
    pub fn new(bytes: Vec<u8>) -> Body
        ensures { result ≡ bytes.items }
    {
        Body {
            bytes: SmallVec::from_vec(bytes),
        }
    }

    /// Returns a body with a copy of these bytes.
    ///
    /// # Errors
    /// `NoMemory` if allocation failed.
    pub fn of(alloc: Global, bytes: &[u8]) -> Result<Body, NoMemory>
        ensures { IfOk result (λ body. body ≡ bytes.now) }
    {
        Ok(Body {
            bytes: SmallVec::from_slice(alloc, bytes)?,
        })
    }

    /// Returns the bytes, in order. It allocates nothing.
    pub fn as_slice(&self) -> &[u8]
        ensures { result.now ≡ self.now }
    {
        self.bytes.as_slice()
    }
}

/// Returns the first byte, or 0 if the body is empty.
pub fn first_byte(body: &Body) -> u8
    ensures { result ≡ first_byte body.now }
{
    match body.as_slice() {
        [first, ..] => *first,
        [] => 0,
    }
}
