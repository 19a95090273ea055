//! How a packed journal is made, and its bytes.
ghost use Rattle.std.specs.Prelude.{◌≡◌, min, [], IfOk};
ghost use Rattle.packed.specs.Format.{RoundTrip, Canonical};
ghost use Rattle.packed.specs.Journal.{used, limit, Stands};

use crate::packed::Packed;
use crate::writing::Items;
use std::alloc::{AllocError, Global};

/// The most bytes of a journal. A position then fits in two bytes, since each takes a mark of five.
const LIMIT: usize = 65_536;

impl Packed {
    /// An empty journal. All its memory is reserved here, and no later call allocates.
    pub fn new(heap: Global, units: usize) -> Result<Packed, AllocError>
        ensures { IfOk result (λ j. (used j ≡ []) × (limit j ≡ min units 65536)) }
    {
        let items = Items::new(heap, units.min(LIMIT))?;
        Ok(Packed {
            items,
            shown: 0,
            next: 0,
        })
    }

    /// The used bytes, from which all that the journal means can be read again.
    pub fn used(&self) -> &[u8]
        ensures bytes { result.now ≡ used self.now }
        ensures stands { Stands self.now }
    {
        self.items.as_bytes()
    }
}

/// The theorem that at any width of a value what is written is read again, and what is read was written so.
pub fn bytes_stand()
    ensures round { RoundTrip }
    ensures canonical { Canonical }
{}
