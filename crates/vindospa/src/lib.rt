// Every public call of the library, and what it takes and answers. None has a `requires`.
#![tactic(auto)]

pub use appending::{Appended, append, assign, start};
pub use epoch::{Motion, Point, Shifted, Triple, epoch_of, shift};
pub use erasing::{erase, wipe};
pub use fit::{Resolved, resolve};
pub use listing::{Listed, fill};
pub use reading::{Entry, Item, Reading, Step};
pub use record::{Extent, Live, Refusal, Told, tell};
pub use register::{Declared, EntryNumber, Place, Register, Row, uri_of};
pub use slow::{Held, Move, Outcome, Slow, Taken};
