//! The objects of the session, and the queues of its two ends.

use wl_message::{Limit, Sizes};
use wl_objects::Object;

pub const DISPLAY: Object = Object { id: 1, birth: 0 };

pub const REGISTRY: Object = Object { id: 2, birth: 1 };

/// The first global that the client binds. The other, the seat, is not used.
pub const COMPOSITOR: Object = Object { id: 3, birth: 2 };

pub const CALLBACK: Object = Object { id: 5, birth: 4 };

/// The surface has the id of the callback, which is gone by then.
pub const SURFACE: Object = Object { id: 5, birth: 5 };

/// The queues of each end.
pub const SIZES: Sizes = Sizes {
    out_bytes: 65_536,
    out_tokens: 64,
    in_bytes: 65_536,
    in_tokens: 64,
    limit: Limit::USUAL,
};
