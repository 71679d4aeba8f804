//! The limits of a hub.

ghost use Rattle.std.specs.Prelude.{◌≡◌};

/// The sessions of a hub, numbered from 0.
pub const SESSIONS: u8 = 16;

/// The longest message, in bytes.
pub const MESSAGE_MAX: usize = 4_096;

/// The greatest limit of an ask, in bytes.
pub const LIMIT_MAX: u32 = 65_535;

/// The most tickets of a hub.
pub const TICKETS_MAX: u32 = 65_536;

/// The most that the limits of a hub's asks may sum to, in bytes.
pub const LIMITS_MAX: u32 = 268_435_456;

/// The greatest next sequence number with which a hub still takes an ask: 4,096 submits are left.
pub const LAST_ASK: u32 = 0xFFFF_EF01;

/// The most submits of a ticket on one bulk endpoint that a hub may have out at once.
pub const MAX_DEPTH: u8 = 1;

/// The limits by their numbers. The definitions cite a limit by its name.
pub fn hub_limits_are_the_products()
    ensures sessions { SESSIONS ≡ 16 }
    ensures message { MESSAGE_MAX ≡ 4096 }
    ensures limit { LIMIT_MAX ≡ 65535 }
    ensures tickets { TICKETS_MAX ≡ 65536 }
    ensures limits { LIMITS_MAX ≡ 268435456 }
    ensures last { LAST_ASK ≡ 0xFFFFEF01 }
    ensures depth { MAX_DEPTH ≡ 1 }
{}
