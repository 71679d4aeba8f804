//! The limits of the bench link, each in bytes.

ghost use Rattle.std.specs.Prelude.{◌≡◌};

/// The longest response of the instrument.
pub const RESPONSE_MAX: usize = 65_535;

/// The length of each Bulk-IN submit of the host.
pub const BULK_IN_SUBMIT: u32 = 4_096;

/// The longest submit that a reader accepts.
pub const SUBMIT_MAX: u32 = 70_000;

/// The limits by their numbers. The definitions of every crate cite a limit by its name.
pub fn limits_are_the_products()
    ensures response { RESPONSE_MAX ≡ 65535 }
    ensures bulk_in { BULK_IN_SUBMIT ≡ 4096 }
    ensures submit { SUBMIT_MAX ≡ 70000 }
{}
