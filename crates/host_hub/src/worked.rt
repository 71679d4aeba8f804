//! Worked records: each is kept, and shows what it should. Each function does nothing, and its contract is the law.

ghost use Rattle.std.specs.Prelude.{◌≡◌, ◌++◌, [], ◌∷◌, Some, codes, length, neg_ℤ, pos};
ghost use Rattle.host_hub.specs.declared.outcome.End.TheVariants as end;
ghost use Rattle.host_hub.specs.declared.outcome.Outcome.TheVariants as outcome;
ghost use Rattle.host_hub.specs.Book.{outcome_of};
ghost use Rattle.host_hub.specs.Calls.{All};
ghost use Rattle.host_hub.specs.Hand.{ended, start};
ghost use Rattle.host_hub.specs.Joined.{IsPlain, IsServed, IsSimple};
ghost use Rattle.host_hub.specs.Status.{poll, service};
ghost use Rattle.host_hub.specs.WorkedStatus.{status_record};
ghost use Rattle.host_hub.specs.Law.{Kept};
ghost use Rattle.host_hub.specs.Pieces.{got};
ghost use Rattle.host_hub.specs.Plan.{message_end};
ghost use Rattle.host_hub.specs.Record.{book};
ghost use Rattle.host_hub.specs.declared.book.BookEntry.TheVariants as entry;
ghost use Rattle.host_hub.specs.WorkedStops.{race_record, cancel_record, aborted_record, split_record, unanswered_record};
ghost use Rattle.host_hub.specs.Worked.{setting, identity, values, query_record, full_record, limited_record, unplugged_record, dropped_record, halted_record};

/// `*IDN?` is answered in one read, and nothing disturbs it.
pub fn a_query_is_answered()
    ensures kept { Kept setting query_record }
    ensures outcome { outcome_of 1 query_record ≡ outcome.Complete }
    ensures bytes { got 1 query_record ≡ identity }
    ensures last { message_end 1 query_record ≡ 1 }
    ensures simple { IsSimple setting }
    ensures plain { All IsPlain query_record }
    ensures served { All IsServed query_record }
{}

/// A response of 4,084 bytes fills the first read of its transfer, and the second one ends it.
pub fn a_read_is_filled()
    ensures kept { Kept setting full_record }
    ensures outcome { outcome_of 1 full_record ≡ outcome.Complete }
    ensures bytes { got 1 full_record ≡ values }
{}

/// A response that is longer than its limit ends there, and the next ask has bytes of its own.
pub fn a_limit_is_reached()
    ensures kept { Kept setting limited_record }
    ensures limited { outcome_of 1 limited_record ≡ outcome.Limit }
    ensures front { got 1 limited_record ≡ codes "EXAMPLE,TMC1,0,1.0" }
    ensures complete { outcome_of 2 limited_record ≡ outcome.Complete }
    ensures bytes { got 2 limited_record ≡ codes "132" ++ 10 ∷ [] }
    ensures last { message_end 2 limited_record ≡ 4 }
{}

/// The device is unplugged: the hub ends, and each live ticket settles so, whether it has begun or not.
pub fn a_device_is_unplugged()
    ensures kept { Kept setting unplugged_record }
    ensures ended { ended unplugged_record ≡ Some end.Unplugged }
    ensures first { outcome_of 1 unplugged_record ≡ outcome.Unplugged }
    ensures third { outcome_of 3 unplugged_record ≡ outcome.Unplugged }
    ensures last { message_end 1 unplugged_record ≡ 1 }
    ensures none { message_end 3 unplugged_record ≡ 0 }
{}

/// A ticket that waits behind another is cancelled: it settles so, and the other goes on.
pub fn a_ticket_is_dropped()
    ensures kept { Kept setting dropped_record }
    ensures dropped { outcome_of 2 dropped_record ≡ outcome.Cancelled }
    ensures none { message_end 2 dropped_record ≡ 0 }
    ensures live { outcome_of 1 dropped_record ≡ outcome.Live }
    ensures book { book setting dropped_record ≡ record { entry = entry.Asked 1; written = 0; taken = 0 } ∷ record { entry = entry.Asked 2; written = 1; taken = 0 }
        ∷ record { entry = entry.Cancel 2; written = 1; taken = 0 } ∷ record { entry = entry.Settled 2; written = 1; taken = 0 } ∷ [] }
{}

/// Bulk-IN halts behind the first read of a piece: the ticket has what came, and the hub ends.
pub fn an_endpoint_halts()
    ensures kept { Kept setting halted_record }
    ensures outcome { outcome_of 1 halted_record ≡ outcome.Halted 2 }
    ensures bytes { got 1 halted_record ≡ values }
    ensures ended { ended halted_record ≡ Some (end.DeviceFault (neg_ℤ (pos 32))) }
{}

/// A response that had been sent outruns the unlink of its read: the ticket is complete, with all its bytes, and settles
/// before the unlink is answered.
pub fn a_completion_outruns_an_unlink()
    ensures kept { Kept setting race_record }
    ensures outcome { outcome_of 1 race_record ≡ outcome.Complete }
    ensures bytes { got 1 race_record ≡ 0x31 ∷ 0x0a ∷ [] }
    ensures book { book setting race_record ≡ record { entry = entry.Asked 1; written = 0; taken = 0 }
        ∷ record { entry = entry.Cancel 1; written = 3; taken = 2 } ∷ record { entry = entry.Settled 1; written = 4; taken = 3 } ∷ [] }
{}

/// Or it does not: the ticket is cancelled without bytes, and its response is aborted and drained.
pub fn a_read_is_taken_back()
    ensures kept { Kept setting cancel_record }
    ensures outcome { outcome_of 1 cancel_record ≡ outcome.Cancelled }
    ensures bytes { got 1 cancel_record ≡ [] }
{}

/// A message is taken back in the midst of its transfer and aborted, and the next ask is answered.
pub fn a_message_is_taken_back()
    ensures kept { Kept setting aborted_record }
    ensures cancelled { outcome_of 1 aborted_record ≡ outcome.Cancelled }
    ensures complete { outcome_of 2 aborted_record ≡ outcome.Complete }
    ensures last { message_end 2 aborted_record ≡ 6 }
{}

/// A message of three transfers is taken back behind its first: the device knows no transfer, and is cleared.
pub fn a_split_message_is_cleared()
    ensures kept { Kept setting split_record }
    ensures cancelled { outcome_of 1 split_record ≡ outcome.Cancelled }
    ensures none { message_end 1 split_record ≡ 0 }
    ensures complete { outcome_of 2 split_record ≡ outcome.Complete }
    ensures last { message_end 2 split_record ≡ 8 }
    ensures bytes { got 2 split_record ≡ 0x31 ∷ 0x0a ∷ [] }
{}

/// A command without a response is asked for one and cancelled, and the next ask has its own answer.
pub fn a_command_has_no_response()
    ensures kept { Kept setting unanswered_record }
    ensures cancelled { outcome_of 1 unanswered_record ≡ outcome.Cancelled }
    ensures complete { outcome_of 2 unanswered_record ≡ outcome.Complete }
    ensures bytes { got 2 unanswered_record ≡ codes "132" ++ 10 ∷ [] }
    ensures last { message_end 2 unanswered_record ≡ 8 }
{}

/// A status read whose packet comes before its answer, behind a request for service, which is counted.
pub fn a_status_is_read()
    ensures kept { Kept setting status_record }
    ensures done { outcome_of 1 status_record ≡ outcome.Done }
    ensures outcome { outcome_of 2 status_record ≡ outcome.Status 0x50 }
    ensures service { service status_record ≡ record { count = 1; last = Some 0x50 } }
    ensures poll { poll 2 status_record ≡ 3 }
    ensures start { start 2 status_record ≡ 2 }
{}
