ghost use Rattle.std.specs.Prelude.{◌≡◌, true, false};
ghost use Rattle.tmc_base.specs.Faults.{Rose};
ghost use Rattle.tmc_base.specs.Sink.{PutsFront, put_after};
ghost use Rattle.tmc_base.specs.Writing.{WriteRun};

use crate::{Sink, WriteStep};

/// Writes all of `bytes`, and tells whether it could. Each write offers all that is left, and none stands behind one that
/// failed.
pub fn write_all<K: Sink>(sink: &mut K, bytes: &[u8]) -> bool
    ensures whole { result ≡ true → K.put sink.new ≡ put_after bytes.now (K.put sink.old) }
    ensures front { PutsFront bytes.now (K.put sink.old) (K.put sink.new) }
    ensures counts { result ≡ true → K.faults sink.new ≡ K.faults sink.old }
    ensures failed { result ≡ false → Rose (K.faults sink.old) (K.faults sink.new) }
    ensures run { WriteRun K.writes sink.old sink.new result bytes.now }
{
    let mut written = 0;
    'pieces: while written < bytes.len() {
        match sink.write(&bytes[written..]) {
            WriteStep::Took(n) => written += n,
            WriteStep::Failed => return false,
        }
    }
    true
}
