//! What the instrument of a node does by itself.

ghost use Rattle.std.specs.Prelude.{◌≡◌, ◌≢◌, [], false};
ghost use Rattle.usbip_export.specs.Events.{Drives, IsDeclined, IsDue};

use crate::body::Body;
use crate::spelling::spell_all;
use tmc_device::{DevEvent, Drove};

impl Body {
    ghost use Rattle.usbip_export.specs.Body.{seen_of, IsSound, IsBodySpelled};

    /// Lets the instrument do what the event says, and spells what it puts out. Where memory is wanting for that, answers
    /// wait.
    pub(crate) fn drive(&mut self, event: DevEvent) -> Drove
        requires sound { IsSound self.old }
        ensures sound { IsSound self.new }
        ensures applied { result ≡ Drove.Applied → Drives event (seen_of self.old) (seen_of self.new) }
        ensures none { result ≡ Drove.NotEnabled → IsDeclined event (seen_of self.old) }
        ensures enabled { result ≢ Drove.NotEnabled → IsDue event (seen_of self.old) }
        ensures spelled { result ≡ Drove.Applied → self.new.wanting ≡ false → self.new.device.puts ≡ [] }
        ensures kept { result ≢ Drove.Applied → self.new ≡ self.old }
    {
        if !self.imported || self.refused.is_some() {
            return Drove::NotEnabled;
        }
        match self.device.drive(event) {
            Drove::Applied => {
                self.spell();
                Drove::Applied
            }
            Drove::NotEnabled => Drove::NotEnabled,
            Drove::Memory => Drove::Memory,
        }
    }

    /// Spells what was put out. Where memory is wanting the answers wait.
    fn spell(&mut self)
        ensures off { IsBodySpelled self.old self.new }
        ensures spelled { self.new.wanting ≡ false → self.new.device.puts ≡ [] }
    {
        self.wanting |= spell_all(&mut self.device, &mut self.out).is_err();
    }
}
