//! What a control submit asks for. The function does nothing, and its contract is the law.

ghost use Rattle.std.specs.Prelude.{◌≡◌, ℕ, List};
ghost use Rattle.usb_setup.specs.declared.setup.Setup.{Setup};
ghost use Rattle.usbip_wire.specs.declared.submit.SubmitHead.{SubmitHead};
ghost use Rattle.tmc_wire.specs.declared.class_request.ClassRequest.{ClassRequest};
ghost use Rattle.tmc_wire.specs.ControlTable.{IsRow};
ghost use Rattle.tmc_law.specs.Endpoint.{ends};
ghost use Rattle.tmc_law.specs.State.{Pending, arrived};
ghost use Rattle.tmc_law.specs.Control.{Asks};
ghost use Rattle.tmc_law.specs.Standard.{Standard, IsStandard};
ghost use Rattle.tmc_law.specs.Queues.{IsSubmit};

use tmc_wire::requests_are_read_again;
use usb_setup::setups_are_eight_bytes;

/// A setup has one meaning: each submit carries one setup packet, which is the row of at most one class request and of at
/// most one standard request, and never of both.
pub fn setups_have_one_meaning()
    ensures carried { (head : SubmitHead) (transferred : List ℕ) → IsSubmit head transferred →
        (setup : Setup) × Asks (arrived head transferred) setup }
    ensures one { (submit : Pending) (a b : Setup) → Asks submit a → Asks submit b → a ≡ b }
    ensures class { (setup : Setup) (a b : ClassRequest) → IsRow ends a setup → IsRow ends b setup → a ≡ b }
    ensures standard { (setup : Setup) (a b : Standard) → IsStandard a setup → IsStandard b setup → a ≡ b }
    ensures apart { (setup : Setup) (a : ClassRequest) (b : Standard) → IsRow ends a setup → IsStandard b setup → ⊥ }
{
    setups_are_eight_bytes();
    requests_are_read_again();
}
