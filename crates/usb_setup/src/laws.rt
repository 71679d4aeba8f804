ghost use Rattle.std.specs.Prelude.{◌≡◌, ℕ, ◌<◌, List, length, slice_index};
ghost use Rattle.usb_setup.specs.declared.setup.Setup.{Setup};
ghost use Rattle.usb_setup.specs.Setup.{setup_layout, Fits};

/// The laws of setup packets (USB 2.0, section 9.3): a setup has eight bytes, all eight bytes are a setup, and no
/// other one has them.
pub fn setups_are_eight_bytes()
    ensures eight { (setup : Setup) → length (setup_layout setup) ≡ 8 }
    ensures every { (bytes : List ℕ) → length bytes ≡ 8 → ((i : ℕ) → slice_index bytes i < 256) →
        (setup : Setup) × Fits setup × (setup_layout setup ≡ bytes) }
    ensures one { (a b : Setup) → Fits a → Fits b → setup_layout a ≡ setup_layout b → a ≡ b }
{}
