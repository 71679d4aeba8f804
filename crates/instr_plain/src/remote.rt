ghost use Rattle.std.specs.Prelude.{◌≡◌};
ghost use Rattle.instr_plain.specs.Remote.{remote_behind};
ghost use Rattle.instr_plain.specs.Outcome.{number_of};

/// Who may operate the instrument (IEEE 488.1, section 2.8, the function RL1).
#[derive(Clone, Copy, Debug, PartialEq, Eq)]
pub enum RemoteState {
    /// Its own controls do.
    Local,
    /// The bus does, until someone uses the controls.
    Remote,
    /// The controls do, and will not once it is remote.
    LocalLockout,
    /// The bus alone does.
    RemoteLockout,
}

/// What changes who may operate the instrument (USB488, section 4.3).
#[derive(Clone, Copy, Debug, PartialEq, Eq)]
pub enum RemoteAct {
    /// Remote operation is enabled, and the instrument addressed.
    On,
    /// Remote operation is disabled.
    Off,
    /// The instrument goes to local.
    GoLocal,
    /// The controls are locked out.
    Lockout,
}

impl RemoteState {
    /// The state behind an act.
    pub(crate) fn behind(self, act: RemoteAct) -> RemoteState
        ensures { result ≡ remote_behind self act }
    {
        match (self, act) {
            (_, RemoteAct::Off) => RemoteState::Local,
            (RemoteState::Local | RemoteState::Remote, RemoteAct::GoLocal) => RemoteState::Local,
            (_, RemoteAct::GoLocal) => RemoteState::LocalLockout,
            (RemoteState::Local | RemoteState::Remote, RemoteAct::On) => RemoteState::Remote,
            (_, RemoteAct::On) => RemoteState::RemoteLockout,
            (RemoteState::Local | RemoteState::LocalLockout, RemoteAct::Lockout) => {
                RemoteState::LocalLockout
            }
            (_, RemoteAct::Lockout) => RemoteState::RemoteLockout,
        }
    }

    /// The number that `RL?` answers.
    pub(crate) fn number(self) -> u8
        ensures { result ≡ number_of self }
    {
        match self {
            RemoteState::Local => 0,
            RemoteState::Remote => 1,
            RemoteState::LocalLockout => 2,
            RemoteState::RemoteLockout => 3,
        }
    }
}
