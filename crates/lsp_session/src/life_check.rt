//! What a life lets a layer do, and how a life changes.
ghost use Rattle.std.specs.Prelude.{◌≡◌};
ghost use Rattle.lsp_session.specs.Admission.{check_life as check_def};

use crate::{Layer, Life};

/// What happens to a life.
#[derive(Clone, Copy, Debug, PartialEq, Eq)]
pub enum LifeChange {
    /// It stays.
    Stays,
    /// It rises to this one.
    Rises(Life),
    /// An `initialize` ended without a result.
    Falls,
}

/// What a life lets a layer do.
#[derive(Clone, Copy, Debug, PartialEq, Eq)]
pub enum LifeCheck {
    /// Admission goes on, and this happens to the life.
    Passes(LifeChange),
    /// The server isn't initialized.
    NotInitialized,
    /// The request has no place in this life.
    Invalid,
}

/// What the life lets the layer do. A `shutdown` that passes raises the life.
pub(crate) fn check_life(life: Life, layer: Layer) -> LifeCheck
    ensures { result ≡ check_def life layer }
{
    match (life, layer) {
        (_, Layer::Exit | Layer::Cancel) => LifeCheck::Passes(LifeChange::Stays),
        (Life::Uninitialized, Layer::Initialize) => LifeCheck::Passes(LifeChange::Stays),
        (Life::Uninitialized | Life::Initializing, Layer::Shutdown | Layer::Normal) => {
            LifeCheck::NotInitialized
        }
        (Life::Initialized, Layer::Shutdown) => {
            LifeCheck::Passes(LifeChange::Rises(Life::ShutDown))
        }
        (Life::Initialized, Layer::Normal) => LifeCheck::Passes(LifeChange::Stays),
        _ => LifeCheck::Invalid,
    }
}
