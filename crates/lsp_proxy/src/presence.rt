//! Which editors are still here.
ghost use Rattle.std.specs.Prelude.{◌≡◌, ◌<◌, ◌^◌, ◌==◌, ◌||◌, length, slice_get, unwrap_or};
ghost use Rattle.lsp_proxy.specs.Proxy.{is_gone, lowest, is_editor, are_gone_but};

use crate::side::Presence;

impl Presence {
    pub(crate) fn is_gone(self) -> bool
        ensures { result ≡ is_gone self }
    {
        match self {
            Presence::Gone => true,
            _ => false,
        }
    }
}

/// Where editor k stands; one that isn't known is gone.
pub(crate) fn presence_of(editors: &[Presence], k: u32) -> Presence
    ensures { result ≡ unwrap_or (slice_get editors.now k) Presence.Gone }
{
    match editors.get(k as usize) {
        Some(presence) => *presence,
        None => Presence::Gone,
    }
}

/// The lowest editor that isn't gone.
pub(crate) fn lowest_of(editors: &[Presence]) -> Option<u32>
    requires { length editors.now < 2 ^ 32 }
    ensures { result ≡ lowest editors.now }
{
    let mut k = 0;
    for presence in editors {
        if !presence.is_gone() {
            return Some(k);
        }
        k += 1;
    }
    None
}

/// Whether editor k is the lowest that isn't gone.
pub(crate) fn is_lowest(editors: &[Presence], k: u32) -> bool
    requires { length editors.now < 2 ^ 32 }
    ensures { result ≡ is_editor (lowest editors.now) k }
{
    match lowest_of(editors) {
        Some(lowest) => lowest == k,
        None => false,
    }
}

fn is_k_or_gone(j: u32, k: u32, presence: Presence) -> bool
    ensures { result ≡ (j == k) || is_gone presence }
{
    j == k || presence.is_gone()
}

/// Whether every editor but k is gone.
pub(crate) fn are_others_gone(editors: &[Presence], k: u32) -> bool
    requires { length editors.now < 2 ^ 32 }
    ensures { result ≡ are_gone_but k 0 editors.now }
{
    let mut j = 0;
    for presence in editors {
        if !is_k_or_gone(j, k, *presence) {
            return false;
        }
        j += 1;
    }
    true
}
