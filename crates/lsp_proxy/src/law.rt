//! What holds over any list of messages.
ghost use Rattle.std.specs.Prelude.{ℕ, List, ◌≤◌, ◌≡◌, Some, true, IsTrue};
ghost use Rattle.lsp_rpc.specs.Message.{IdData, RequestData, request};
ghost use Rattle.lsp_proxy.specs.declared.side.Side.{Side as SideOf};
ghost use Rattle.lsp_proxy.specs.declared.side.Side.TheVariants.{Editor, Server};
ghost use Rattle.lsp_proxy.specs.Law.{OnlySends, Event, react, sent_over, request_ids, AreDistinct, responses_at, requests_at, GoesToOneHere, is_here_after, IsTaken, is_cancel, CancelsAsked, CancelsRequested};
ghost use Rattle.std.specs.List.{AllByRecursion};
ghost use Rattle.lsp_proxy.specs.Origin.{HasOrigin, state_of};
ghost use Rattle.lsp_proxy.specs.Proxy.{ProxyState, opening_state};

/// No two requests that a proxy sends have one id, whichever side they go to.
pub fn ids_differ()
    ensures { (editors : ℕ) (events : List Event)
        → AreDistinct (request_ids (sent_over events (opening_state editors))) }
{}

/// The server and each editor get at most as many responses under an id as they sent requests
/// under it.
pub fn responses_asked()
    ensures { (editors : ℕ) (events : List Event) (side : SideOf) (i : IdData)
        → responses_at side i (sent_over events (opening_state editors))
        ≤ requests_at side i events }
{}

/// Each response that an editor gets is the proxy's own, at its request under that id, or the body
/// of the response that the server gives now: its first to that request, or its first to an
/// `initialize` that was passed on, where the editor has sent one under that id since, or sent that
/// one. A history has the latest message first.
pub fn responses_come()
    ensures { (editors : ℕ) (history : List Event) (event : Event)
        → AllByRecursion (HasOrigin editors history event)
        (react event (state_of editors history)).1 }
{}

/// Nothing goes to an editor that has sent `exit`, or that isn't below the number of editors.
pub fn gone_hear_nothing()
    ensures { (editors : ℕ) (history : List Event) (event : Event)
        → AllByRecursion (GoesToOneHere editors history)
        (react event (state_of editors history)).1 }
{}

/// Each request of another editor is passed on and alone is sent, or waits for the response to
/// `initialize`, or is answered.
pub fn requests_taken()
    ensures { (editors : ℕ) (history : List Event) (k : ℕ) (r : RequestData) (i : IdData)
        → r.id ≡ Some i → IsTrue (is_here_after editors history k)
        → let s = state_of editors history in
        IsTaken r (record { editor = k; id = i }) s (react (Editor k, request r) s) }
{}

/// What an editor's cancel sends carries the number of an open request of that editor under the id
/// that it names, and the proxy stays as it was: the request is still open.
pub fn editor_cancels_its_own()
    ensures { (s : ProxyState) (k : ℕ) (r : RequestData) → is_cancel r ≡ true
        → OnlySends s (CancelsAsked k r s) (react (Editor k, request r) s) }
{}

/// What the server's cancel sends carries the number of an open request of the server under the id
/// that it names, and goes to the editor that has it. The proxy stays as it was.
pub fn server_cancels_its_own()
    ensures { (s : ProxyState) (r : RequestData) → is_cancel r ≡ true
        → OnlySends s (CancelsRequested r s) (react (Server, request r) s) }
{}
