// The transitions up to the next item.
ghost use Rattle.std.specs.Prelude.{◌≡◌, ◌≢◌, ◌≤◌, ◌+◌, ◌++◌, ◌⊎◌, [], ℕ, List, length, drop, option_map, IfOk, OnErr, None, if◌then◌else◌};
ghost use Rattle.lsp_frame.specs.Transitions.{Item, transition as transition_of};
ghost use Rattle.lsp_frame.specs.Items.{all_from, with_item, GoesNowhere, IsOfBody, IsTrimmed};
ghost use Rattle.lsp_frame.specs.Kept.{IsLooked, IsAllowed};
ghost use Rattle.lsp_frame.specs.Places.{codec_at, ComesTo};
ghost use Rattle.lsp_frame.specs.Shown.{show_found, IsFoundFloatFree};

use crate::decode_state::DecodeState;
use crate::message_reader::MessageReader;
use crate::parse_error::ParseError;
use crate::settings::CodecSettings;
use crate::transition::{Transition, transition_at};
use lsp_rpc::Message;
use no_memory::NoMemory;
use std::alloc::Global;

// The next item, if there is one, and where decoding stands after it.
#[derive(Drop)]
pub(crate) struct Next {
    pub item: Option<Result<Message, ParseError>>,
    // Whether the input, if it ends here, ends inside a frame.
    pub unfinished: bool,
    pub state: DecodeState,
    // How many bytes are needed no more.
    pub consumed: usize,
    // How far the bytes after those were looked through for an empty line.
    pub looked: usize,
}

// With so many bytes at the end a `Content-Length` may begin that goes on after them.
const KEPT: usize = 13;

// Makes the transitions from the front of the bytes up to the first that gives an item, or that
// gives none and goes on nowhere.
pub(crate) fn find_next(
    alloc: Global,
    reader: &mut MessageReader,
    settings: CodecSettings,
    state: DecodeState,
    bytes: &[u8],
    looked: usize,
) -> Result<Next, NoMemory>
    requires clear { IsLooked bytes.now looked }
    requires allowed { IsAllowed settings.limits state }
    ensures within { IfOk result (λ r. r.consumed ≤ length bytes.now) }
    ensures place { IfOk result (λ r. ComesTo (codec_at settings state bytes.now)
        (option_map show_found r.item)
        (codec_at settings r.state (drop r.consumed bytes.now))) }
    ensures goes { IfOk result (λ r. (last : List Item) (c : List ℕ)
        → all_from settings last state (bytes.now ++ c)
        ≡ with_item (option_map show_found r.item) (all_from settings last r.state
        (drop r.consumed bytes.now ++ c))) }
    ensures ends { IfOk result (λ r. r.item ≡ None → (last : List Item)
        → all_from settings last r.state (drop r.consumed bytes.now)
        ≡ (if r.unfinished then last else [])) }
    ensures waits { IfOk result (λ r. r.item ≡ None
        → GoesNowhere (transition_of settings r.state (drop r.consumed bytes.now))
        × IsTrimmed r.state (drop r.consumed bytes.now)) }
    ensures allowed { IfOk result (λ r. IsAllowed settings.limits r.state) }
    ensures clear { IfOk result (λ r. IsLooked (drop r.consumed bytes.now) r.looked) }
    ensures floats { IfOk result (λ r. IsFoundFloatFree r.item) }
    ensures memory { OnErr result (all_from settings [] state bytes.now ≢ []) }
    ensures body { OnErr result (IsOfBody (all_from settings [] state bytes.now)) }
{
    let mut at = state;
    let mut place = 0;
    let mut reached = looked;
    'transitions: loop {
        match transition_at(alloc, reader, settings, at, &bytes[place..], &mut reached)? {
            Transition::Stop => {
                // What a search or a skip needs no more is dropped.
                let len = bytes.len() - place;
                let (state, n) = match at {
                    DecodeState::Search => (at, len.saturating_sub(KEPT)),
                    DecodeState::Skip(left) => {
                        (DecodeState::Skip(left.saturating_sub(len as u64)), len)
                    }
                    DecodeState::Frame | DecodeState::Body(_) => (at, 0),
                };
                return Ok(Next {
                    item: None,
                    unfinished: false,
                    state,
                    consumed: place + n,
                    looked: reached.saturating_sub(n),
                });
            }
            Transition::Unfinished => {
                return Ok(Next {
                    item: None,
                    unfinished: true,
                    state: at,
                    consumed: place,
                    looked: reached,
                });
            }
            Transition::Go(item, to, n) => {
                at = to;
                place += n;
                reached = reached.saturating_sub(n);
                if let Some(found) = item {
                    return Ok(Next {
                        item: Some(found),
                        unfinished: false,
                        state: at,
                        consumed: place,
                        looked: reached,
                    });
                }
            }
        }
    }
}
