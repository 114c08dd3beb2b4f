// One transition of decoding.
ghost use Rattle.std.specs.Prelude.{◌≡◌, ◌<◌, length, take, codes, IfOk, OnErr, Some};
ghost use Rattle.lsp_frame.specs.Blocks.{headers_in};
ghost use Rattle.lsp_frame.specs.Kept.{IsLooked, IsBodyHere};
ghost use Rattle.lsp_frame.specs.Transitions.{transition as transition_of, at_frame as frame_transition, at_head as head_transition, at_skip as skip_transition, at_place as search_transition, first_place, go, fault as fault_item};
ghost use Rattle.lsp_frame.specs.Shown.{show_transition, IsWithinBytes, IsItemFloatFree};

use crate::block::block_len;
use crate::body::body_message;
use crate::decode_state::DecodeState;
use crate::head::head_of;
use crate::headers::content_length;
use crate::limits::Limits;
use crate::message_reader::MessageReader;
use crate::parse_error::ParseError;
use crate::plain_head::read_plain_head;
use crate::settings::CodecSettings;
use lsp_rpc::Message;
use memchr::memmem;
use no_memory::NoMemory;
use std::alloc::Global;

// Decoding stops, or finds that the input ends inside a frame, or goes on in a state after so
// many bytes.
#[derive(Drop)]
pub enum Transition {
    Stop,
    Unfinished,
    Go(Option<Result<Message, ParseError>>, DecodeState, usize),
}

fn at_search(bytes: &[u8]) -> Transition
    ensures value { show_transition result
        ≡ search_transition (first_place (codes "Content-Length") bytes.now) }
    ensures within { IsWithinBytes (length bytes.now) result }
    ensures floats { IsItemFloatFree result }
{
    match memmem::find(bytes, b"Content-Length") {
        Some(place) => Transition::Go(None, DecodeState::Frame, place),
        None => Transition::Stop,
    }
}

fn at_skip(len: u64, bytes: &[u8]) -> Transition
    ensures value { show_transition result ≡ skip_transition len bytes.now }
    ensures within { IsWithinBytes (length bytes.now) result }
    ensures floats { IsItemFloatFree result }
{
    if (bytes.len() as u64) < len {
        return Transition::Stop;
    }
    Transition::Go(None, DecodeState::Frame, len as usize)
}

// A fault, after which the next `Content-Length` is looked for from so many bytes on.
fn search_after(fault: ParseError, len: usize) -> Transition
    ensures { show_transition result ≡ go (Some (fault_item fault)) DecodeState.Search len }
{
    Transition::Go(Some(Err(fault)), DecodeState::Search, len)
}

// The transition at a whole block.
fn at_head(limits: Limits, block: &[u8]) -> Transition
    requires { 0 < length block.now }
    ensures value { show_transition result
        ≡ head_transition limits (length block.now) (headers_in 2 block.now) }
    ensures within { IsWithinBytes (length block.now) result }
    ensures floats { IsItemFloatFree result }
{
    let Some(head) = head_of(block) else {
        return search_after(ParseError::Headers, 1);
    };
    match content_length(block, &head) {
        Err(fault) => search_after(fault, block.len()),
        Ok(None) => search_after(ParseError::MissingContentLength, 1),
        Ok(Some(len)) if limits.body < len => Transition::Go(
            Some(Err(ParseError::BodyTooLong)),
            DecodeState::Skip(len),
            block.len(),
        ),
        Ok(Some(len)) => Transition::Go(None, DecodeState::Body(len), block.len()),
    }
}

// At most so many bytes of the front.
fn front(bytes: &[u8], len: u64) -> &[u8]
    ensures { result.now ≡ take len bytes.now }
{
    if (bytes.len() as u64) < len {
        bytes
    } else {
        &bytes[..len as usize]
    }
}

// The transition where a frame begins, by the block at the front; `looked` tells how far its empty
// line was looked for.
fn at_block(limits: Limits, bytes: &[u8], looked: &mut usize) -> Transition
    requires some { 0 < length bytes.now }
    requires clear { IsLooked bytes.now looked.old }
    ensures value { show_transition result ≡ frame_transition limits bytes.now }
    ensures within { IsWithinBytes (length bytes.now) result }
    ensures floats { IsItemFloatFree result }
    ensures looked { IsLooked bytes.now looked.new }
{
    let front = front(bytes, limits.head);
    match block_len(front, *looked) {
        Some(len) => {
            *looked = len.saturating_sub(2);
            at_head(limits, &bytes[..len])
        }
        None => {
            *looked = front.len().saturating_sub(1);
            if (bytes.len() as u64) < limits.head {
                Transition::Unfinished
            } else {
                search_after(ParseError::HeadTooLong, 1)
            }
        }
    }
}

// The transition of this state. A body that is empty tells nothing.
pub(crate) fn transition_at(
    alloc: Global,
    reader: &mut MessageReader,
    settings: CodecSettings,
    state: DecodeState,
    bytes: &[u8],
    looked: &mut usize,
) -> Result<Transition, NoMemory>
    requires { IsLooked bytes.now looked.old }
    ensures value { IfOk result (λ t. show_transition t ≡ transition_of settings state bytes.now) }
    ensures within { IfOk result (λ t. IsWithinBytes (length bytes.now) t) }
    ensures floats { IfOk result (λ t. IsItemFloatFree t) }
    ensures looked { IsLooked bytes.now looked.new }
    ensures memory { OnErr result (IsBodyHere state bytes.now) }
{
    match state {
        DecodeState::Frame => {
            if bytes.is_empty() {
                return Ok(Transition::Stop);
            }
            // A head of the usual form needs no grammar; a body that is too long is skipped.
            let limits = settings.limits;
            let Some(head) = read_plain_head(bytes, limits.head) else {
                return Ok(at_block(limits, bytes, looked));
            };
            if limits.body < head.len {
                let fault = Some(Err(ParseError::BodyTooLong));
                return Ok(Transition::Go(fault, DecodeState::Skip(head.len), head.size));
            }
            Ok(Transition::Go(None, DecodeState::Body(head.len), head.size))
        }
        DecodeState::Search => Ok(at_search(bytes)),
        DecodeState::Body(len) => {
            if (bytes.len() as u64) < len {
                return Ok(Transition::Unfinished);
            }
            if len == 0 {
                return Ok(Transition::Go(None, DecodeState::Frame, 0));
            }
            let size = len as usize;
            let found = body_message(alloc, reader, settings.floats, &bytes[..size])?;
            Ok(Transition::Go(Some(found), DecodeState::Frame, size))
        }
        DecodeState::Skip(len) => Ok(at_skip(len, bytes)),
    }
}
