//! A proxy that takes its messages from the items of a stream, and frames what it sends.
ghost use Rattle.std.specs.Prelude.{◌≡◌, ◌≢◌, ◌<◌, ◌^◌, ◌++◌, [], ◌∷◌, None, true, false, length, IfOk, OnOk, OnErr, IsOk};
ghost use Rattle.lsp_frame.specs.Codec.{message as message_item, items_at, told_at};
ghost use Rattle.lsp_rpc.specs.Message.{message_has_float};
ghost use Rattle.lsp_rpc.specs.Shown.{show_message};
ghost use Rattle.lsp_proxy.specs.Law.{react};
ghost use Rattle.lsp_proxy.specs.Outgoing.{expanded};
ghost use Rattle.lsp_proxy.specs.Sent.{all_sent};
ghost use Rattle.lsp_proxy.specs.Shown.{show_proxy};
ghost use Rattle.lsp_relay.specs.Floats.{AreFloatFree, opening_has_float};
ghost use Rattle.lsp_relay.specs.Notes.{event_of_message};
ghost use Rattle.lsp_relay.specs.Relay.{opening_place, TookItems, sent_frames, events};
ghost use Rattle.lsp_relay.specs.Sends.{SendsBytes};

use crate::broadcast::push_broadcast;
use crate::notes::{event, note};
use crate::reads::Relayed;
use crate::write::send;
use bytes::BytesMut;
use lsp_frame::{Decoded, LanguageServerCodec, push_message};
use lsp_proxy::{Outgoing, Proxy, Sent, Side};
use lsp_rpc::{Message, NoMemory};
use lsp_server::{ServeError, Sink};
use std::alloc::Global;

/// A proxy, what it has relayed, and the frames that wait to be written.
#[derive(Drop)]
pub(crate) struct Carrier {
    alloc: Global,
    pub(crate) editors: u32,
    pub(crate) proxy: Proxy,
    pub(crate) relayed: Relayed,
    pub(crate) waiting: BytesMut,
    ghost float_free: { opening_has_float (show_proxy proxy).opening ≡ false },
    ghost passed_fits: { relayed.passed < 2 ^ 64 },
    ghost dropped_fits: { relayed.dropped < 2 ^ 64 },
}

// What the proxy sends for the message of that side.
fn deliver(proxy: &mut Proxy, side: Side, message: Message) -> Result<Outgoing, NoMemory>
    requires float_free { message_has_float (show_message message) ≡ false }
    requires kept { opening_has_float (show_proxy proxy.old).opening ≡ false }
    ensures state { OnOk result (show_proxy proxy.new
        ≡ (react (side, show_message message) (show_proxy proxy.old)).0) }
    ensures sent { IfOk result (λ sent. expanded sent
        ≡ (react (side, show_message message) (show_proxy proxy.old)).1) }
    ensures float_free { IfOk result (λ sent. AreFloatFree (expanded sent)) }
    ensures kept { opening_has_float (show_proxy proxy.new).opening ≡ false }
{
    match side {
        Side::Server => proxy.server_outgoing(message),
        Side::Editor(k) => Ok(Outgoing::Each(proxy.editor(k, message)?)),
    }
}

// Frames the messages that are sent, each with its side.
fn push_notes(alloc: Global, sent: Sent, out: &mut BytesMut) -> Result<(), NoMemory>
    requires { AreFloatFree (all_sent sent.items) }
    ensures { OnOk result (out.new.items ≡ out.old.items ++ sent_frames (all_sent sent.items)) }
{
    for (side, message) in sent {
        let note = note(alloc, side, message)?;
        push_message(alloc, &note, out)?;
    }
    Ok(())
}

// Frames what is sent. A notification to several editors is written once, and copied.
fn push_sent(alloc: Global, sent: Outgoing, out: &mut BytesMut) -> Result<(), NoMemory>
    requires { AreFloatFree (expanded sent) }
    ensures { OnOk result (out.new.items ≡ out.old.items ++ sent_frames (expanded sent)) }
{
    match sent {
        Outgoing::Each(sent) => push_notes(alloc, sent, out),
        Outgoing::Broadcast(editors, note) => push_broadcast(alloc, &editors, note, out),
    }
}

impl Carrier {
    ghost use Rattle.lsp_relay.specs.Shown.{show_carrier, TakesTold};

    /// A carrier between so many editors and a server, which has taken nothing.
    pub(crate) fn new(alloc: Global, editors: u32) -> Result<Carrier, NoMemory>
        requires { 0 < editors }
        ensures { IfOk result (λ carrier. show_carrier carrier ≡ opening_place editors) }
    {
        Ok(Carrier {
            alloc,
            editors,
            proxy: Proxy::new(alloc, editors)?,
            relayed: Relayed {
                passed: 0,
                dropped: 0,
            },
            waiting: BytesMut::new(alloc),
        })
    }

    // Takes the item that is this message.
    fn take(&mut self, message: Message) -> Result<(), NoMemory>
        requires { message_has_float (show_message message) ≡ false }
        ensures took { OnOk result (TookItems (show_carrier self.old)
            (message_item (show_message message) ∷ []) (show_carrier self.new)) }
        // One that tells no message of a side takes no memory.
        ensures dropped { event_of_message self.old.editors (show_message message) ≡ None
            → IsOk result }
    {
        match event(self.alloc, self.editors, message) {
            Some((side, message)) => {
                let sent = deliver(&mut self.proxy, side, message)?;
                push_sent(self.alloc, sent, &mut self.waiting)?;
                self.relayed.passed = self.relayed.passed.saturating_add(1);
                Ok(())
            }
            None => {
                self.relayed.dropped = self.relayed.dropped.saturating_add(1);
                Ok(())
            }
        }
    }

    // Takes the next item that the codec tells, and says whether there was one.
    fn take_next(&mut self, codec: &mut LanguageServerCodec) -> Result<bool, NoMemory>
        ensures took { OnOk result (TakesTold self.old codec.old self.new codec.new) }
        ensures fewer { IfOk result (λ more. more ≡ true
            → length (told_at codec.new) < length (told_at codec.old)) }
        ensures all { IfOk result (λ more. more ≡ false → told_at codec.new ≡ []) }
        // Memory is taken for an item alone.
        ensures memory { OnErr result (told_at codec.old ≢ []) }
    {
        match codec.decode()? {
            Decoded::Item(message) => {
                self.take(message)?;
                Ok(true)
            }
            Decoded::Fault(_) => {
                self.relayed.dropped = self.relayed.dropped.saturating_add(1);
                Ok(true)
            }
            Decoded::More => Ok(false),
        }
    }

    /// Takes each item that the codec tells.
    pub(crate) fn take_told(&mut self, codec: &mut LanguageServerCodec) -> Result<(), NoMemory>
        ensures took { OnOk result (TakesTold self.old codec.old self.new codec.new) }
        ensures all { OnOk result (told_at codec.new ≡ []) }
        ensures memory { OnErr result (told_at codec.old ≢ []) }
    {
        'items: while self.take_next(codec)? {}
        Ok(())
    }

    /// Takes the fault of an input that ends inside a frame, if it does.
    pub(crate) fn take_end(&mut self, codec: &mut LanguageServerCodec) -> Result<(), NoMemory>
        requires { told_at codec.old ≡ [] }
        ensures took { OnOk result
            (TookItems (show_carrier self.old) (items_at codec.old) (show_carrier self.new)) }
        ensures silent { OnOk result (events self.old.editors (items_at codec.old) ≡ []) }
        // No memory is taken.
        ensures memory { IsOk result }
    {
        match codec.finish()? {
            Some(_) => {
                self.relayed.dropped = self.relayed.dropped.saturating_add(1);
                Ok(())
            }
            None => Ok(()),
        }
    }

    /// Writes the frames that wait.
    pub(crate) fn send<O: Sink>(&mut self, sink: &mut O) -> Result<(), ServeError>
        ensures sent { SendsBytes O.taken O.flushed O.faults O.beside sink.old sink.new
            self.old.waiting.items result }
        ensures none { self.old.waiting.items ≡ [] → IsOk result }
        ensures rest { OnOk result
            (show_carrier self.new ≡ record (show_carrier self.old) { waiting = [] }) }
    {
        send(sink, self.waiting.as_slice())?;
        self.waiting.clear();
        Ok(())
    }
}
