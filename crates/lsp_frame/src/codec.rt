// The codec.
ghost use Rattle.std.specs.Prelude.{◌≡◌, ◌≢◌, ◌↔◌, ◌≤◌, ◌++◌, [], ◌∷◌, ℕ, List, length, IfOk, IfSome, IsOk, OnOk, OnErr, None, option_map, false};
ghost use Rattle.lsp_rpc.specs.Back.{IsReadable};
ghost use Rattle.lsp_rpc.specs.Message.{message_has_float};
ghost use Rattle.lsp_rpc.specs.Shown.{show_message};
ghost use Rattle.lsp_frame.specs.declared.limits.Limits.{Limits as AnyLimits};
ghost use Rattle.lsp_frame.specs.Transitions.{fault, message as message_item};
ghost use Rattle.lsp_frame.specs.Items.{start, start_by, more, items, items_at, told_at, with_item, IsOfBody, IsWaiting, most_held, AreLimits, default_limits};
ghost use Rattle.lsp_frame.specs.Places.{ComesTo, HoldsEnd, IsStateAfter};
ghost use Rattle.lsp_frame.specs.Frames.{frame_text, IsWithin, IsReadBack};
ghost use Rattle.lsp_frame.specs.Shown.{shown, DecodedIsFloatFree};

use crate::decode_state::DecodeState;
use crate::encode::push_message;
use crate::limits::Limits;
use crate::message_reader::MessageReader;
use crate::next_item::find_next;
use crate::parse_error::ParseError;
use crate::settings::CodecSettings;
use bytes::BytesMut;
use lsp_rpc::Message;
use lsp_text::Floats;
use no_memory::NoMemory;
use std::alloc::Global;
use std::marker::Model;

/// What the bytes fed tell next.
#[derive(Drop)]
pub enum Decoded {
    /// A message.
    Item(Message),
    /// A stretch that gives no message.
    Fault(ParseError),
    /// All is told that the bytes fed tell.
    More,
}

/// Reads messages from bytes that come in pieces, and writes messages, each in its frame.
///
/// A contract sees the settings, the state and the bytes held. After `NoMemory` nothing has changed,
/// and the call may be made again.
#[derive(Drop)]
pub struct LanguageServerCodec {
    bytes: BytesMut,
    state: DecodeState,
    // How far the bytes were looked through for the empty line that ends a head.
    looked: usize,
    settings: CodecSettings,
    alloc: Global,
    // Keeps the room that a body takes for the next.
    reader: MessageReader,
}

impl Model for LanguageServerCodec {
    ghost use Rattle.lsp_frame.specs.Items.{At};
    ghost use Rattle.lsp_frame.specs.Kept.{IsLooked, IsAllowed};

    ghost Value = { At };

    ghost view = { λ s. record { settings = s.settings; state = s.state; held = s.bytes.items } };

    ghost invariant = { λ s. IsLooked s.bytes.items s.looked × IsAllowed s.settings.limits s.state };
}

impl LanguageServerCodec {
    /// A codec that was fed nothing, with the default limits, which lets no float in.
    pub fn default(alloc: Global) -> LanguageServerCodec
        ensures { result ≡ start default_limits }
    {
        LanguageServerCodec::with_limits(alloc, Limits::default())
    }

    /// A codec that was fed nothing, with these limits, which lets no float in.
    pub fn with_limits(alloc: Global, limits: Limits) -> LanguageServerCodec
        requires { AreLimits limits }
        ensures { result ≡ start limits }
    {
        let floats = Floats::Refused;
        LanguageServerCodec::with_settings(alloc, CodecSettings { limits, floats })
    }

    /// A codec that was fed nothing, with these settings.
    pub fn with_settings(alloc: Global, settings: CodecSettings) -> LanguageServerCodec
        requires { AreLimits settings.limits }
        ensures { result ≡ start_by settings }
    {
        LanguageServerCodec {
            bytes: BytesMut::new(alloc),
            state: DecodeState::Frame,
            looked: 0,
            settings,
            alloc,
            reader: MessageReader::new(),
        }
    }

    /// The same codec, by which bodies with floats are read so from here on.
    pub fn floats(self, floats: Floats) -> LanguageServerCodec
        ensures { result ≡ record self { settings = record self.settings { floats = floats } } }
    {
        let limits = self.settings.limits;
        LanguageServerCodec {
            bytes: self.bytes,
            state: self.state,
            looked: self.looked,
            settings: CodecSettings { limits, floats },
            alloc: self.alloc,
            reader: self.reader,
        }
    }

    /// How many bytes are held: the last of those fed, from the place on at which decoding stands.
    /// After a message these are the bytes after its body.
    pub fn held(&self) -> u64
        ensures { result ≡ length self.now.held }
    {
        self.bytes.len() as u64
    }

    /// Appends a piece, which may be empty, to the bytes fed.
    pub fn feed(&mut self, piece: &[u8]) -> Result<(), NoMemory>
        ensures ok { OnOk result (self.new ≡ more self.old piece.now) }
        ensures err { OnErr result (self.new ≡ self.old) }
    {
        self.bytes.extend_from_slice(piece)?;
        Ok(())
    }

    /// The next item that the bytes fed tell, or `More` where all of them are given.
    ///
    /// After an item what is held begins where decoding goes on: after the body, whether it gave a
    /// message or not; after a fault of a head with the bytes in which the next `Content-Length` is
    /// looked for; after a head whose body is too long with that body, which is skipped. After
    /// `More` at most the greatest of 13 bytes and the two limits are held.
    pub fn decode(&mut self) -> Result<Decoded, NoMemory>
        // The item is the first of those that are left, whatever bytes may follow.
        ensures items { IfOk result (λ d. (c : List ℕ)
            → items_at (more self.old c) ≡ with_item (shown d) (items_at (more self.new c))) }
        ensures told { IfOk result (λ d. (c : List ℕ)
            → told_at (more self.old c) ≡ with_item (shown d) (told_at (more self.new c))) }
        // Decoding goes from transition to transition up to the first that tells an item, and
        // stands where that one goes on; or to where it stops, and drops what it needs no more.
        ensures place { IfOk result (λ d. ComesTo self.old (shown d) self.new) }
        // So what is held is the end of what was held, and after a message a frame begins with it.
        ensures rest { OnOk result (HoldsEnd self.old self.new) }
        ensures after { IfOk result (λ d. IfSome (shown d)
            (λ x. IsStateAfter self.new.settings.limits x self.new.state)) }
        // `More` comes exactly where nothing is told, and then nothing is told until more is fed.
        ensures more { IfOk result (λ d. (shown d ≡ None) ↔ (told_at self.old ≡ [])) }
        ensures waits { IfOk result (λ d. shown d ≡ None → told_at self.new ≡ []) }
        // Then decoding went on as far as it can, and what it needs no more isn't held.
        ensures trimmed { IfOk result (λ d. shown d ≡ None → IsWaiting self.new) }
        ensures held { IfOk result (λ d. shown d ≡ None
            → length self.new.held ≤ most_held self.new.settings.limits) }
        ensures floats { IfOk result (λ d. DecodedIsFloatFree d) }
        ensures settings { OnOk result (self.new.settings ≡ self.old.settings) }
        ensures err { OnErr result (self.new ≡ self.old) }
        // Memory is taken for an item alone, and that is a message or a text's fault, so no faulty
        // head and no body that isn't UTF-8 asks for any.
        ensures memory { OnErr result (told_at self.old ≢ []) }
        ensures body { OnErr result (IsOfBody (told_at self.old)) }
    {
        let next = find_next(
            self.alloc,
            &mut self.reader,
            self.settings,
            self.state,
            self.bytes.as_slice(),
            self.looked,
        )?;
        self.bytes.advance(next.consumed);
        self.state = next.state;
        self.looked = next.looked;
        let decoded = match next.item {
            Some(Ok(message)) => Decoded::Item(message),
            Some(Err(fault)) => Decoded::Fault(fault),
            None => Decoded::More,
        };
        Ok(decoded)
    }

    /// The fault of an input that ends here: `Rest` where it ends inside a frame.
    pub fn finish(&mut self) -> Result<Option<ParseError>, NoMemory>
        requires { told_at self.old ≡ [] }
        ensures items { IfOk result (λ r. items_at self.old ≡ with_item (option_map fault r) []) }
        ensures rest { IfOk result (λ r. IfSome r (λ e. e ≡ ParseError.Rest)) }
        ensures same { self.new ≡ self.old }
        // No memory is taken.
        ensures memory { IsOk result }
    {
        let next = find_next(
            self.alloc,
            &mut self.reader,
            self.settings,
            self.state,
            self.bytes.as_slice(),
            self.looked,
        )?;
        drop(next.item);
        if next.unfinished {
            return Ok(Some(ParseError::Rest));
        }
        Ok(None)
    }

    /// Appends the frame of the message, whose values hold no float.
    pub fn encode(&mut self, message: &Message, out: &mut BytesMut) -> Result<(), NoMemory>
        requires { message_has_float (show_message message.now) ≡ false }
        ensures ok { OnOk result (out.new.items
            ≡ out.old.items ++ frame_text (show_message message.now)) }
        ensures err { OnErr result (out.new.items ≡ out.old.items) }
        ensures same { self.new ≡ self.old }
        // The text is read back as the message, where the message can be read back: it nests at
        // most 127 deep, an error's data isn't null, and a code that a variant names is that
        // variant.
        ensures read_back { OnOk result (IsReadable (show_message message.now)
            → IsReadBack (show_message message.now)) }
        // Then what is written is read, within its limits, as the message alone.
        ensures reads_back { OnOk result (IsReadable (show_message message.now)
            → (limits : AnyLimits) → IsWithin limits (show_message message.now)
            → items limits (frame_text (show_message message.now))
            ≡ message_item (show_message message.now) ∷ []) }
    {
        push_message(self.alloc, message, out)
    }
}
