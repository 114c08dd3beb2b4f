ghost use Rattle.std.specs.Prelude.{ℕ, ◌≡◌, ◌≢◌, ◌^◌, ◌<◌, [], Some, None, Err, IsOk, OnOk, OnErr, IfSome, IsSome, length, map, take, string_bytes};
ghost use Rattle.std.specs.Str.{chars, encode_utf8_all, IsCharBoundary};
ghost use Rattle.lsp_documents.specs.Documents.{all_changed, change_of};
ghost use Rattle.lsp_documents.specs.Lines.{place_of, IsPosition};

use crate::change::apply_all;
use crate::error::ChangeError;
use crate::place;
use lsp_base::{Position, TextDocumentContentChangeEvent};
use std::marker::Model;

/// An open document: its version, and its text.
#[derive(Drop)]
pub struct Document {
    version: i32,
    text: String,
}

impl Model for Document {
    ghost use Rattle.std.specs.Prelude.{string_bytes};
    ghost use Rattle.std.specs.Str.{chars};
    ghost use Rattle.lsp_documents.specs.OpenDocument.{OpenDocument};

    ghost Value = { OpenDocument };

    ghost view = { λ d. record { version = d.version; text = chars (string_bytes d.text) } };
}

impl Document {
    /// That version of a document, with its text.
    pub(crate) fn new(version: i32, text: String) -> Document
        ensures { result ≡ record { version = version; text = chars (string_bytes text) } }
    {
        Document { version, text }
    }

    /// The version that the editor gave last. It is kept as it came, also where it went back.
    pub fn version(&self) -> i32
        ensures { result ≡ self.now.version }
    {
        self.version
    }

    /// The text.
    pub fn text(&self) -> &str
        ensures { result.now ≡ encode_utf8_all self.now.text }
    {
        self.text.as_str()
    }

    /// The byte of the text at which a position is: behind as many whole characters of its line as
    /// have at most `character` UTF-16 code units, and not behind the line's end. A line that isn't
    /// there is at the end of the text.
    pub fn offset(&self, position: Position) -> usize
        ensures { let t = self.now.text in
            let at = place_of position.line position.character t in
            result ≡ length (encode_utf8_all (take at t)) }
    {
        place::offset(self.text.as_str(), position.line, position.character)
    }

    /// The position of a byte of the text, where a character begins or the text ends. A text of
    /// 2^32 bytes or more may have some that no position can say.
    pub fn position(&self, offset: usize) -> Option<Position>
        ensures is { let t = self.now.text in IfSome result (λ p. IsPosition t
            (length (chars (take offset (encode_utf8_all t)))) p.line p.character) }
        ensures some { let bytes = encode_utf8_all self.now.text in
            IsCharBoundary bytes offset → length bytes < 2 ^ 32 → IsSome result }
        ensures in_range { let t = self.now.text in let bytes = encode_utf8_all t in
            IsCharBoundary bytes offset → (line : ℕ) (character : ℕ)
            → IsPosition t (length (chars (take offset bytes))) line character
            → line < 2 ^ 32 → character < 2 ^ 32 → IsSome result }
        ensures boundary { IsSome result → IsCharBoundary (encode_utf8_all self.now.text) offset }
    {
        let (line, character) = place::position(self.text.as_str(), offset)?;
        Some(Position::new(line, character))
    }

    /// Makes changes in order, each of the text that the one before leaves, or none of them.
    pub(crate) fn change(
        &mut self,
        version: i32,
        changes: &[TextDocumentContentChangeEvent],
    ) -> Result<(), ChangeError>
        ensures ok { OnOk result (all_changed (map change_of changes.now) self.old.text
            ≡ Some self.new.text) }
        ensures version { OnOk result (self.new.version ≡ version) }
        ensures behind { result ≡ Err ChangeError.StartBehindEnd
            → all_changed (map change_of changes.now) self.old.text ≡ None }
        ensures memory { length changes.now ≡ 1 → result ≡ Err ChangeError.NoMemory
            → IsSome (all_changed (map change_of changes.now) self.old.text) }
        ensures none { changes.now ≡ [] → IsOk result }
        ensures causes { result ≢ Err ChangeError.NotOpen }
        ensures err { OnErr result (self.new ≡ self.old) }
    {
        apply_all(&mut self.text, changes)?;
        self.version = version;
        Ok(())
    }
}
