// The lines of a dump, and the index that their entries make.
ghost use Rattle.std.specs.Prelude.{◌≡◌, ◌≢◌, ◌++◌, ◌∷◌, ℕ, List, [], ⊤, true, false, Ok, IfOk, OnOk, IfErr, OnErr, option_and_then, string_bytes};
ghost use Rattle.std.specs.Result.{result_err};
ghost use Rattle.std.specs.Io.KnownBytes.{Appends};
ghost use Rattle.std.specs.Str.{is_utf8};
ghost use Rattle.std.specs.Str.Lines.{strip_carriage_return};
ghost use Rattle.serde_json.specs.Read as json_text;
ghost use Rattle.lsp_shape.specs.Read.{read};
ghost use Rattle.lsp_lsif.specs.Entry.{entry_row};
ghost use Rattle.lsp_server.specs.Errors.{ComesOfSink};
ghost use Rattle.lsp_server.specs.Leaves.{LeavesFaults};
ghost use Rattle.lsp_server.specs.Written.{IsPrefixOf};
ghost use Rattle.memchr.specs.Find.{IsFirstByte, is_byte};
ghost use Rattle.lsp_index.specs.Graph.{Graph};
ghost use Rattle.lsp_index.specs.Kept.{IsKept};
ghost use Rattle.lsp_index.specs.Answered.{AreAnswers, AreLines, IsLine, query_at};
ghost use Rattle.lsp_index.specs.Shown.{show_query};
ghost use Rattle.lsp_index.specs.Reading.{HasNoEnd, TookText, TookLine, TookBytes, TookNothing, TookDump};

use crate::entry::text_of;
use crate::graph::Index;
use crate::query::Query;
use lsp_base::Position;
use lsp_lsif::read_entry;
use lsp_rpc::NoMemory;
use lsp_server::{Consumer, ServeError, Sink, write_all};
use lsp_shape::TextMisfit;
use memchr::memchr;
use std::alloc::Global;

/// Finds the ends of lines, and holds the part of a line that has no end yet.
#[derive(Drop)]
pub(crate) struct Lines {
    pub(crate) part: Vec<u8>,
}

/// A query, with what is kept for it of the entries so far.
#[derive(Drop)]
pub(crate) struct Search {
    pub(crate) query: Query,
    pub(crate) index: Index,
    /// A line was no entry.
    pub(crate) is_bad: bool,
}

impl Search {
    /// The query, with nothing kept for it yet.
    pub(crate) fn new(alloc: Global, query: Query) -> Search
        ensures { (result.query ≡ query) × TookNothing result }
    {
        Search {
            query,
            index: Index::new(alloc),
            is_bad: false,
        }
    }

    // Notes that a line is no entry, and says so.
    fn refuse(&mut self) -> Result<bool, NoMemory>
        ensures { (result ≡ Ok false) × (self.new.is_bad ≡ true) }
    {
        self.is_bad = true;
        Ok(false)
    }

    // Takes a line that is a text, and says whether it is an entry.
    fn take_text(&mut self, text: &str) -> Result<bool, NoMemory>
        ensures { IfOk result (λ good. TookText self.old
            (option_and_then (read entry_row.shape) (json_text.read text.now)) good self.new) }
    {
        match read_entry(self.index.alloc, text) {
            Ok(entry) => {
                self.index.keep(self.query.request, entry)?;
                Ok(true)
            }
            Err(TextMisfit::NoMemory) => Err(NoMemory),
            Err(TextMisfit::Json) => self.refuse(),
            Err(TextMisfit::Unfit) => self.refuse(),
        }
    }

    // Takes a line with what precedes its LF, and says whether it is an entry or empty.
    fn take_line(&mut self, line: &[u8]) -> Result<bool, NoMemory>
        ensures took { IfOk result (λ good. TookLine self.old line.now good self.new) }
        ensures memory { OnErr result ((is_utf8 line.now ≡ true) × (line.now ≢ [])) }
    {
        if line.is_empty() {
            return Ok(true);
        }
        match text_of(line) {
            Some(text) => self.take_text(text),
            None => self.refuse(),
        }
    }

    // Takes all the bytes of a dump, or those up to a bad line, and says whether there is none.
    fn take_dump(&mut self, dump: &[u8]) -> Result<bool, NoMemory>
        ensures { IfOk result (λ good. TookNothing self.old → TookDump self.old dump.now good self.new) }
    {
        let mut lines = Lines {
            part: Vec::new(self.index.alloc),
        };
        if !lines.take_bytes(self, dump)? {
            return Ok(false);
        }
        self.take_line(&lines.part)
    }

    // The line of the answer at a position.
    fn line_at(&self, position: Position) -> Result<String, NoMemory>
        ensures { IfOk result (λ line. (g : Graph) → IsKept g self.now.index
            → IsLine (query_at (show_query self.now.query) position) g (string_bytes line)) }
    {
        let from = self.index.reached_at(&self.query.uri, position)?;
        let mut line = String::new(self.index.alloc);
        self.index.put_text(self.query.request, from, &mut line)?;
        line.push_str("\n")?;
        Ok(line)
    }

    // The line of the answer at each of the positions.
    fn lines_at(&self, positions: &[Position]) -> Result<Vec<String>, NoMemory>
        ensures { IfOk result (λ lines. (g : Graph) → IsKept g self.now.index
            → AreLines (λ p line. IsLine (query_at (show_query self.now.query) p) g line)
            positions.now lines.items) }
    {
        let mut lines = Vec::new(self.index.alloc);
        for position in positions {
            lines.push(self.line_at(*position)?)?;
        }
        Ok(lines)
    }

    /// The line of the answer at each of the positions, over all the bytes of a dump, or none where
    /// a line of it is bad.
    pub(crate) fn answer_each(
        &mut self,
        positions: &[Position],
        dump: &[u8],
    ) -> Result<Option<Vec<String>>, NoMemory>
        ensures { IfOk result (λ lines. TookNothing self.old → AreAnswers
            (λ p. query_at (show_query self.old.query) p) dump.now positions.now lines) }
    {
        if !self.take_dump(dump)? {
            return Ok(None);
        }
        Ok(Some(self.lines_at(positions)?))
    }
}

// A line without the one CR at its end, if it has one.
fn without_cr(line: &[u8]) -> &[u8]
    ensures { result.now ≡ strip_carriage_return line.now }
{
    if !line.is_empty() && line[line.len() - 1] == b'\r' {
        &line[..line.len() - 1]
    } else {
        line
    }
}

// Writes all the bytes.
fn send<O: Sink>(sink: &mut O, bytes: &[u8]) -> Result<(), ServeError>
    ensures ok { OnOk result (Appends (O.taken sink.old) (O.taken sink.new) bytes.now) }
    ensures part { OnErr result ((written : List ℕ) × IsPrefixOf written bytes.now
        × Appends (O.taken sink.old) (O.taken sink.new) written) }
    ensures flushed { O.flushed sink.new ≡ O.flushed sink.old }
    ensures sink { LeavesFaults O.faults O.beside sink.old sink.new (result_err result) }
    ensures others { IfErr result ComesOfSink }
{
    write_all(sink, bytes)?;
    Ok(())
}

// Where the first line ends. Where it is empty there is nothing to search.
fn line_end(bytes: &[u8]) -> Option<usize>
    ensures { IsFirstByte (is_byte 10) bytes.now result }
{
    if !bytes.is_empty() && bytes[0] == b'\n' {
        return Some(0);
    }
    memchr(b'\n', bytes)
}

impl Lines {
    // Takes what stands before an LF, with the LF, and says whether the line that it ends is good. A line that
    // a read holds whole isn't copied.
    fn take_end(&mut self, search: &mut Search, bytes: &[u8]) -> Result<bool, NoMemory>
        requires { HasNoEnd bytes.now }
        ensures { IfOk result (λ good. TookBytes (self.old, search.old) (bytes.now ++ 10 ∷ []) good
            (self.new, search.new)) }
    {
        if self.part.is_empty() {
            return search.take_line(without_cr(bytes));
        }
        self.part.extend_from_slice(bytes)?;
        let good = search.take_line(without_cr(&self.part));
        self.part.clear();
        good
    }

    // Takes the bytes of a read up to a bad line, and says whether there is none.
    fn take_bytes(&mut self, search: &mut Search, bytes: &[u8]) -> Result<bool, NoMemory>
        ensures { IfOk result (λ good. TookBytes (self.old, search.old) bytes.now good
            (self.new, search.new)) }
    {
        let mut rest = bytes;
        'lines: while let Some(end) = line_end(rest) {
            if !self.take_end(search, &rest[..end])? {
                return Ok(false);
            }
            rest = &rest[end + 1..];
        }
        self.part.extend_from_slice(rest)?;
        Ok(true)
    }
}

impl Consumer<Search> for Lines {
    ghost use Rattle.lsp_index.specs.Reading.{dump_reading};

    ghost meaning = { dump_reading };

    ghost Tied = { ⊤ };

    ghost tied = { λ _. tt };

    fn take<O: Sink>(
        &mut self,
        search: &mut Search,
        piece: &[u8],
        _sink: &mut O,
    ) -> Result<bool, ServeError> {
        Ok(!self.take_bytes(search, piece)?)
    }

    fn end<O: Sink>(&mut self, search: &mut Search, sink: &mut O) -> Result<(), ServeError> {
        if !search.take_line(&self.part)? {
            return Ok(());
        }
        let line = search.line_at(search.query.position)?;
        send(sink, line.as_bytes())
    }
}
