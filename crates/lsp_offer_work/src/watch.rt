// Files that are watched.
ghost use Rattle.std.specs.Prelude.{◌≡◌};
ghost use Rattle.lsp_offer_work.specs.Watch.{did_change_watched_files_registration_options_row, file_system_watcher_row, glob_pattern_row, relative_pattern_row};
ghost use Rattle.lsp_offer_work.specs.declared.watch.GlobPattern.TheVariants as glob_pattern;

use crate::watch_kind::WatchKind;
use lsp_base::{OneOf, WorkspaceFolder};
use lsp_shape::{Misfit, NoMemory, Optional, Required, Wire, Writer, attempt, form, read_object};
use lsp_uri::Uri;
use serde_json::Value;
use std::alloc::Global;

/// Options for registering `workspace/didChangeWatchedFiles` with `client/registerCapability`.
/// `ServerCapabilities` has no field for watched files (LSP 3.17, "DidChangeWatchedFiles
/// Notification").
#[derive(Debug, PartialEq, Eq, PartialOrd, Ord, Clone, Drop)]
pub struct DidChangeWatchedFilesRegistrationOptions {
    /// The files to watch, and the events to report.
    pub watchers: Vec<FileSystemWatcher>,
}

#[tactic(auto, unfolding(crate::specs::Watch::did_change_watched_files_registration_options_row))]
impl Wire for DidChangeWatchedFilesRegistrationOptions {
    ghost shape = { did_change_watched_files_registration_options_row.shape };

    ghost shown = { did_change_watched_files_registration_options_row.shown };

    fn from_value(
        alloc: Global,
        value: &Value,
    ) -> Result<DidChangeWatchedFilesRegistrationOptions, Misfit> {
        let watchers = read_object(alloc, value, Required("watchers"))?;
        Ok(DidChangeWatchedFilesRegistrationOptions { watchers })
    }

    fn to_value(&self, alloc: Global) -> Result<Value, NoMemory> {
        let mut object = Writer::new(alloc);
        object.field("watchers", &self.watchers);
        object.end()
    }
}

/// A set of files, and the events on them that the client reports with
/// `workspace/didChangeWatchedFiles` (LSP 3.17, "DidChangeWatchedFiles Notification").
#[derive(Debug, PartialEq, Eq, PartialOrd, Ord, Clone, Drop)]
pub struct FileSystemWatcher {
    /// The pattern that the watched files match.
    pub glob_pattern: GlobPattern,
    /// The events to report. Absent: creation, change and deletion, as the value 7.
    pub kind: Option<WatchKind>,
}

#[tactic(auto, unfolding(crate::specs::Watch::file_system_watcher_row))]
impl Wire for FileSystemWatcher {
    ghost shape = { file_system_watcher_row.shape };

    ghost shown = { file_system_watcher_row.shown };

    fn from_value(alloc: Global, value: &Value) -> Result<FileSystemWatcher, Misfit> {
        let (glob_pattern, kind) = read_object(
            alloc,
            value,
            (Required("globPattern"), Optional("kind")),
        )?;
        Ok(FileSystemWatcher { glob_pattern, kind })
    }

    fn to_value(&self, alloc: Global) -> Result<Value, NoMemory> {
        let mut object = Writer::new(alloc);
        object.field("globPattern", &self.glob_pattern);
        object.optional("kind", &self.kind);
        object.end()
    }
}

/// The files that a `FileSystemWatcher` watches, by a pattern for their paths. Since 3.17; before,
/// it was always a string (LSP 3.17, "DidChangeWatchedFiles Notification").
#[derive(Debug, PartialEq, Eq, PartialOrd, Ord, Clone, Drop)]
pub enum GlobPattern {
    /// A pattern alone, such as `**/*.toml`.
    String(Pattern),
    /// A pattern relative to a base URI. Only for clients with the capability
    /// `relative_pattern_support`.
    Relative(RelativePattern),
}

#[tactic(auto, unfolding(crate::specs::Watch::glob_pattern_row))]
impl Wire for GlobPattern {
    ghost shape = { glob_pattern_row.shape };

    ghost shown = { glob_pattern_row.shown };

    fn from_value(alloc: Global, value: &Value) -> Result<GlobPattern, Misfit> {
        if let Some(string) = attempt(alloc, value)? {
            return Ok(GlobPattern::String(string));
        }
        Ok(GlobPattern::Relative(form(alloc, value)?))
    }

    fn to_value(&self, alloc: Global) -> Result<Value, NoMemory> {
        match self {
            GlobPattern::String(string) => string.to_value(alloc),
            GlobPattern::Relative(relative) => relative.to_value(alloc),
        }
    }
}

impl From<Pattern> for GlobPattern {
    ghost from_gives = { λ given made. made ≡ glob_pattern.String given };

    fn from(string: Pattern) -> GlobPattern {
        GlobPattern::String(string)
    }
}

impl From<RelativePattern> for GlobPattern {
    ghost from_gives = { λ given made. made ≡ glob_pattern.Relative given };

    fn from(relative: RelativePattern) -> GlobPattern {
        GlobPattern::Relative(relative)
    }
}

/// A glob pattern for paths relative to a base URI, since 3.17. Ordered by base, then by pattern
/// (LSP 3.17, "DidChangeWatchedFiles Notification").
#[derive(Debug, PartialEq, Eq, PartialOrd, Ord, Clone, Drop)]
pub struct RelativePattern {
    /// The base: a workspace folder, or another absolute URI.
    pub base_uri: OneOf<WorkspaceFolder, Uri>,
    /// The pattern for paths relative to that base.
    pub pattern: Pattern,
}

#[tactic(auto, unfolding(crate::specs::Watch::relative_pattern_row))]
impl Wire for RelativePattern {
    ghost shape = { relative_pattern_row.shape };

    ghost shown = { relative_pattern_row.shown };

    fn from_value(alloc: Global, value: &Value) -> Result<RelativePattern, Misfit> {
        let (base_uri, pattern) = read_object(
            alloc,
            value,
            (Required("baseUri"), Required("pattern")),
        )?;
        Ok(RelativePattern { base_uri, pattern })
    }

    fn to_value(&self, alloc: Global) -> Result<Value, NoMemory> {
        let mut object = Writer::new(alloc);
        object.field("baseUri", &self.base_uri);
        object.field("pattern", &self.pattern);
        object.end()
    }
}

/// A glob pattern for paths: `*` matches one or more characters within a segment, `?` one
/// character, `**` any number of segments, even none, `{a,b}` either alternative, `[a-z]` and
/// `[!a-z]` a character in and outside a range (LSP 3.17, "DidChangeWatchedFiles Notification").
pub type Pattern = String;
