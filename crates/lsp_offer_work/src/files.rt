// Files that are created, renamed and deleted.
ghost use Rattle.std.specs.Prelude.{◌≡◌, None, [], string_bytes};
ghost use Rattle.lsp_offer_work.specs.Files.{workspace_file_operations_server_capabilities_row, file_operation_registration_options_row, file_operation_filter_row, file_operation_pattern_kind_row, file_operation_pattern_options_row, file_operation_pattern_row};

use lsp_shape::{Copies, Misfit, NoMemory, Optional, Required, Wanted, Wire, Writer, read_object};
use serde_json::Value;
use std::alloc::{AllocError, Global};

/// The messages on file operations that a server wants, as part of `WorkspaceServerCapabilities`;
/// an absent field means that it doesn't want that message. Since 3.16 (LSP 3.17, "Initialize
/// Request").
#[derive(Debug, PartialEq, Eq, Default, Drop)]
pub struct WorkspaceFileOperationsServerCapabilities {
    /// The files and folders for which the client sends the notification `workspace/didCreateFiles`
    /// once they are created.
    pub did_create: Option<FileOperationRegistrationOptions>,
    /// The files and folders for which the client sends the request `workspace/willCreateFiles`
    /// before it creates them.
    pub will_create: Option<FileOperationRegistrationOptions>,
    /// The files and folders for which the client sends the notification `workspace/didRenameFiles`
    /// once they are renamed.
    pub did_rename: Option<FileOperationRegistrationOptions>,
    /// The files and folders for which the client sends the request `workspace/willRenameFiles`
    /// before it renames them.
    pub will_rename: Option<FileOperationRegistrationOptions>,
    /// The files and folders for which the client sends the notification `workspace/didDeleteFiles`
    /// once they are deleted.
    pub did_delete: Option<FileOperationRegistrationOptions>,
    /// The files and folders for which the client sends the request `workspace/willDeleteFiles`
    /// before it deletes them.
    pub will_delete: Option<FileOperationRegistrationOptions>,
}

impl Clone for WorkspaceFileOperationsServerCapabilities {
    ghost is_clone = { λ x y. ⟦<Option<FileOperationRegistrationOptions> as Clone>⟧.is_clone
        x.did_create y.did_create
        × ⟦<Option<FileOperationRegistrationOptions> as Clone>⟧.is_clone x.will_create y.will_create
        × ⟦<Option<FileOperationRegistrationOptions> as Clone>⟧.is_clone x.did_rename y.did_rename
        × ⟦<Option<FileOperationRegistrationOptions> as Clone>⟧.is_clone x.will_rename y.will_rename
        × ⟦<Option<FileOperationRegistrationOptions> as Clone>⟧.is_clone x.did_delete y.did_delete
        × ⟦<Option<FileOperationRegistrationOptions> as Clone>⟧.is_clone
        x.will_delete y.will_delete };

    fn clone(&self) -> Result<WorkspaceFileOperationsServerCapabilities, AllocError> {
        let mut copies = Copies::new();
        let copy = WorkspaceFileOperationsServerCapabilities {
            did_create: copies.optional(&self.did_create),
            will_create: copies.optional(&self.will_create),
            did_rename: copies.optional(&self.did_rename),
            will_rename: copies.optional(&self.will_rename),
            did_delete: copies.optional(&self.did_delete),
            will_delete: copies.optional(&self.will_delete),
        };
        copies.end(copy)
    }
}

#[tactic(auto, unfolding(crate::specs::Files::workspace_file_operations_server_capabilities_row))]
impl Wire for WorkspaceFileOperationsServerCapabilities {
    ghost shape = { workspace_file_operations_server_capabilities_row.shape };

    ghost shown = { workspace_file_operations_server_capabilities_row.shown };

    fn from_value(
        alloc: Global,
        value: &Value,
    ) -> Result<WorkspaceFileOperationsServerCapabilities, Misfit> {
        let (did_create, will_create, did_rename, will_rename, did_delete, will_delete) =
            read_object(
                alloc,
                value,
                (
                    Optional("didCreate"),
                    Optional("willCreate"),
                    Optional("didRename"),
                    Optional("willRename"),
                    Optional("didDelete"),
                    Optional("willDelete"),
                ),
            )?;
        Ok(WorkspaceFileOperationsServerCapabilities {
            did_create,
            will_create,
            did_rename,
            will_rename,
            did_delete,
            will_delete,
        })
    }

    fn to_value(&self, alloc: Global) -> Result<Value, NoMemory> {
        let mut object = Writer::new(alloc);
        object.optional("didCreate", &self.did_create);
        object.optional("willCreate", &self.will_create);
        object.optional("didRename", &self.did_rename);
        object.optional("willRename", &self.will_rename);
        object.optional("didDelete", &self.did_delete);
        object.optional("willDelete", &self.will_delete);
        object.end()
    }
}

/// The files and folders for which a server wants a message on file operations, such as
/// `workspace/willRenameFiles`. Since 3.16 (LSP 3.17, "WillCreateFiles Request").
#[derive(Debug, PartialEq, Eq, Clone, Drop)]
pub struct FileOperationRegistrationOptions {
    /// The files and folders. Those that match any of the filters are included.
    pub filters: Vec<FileOperationFilter>,
}

impl FileOperationRegistrationOptions {
    /// The default value: an empty array of filters, so that nothing matches.
    pub fn default(alloc: Global) -> FileOperationRegistrationOptions
        ensures filters { result.filters.items ≡ [] }
    {
        FileOperationRegistrationOptions {
            filters: Vec::new(alloc),
        }
    }
}

#[tactic(auto, unfolding(crate::specs::Files::file_operation_registration_options_row))]
impl Wire for FileOperationRegistrationOptions {
    ghost shape = { file_operation_registration_options_row.shape };

    ghost shown = { file_operation_registration_options_row.shown };

    fn from_value(
        alloc: Global,
        value: &Value,
    ) -> Result<FileOperationRegistrationOptions, Misfit> {
        let filters = read_object(alloc, value, Required("filters"))?;
        Ok(FileOperationRegistrationOptions { filters })
    }

    fn to_value(&self, alloc: Global) -> Result<Value, NoMemory> {
        let mut object = Writer::new(alloc);
        object.field("filters", &self.filters);
        object.end()
    }
}

/// Selects files and folders by the scheme and the path of their URIs, which both have to match.
/// Since 3.16 (LSP 3.17, "WillCreateFiles Request").
#[derive(Debug, PartialEq, Eq, Clone, Drop)]
pub struct FileOperationFilter {
    /// The scheme of the URI, such as `file`. Absent: any scheme. `None` is sent as `null`, which
    /// LSP doesn't have here and clients may not understand.
    pub scheme: Option<String>,
    /// The pattern for the path.
    pub pattern: FileOperationPattern,
}

impl FileOperationFilter {
    /// The default value: an empty pattern, with any scheme.
    pub fn default(alloc: Global) -> FileOperationFilter
        ensures scheme { result.scheme ≡ None }
        ensures glob { string_bytes result.pattern.glob ≡ [] }
        ensures matches { result.pattern.matches ≡ None }
        ensures options { result.pattern.options ≡ None }
    {
        FileOperationFilter {
            scheme: None,
            pattern: FileOperationPattern::default(alloc),
        }
    }
}

#[tactic(auto, unfolding(crate::specs::Files::file_operation_filter_row))]
impl Wire for FileOperationFilter {
    ghost shape = { file_operation_filter_row.shape };

    ghost shown = { file_operation_filter_row.shown };

    fn from_value(alloc: Global, value: &Value) -> Result<FileOperationFilter, Misfit> {
        let (scheme, pattern) = read_object(
            alloc,
            value,
            (Optional("scheme"), Required("pattern")),
        )?;
        Ok(FileOperationFilter { scheme, pattern })
    }

    fn to_value(&self, alloc: Global) -> Result<Value, NoMemory> {
        let mut object = Writer::new(alloc);
        object.nullable("scheme", &self.scheme);
        object.field("pattern", &self.pattern);
        object.end()
    }
}

/// Restricts a `FileOperationPattern` to files or to folders, since 3.16 (LSP 3.17,
/// "WillCreateFiles Request").
#[derive(Debug, PartialEq, Eq, Clone, Drop)]
pub enum FileOperationPatternKind {
    /// Only files match.
    File,
    /// Only folders match.
    Folder,
}

#[tactic(auto, unfolding(crate::specs::Files::file_operation_pattern_kind_row))]
impl Wire for FileOperationPatternKind {
    ghost shape = { file_operation_pattern_kind_row.shape };

    ghost shown = { file_operation_pattern_kind_row.shown };

    fn from_value(_alloc: Global, value: &Value) -> Result<FileOperationPatternKind, Misfit> {
        match value.as_str() {
            Some("file") => Ok(FileOperationPatternKind::File),
            Some("folder") => Ok(FileOperationPatternKind::Folder),
            _ => Err(Misfit::wanted(Wanted::Name)),
        }
    }

    fn to_value(&self, alloc: Global) -> Result<Value, NoMemory> {
        let name = match self {
            FileOperationPatternKind::File => "file",
            FileOperationPatternKind::Folder => "folder",
        };
        Ok(Value::try_from_str(alloc, name)?)
    }
}

/// How a `FileOperationPattern` is compared with a path, since 3.16 (LSP 3.17, "WillCreateFiles
/// Request").
#[derive(Debug, PartialEq, Eq, Default, Clone, Drop)]
pub struct FileOperationPatternOptions {
    /// Whether upper and lower case letters count as equal.
    pub ignore_case: Option<bool>,
}

#[tactic(auto, unfolding(crate::specs::Files::file_operation_pattern_options_row))]
impl Wire for FileOperationPatternOptions {
    ghost shape = { file_operation_pattern_options_row.shape };

    ghost shown = { file_operation_pattern_options_row.shown };

    fn from_value(alloc: Global, value: &Value) -> Result<FileOperationPatternOptions, Misfit> {
        let ignore_case = read_object(alloc, value, Optional("ignoreCase"))?;
        Ok(FileOperationPatternOptions { ignore_case })
    }

    fn to_value(&self, alloc: Global) -> Result<Value, NoMemory> {
        let mut object = Writer::new(alloc);
        object.optional("ignoreCase", &self.ignore_case);
        object.end()
    }
}

/// A glob pattern for the paths of files and folders, in a `FileOperationFilter`. Since 3.16 (LSP
/// 3.17, "WillCreateFiles Request").
#[derive(Debug, PartialEq, Eq, Clone, Drop)]
pub struct FileOperationPattern {
    /// The pattern, such as `**/*.ts`, in the syntax described for `Pattern`.
    pub glob: String,
    /// Whether only files or only folders match. Absent: both.
    pub matches: Option<FileOperationPatternKind>,
    /// How the pattern is compared with a path.
    pub options: Option<FileOperationPatternOptions>,
}

impl FileOperationPattern {
    /// The default value: an empty pattern, for both files and folders.
    pub fn default(alloc: Global) -> FileOperationPattern
        ensures glob { string_bytes result.glob ≡ [] }
        ensures matches { result.matches ≡ None }
        ensures options { result.options ≡ None }
    {
        FileOperationPattern {
            glob: String::new(alloc),
            matches: None,
            options: None,
        }
    }
}

#[tactic(auto, unfolding(crate::specs::Files::file_operation_pattern_row))]
impl Wire for FileOperationPattern {
    ghost shape = { file_operation_pattern_row.shape };

    ghost shown = { file_operation_pattern_row.shown };

    fn from_value(alloc: Global, value: &Value) -> Result<FileOperationPattern, Misfit> {
        let (glob, matches, options) = read_object(
            alloc,
            value,
            (Required("glob"), Optional("matches"), Optional("options")),
        )?;
        Ok(FileOperationPattern {
            glob,
            matches,
            options,
        })
    }

    fn to_value(&self, alloc: Global) -> Result<Value, NoMemory> {
        let mut object = Writer::new(alloc);
        object.field("glob", &self.glob);
        object.optional("matches", &self.matches);
        object.optional("options", &self.options);
        object.end()
    }
}
