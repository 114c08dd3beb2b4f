// Files that are created, renamed and deleted.
ghost use Rattle.std.specs.Prelude.{◌≡◌, [], string_bytes};
ghost use Rattle.lsp_work.specs.Files.{create_files_params_row, file_create_row, rename_files_params_row, file_rename_row, delete_files_params_row, file_delete_row};

use lsp_shape::{Misfit, NoMemory, Required, Wire, Writer, read_object};
use serde_json::Value;
use std::alloc::Global;

/// The parameters of `workspace/willCreateFiles` and `workspace/didCreateFiles`, about files and
/// folders created from within the client, by its user or by a workspace edit. Since 3.16 (LSP
/// 3.17, "WillCreateFiles Request").
#[derive(Debug, PartialEq, Eq, Clone, Drop)]
pub struct CreateFilesParams {
    /// The files and folders that were or will be created.
    pub files: Vec<FileCreate>,
}

impl CreateFilesParams {
    /// The default value: empty strings and arrays, zero numbers, `false` booleans, and every
    /// optional field absent.
    pub fn default(alloc: Global) -> CreateFilesParams
        ensures files { result.files.items ≡ [] }
    {
        CreateFilesParams {
            files: Vec::new(alloc),
        }
    }
}

#[tactic(auto, unfolding(crate::specs::Files::create_files_params_row))]
impl Wire for CreateFilesParams {
    ghost shape = { create_files_params_row.shape };

    ghost shown = { create_files_params_row.shown };

    fn from_value(alloc: Global, value: &Value) -> Result<CreateFilesParams, Misfit> {
        let files = read_object(alloc, value, Required("files"))?;
        Ok(CreateFilesParams { files })
    }

    fn to_value(&self, alloc: Global) -> Result<Value, NoMemory> {
        let mut object = Writer::new(alloc);
        object.field("files", &self.files);
        object.end()
    }
}

/// A file or folder that is created from within the client. Since 3.16 (LSP 3.17, "WillCreateFiles
/// Request").
#[derive(Debug, PartialEq, Eq, Clone, Drop)]
pub struct FileCreate {
    /// The URI of the file or folder, of the scheme `file`. It isn't checked to be a URI.
    pub uri: String,
}

impl FileCreate {
    /// The default value: empty strings and arrays, zero numbers, `false` booleans, and every
    /// optional field absent.
    pub fn default(alloc: Global) -> FileCreate
        ensures uri { string_bytes result.uri ≡ [] }
    {
        FileCreate {
            uri: String::new(alloc),
        }
    }
}

#[tactic(auto, unfolding(crate::specs::Files::file_create_row))]
impl Wire for FileCreate {
    ghost shape = { file_create_row.shape };

    ghost shown = { file_create_row.shown };

    fn from_value(alloc: Global, value: &Value) -> Result<FileCreate, Misfit> {
        let uri = read_object(alloc, value, Required("uri"))?;
        Ok(FileCreate { uri })
    }

    fn to_value(&self, alloc: Global) -> Result<Value, NoMemory> {
        let mut object = Writer::new(alloc);
        object.field("uri", &self.uri);
        object.end()
    }
}

/// The parameters of `workspace/willRenameFiles` and `workspace/didRenameFiles`, about files and
/// folders renamed from within the client, by its user or by a workspace edit. Since 3.16 (LSP
/// 3.17, "WillRenameFiles Request").
#[derive(Debug, PartialEq, Eq, Clone, Drop)]
pub struct RenameFilesParams {
    /// The files and folders that were or will be renamed. A folder is named without what it holds.
    pub files: Vec<FileRename>,
}

impl RenameFilesParams {
    /// The default value: empty strings and arrays, zero numbers, `false` booleans, and every
    /// optional field absent.
    pub fn default(alloc: Global) -> RenameFilesParams
        ensures files { result.files.items ≡ [] }
    {
        RenameFilesParams {
            files: Vec::new(alloc),
        }
    }
}

#[tactic(auto, unfolding(crate::specs::Files::rename_files_params_row))]
impl Wire for RenameFilesParams {
    ghost shape = { rename_files_params_row.shape };

    ghost shown = { rename_files_params_row.shown };

    fn from_value(alloc: Global, value: &Value) -> Result<RenameFilesParams, Misfit> {
        let files = read_object(alloc, value, Required("files"))?;
        Ok(RenameFilesParams { files })
    }

    fn to_value(&self, alloc: Global) -> Result<Value, NoMemory> {
        let mut object = Writer::new(alloc);
        object.field("files", &self.files);
        object.end()
    }
}

/// A file or folder that is renamed from within the client. Since 3.16 (LSP 3.17, "WillRenameFiles
/// Request").
#[derive(Debug, PartialEq, Eq, Clone, Drop)]
pub struct FileRename {
    /// The URI before the rename, of the scheme `file`. It isn't checked to be a URI.
    pub old_uri: String,
    /// The URI after the rename, of the scheme `file`. It isn't checked to be a URI.
    pub new_uri: String,
}

impl FileRename {
    /// The default value: empty strings and arrays, zero numbers, `false` booleans, and every
    /// optional field absent.
    pub fn default(alloc: Global) -> FileRename
        ensures old_uri { string_bytes result.old_uri ≡ [] }
        ensures new_uri { string_bytes result.new_uri ≡ [] }
    {
        FileRename {
            old_uri: String::new(alloc),
            new_uri: String::new(alloc),
        }
    }
}

#[tactic(auto, unfolding(crate::specs::Files::file_rename_row))]
impl Wire for FileRename {
    ghost shape = { file_rename_row.shape };

    ghost shown = { file_rename_row.shown };

    fn from_value(alloc: Global, value: &Value) -> Result<FileRename, Misfit> {
        let (old_uri, new_uri) = read_object(
            alloc,
            value,
            (Required("oldUri"), Required("newUri")),
        )?;
        Ok(FileRename { old_uri, new_uri })
    }

    fn to_value(&self, alloc: Global) -> Result<Value, NoMemory> {
        let mut object = Writer::new(alloc);
        object.field("oldUri", &self.old_uri);
        object.field("newUri", &self.new_uri);
        object.end()
    }
}

/// The parameters of `workspace/willDeleteFiles` and `workspace/didDeleteFiles`, about files and
/// folders deleted from within the client, by its user or by a workspace edit. Since 3.16 (LSP
/// 3.17, "WillDeleteFiles Request").
#[derive(Debug, PartialEq, Eq, Clone, Drop)]
pub struct DeleteFilesParams {
    /// The files and folders that were or will be deleted.
    pub files: Vec<FileDelete>,
}

impl DeleteFilesParams {
    /// The default value: empty strings and arrays, zero numbers, `false` booleans, and every
    /// optional field absent.
    pub fn default(alloc: Global) -> DeleteFilesParams
        ensures files { result.files.items ≡ [] }
    {
        DeleteFilesParams {
            files: Vec::new(alloc),
        }
    }
}

#[tactic(auto, unfolding(crate::specs::Files::delete_files_params_row))]
impl Wire for DeleteFilesParams {
    ghost shape = { delete_files_params_row.shape };

    ghost shown = { delete_files_params_row.shown };

    fn from_value(alloc: Global, value: &Value) -> Result<DeleteFilesParams, Misfit> {
        let files = read_object(alloc, value, Required("files"))?;
        Ok(DeleteFilesParams { files })
    }

    fn to_value(&self, alloc: Global) -> Result<Value, NoMemory> {
        let mut object = Writer::new(alloc);
        object.field("files", &self.files);
        object.end()
    }
}

/// A file or folder that is deleted from within the client. Since 3.16 (LSP 3.17, "WillDeleteFiles
/// Request").
#[derive(Debug, PartialEq, Eq, Clone, Drop)]
pub struct FileDelete {
    /// The URI of the file or folder, of the scheme `file`. It isn't checked to be a URI.
    pub uri: String,
}

impl FileDelete {
    /// The default value: empty strings and arrays, zero numbers, `false` booleans, and every
    /// optional field absent.
    pub fn default(alloc: Global) -> FileDelete
        ensures uri { string_bytes result.uri ≡ [] }
    {
        FileDelete {
            uri: String::new(alloc),
        }
    }
}

#[tactic(auto, unfolding(crate::specs::Files::file_delete_row))]
impl Wire for FileDelete {
    ghost shape = { file_delete_row.shape };

    ghost shown = { file_delete_row.shown };

    fn from_value(alloc: Global, value: &Value) -> Result<FileDelete, Misfit> {
        let uri = read_object(alloc, value, Required("uri"))?;
        Ok(FileDelete { uri })
    }

    fn to_value(&self, alloc: Global) -> Result<Value, NoMemory> {
        let mut object = Writer::new(alloc);
        object.field("uri", &self.uri);
        object.end()
    }
}
