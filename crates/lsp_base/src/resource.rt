// Changes of files and folders.
ghost use Rattle.lsp_base.specs.Resource.{create_file_options_row, create_file_row, rename_file_options_row, rename_file_row, delete_file_options_row, delete_file_row, resource_op_row};

use crate::edit::ChangeAnnotationIdentifier;
use lsp_shape::{
    Copies, Misfit, NoMemory, Optional, Required, Wanted, Wire, Writer, form, put_tag, read_object,
    tag,
};
use lsp_uri::Uri;
use serde_json::Value;
use std::alloc::{AllocError, Global};

/// What to do where the file is there already. Since 3.13 (LSP 3.17, "File Resource changes").
#[derive(Debug, PartialEq, Eq, Clone, Drop)]
pub struct CreateFileOptions {
    /// Whether to overwrite what is there. Takes precedence over `ignore_if_exists`.
    pub overwrite: Option<bool>,
    /// Whether to leave what is there as it is.
    pub ignore_if_exists: Option<bool>,
}

#[tactic(auto, unfolding(crate::specs::Resource::create_file_options_row))]
impl Wire for CreateFileOptions {
    ghost shape = { create_file_options_row.shape };

    ghost shown = { create_file_options_row.shown };

    fn from_value(alloc: Global, value: &Value) -> Result<CreateFileOptions, Misfit> {
        let (overwrite, ignore_if_exists) = read_object(
            alloc,
            value,
            (Optional("overwrite"), Optional("ignoreIfExists")),
        )?;
        Ok(CreateFileOptions {
            overwrite,
            ignore_if_exists,
        })
    }

    fn to_value(&self, alloc: Global) -> Result<Value, NoMemory> {
        let mut object = Writer::new(alloc);
        object.optional("overwrite", &self.overwrite);
        object.optional("ignoreIfExists", &self.ignore_if_exists);
        object.end()
    }
}

/// A file or folder to create. Since 3.13 (LSP 3.17, "File Resource changes").
#[derive(Debug, PartialEq, Eq, Clone, Drop)]
pub struct CreateFile {
    /// The file or folder.
    pub uri: Uri,
    /// What to do where it is there already.
    pub options: Option<CreateFileOptions>,
    /// The annotation that says what the change is for. Since 3.16.
    pub annotation_id: Option<ChangeAnnotationIdentifier>,
}

#[tactic(auto, unfolding(crate::specs::Resource::create_file_row))]
impl Wire for CreateFile {
    ghost shape = { create_file_row.shape };

    ghost shown = { create_file_row.shown };

    fn from_value(alloc: Global, value: &Value) -> Result<CreateFile, Misfit> {
        let (uri, options, annotation_id) = read_object(
            alloc,
            value,
            (
                Required("uri"),
                Optional("options"),
                Optional("annotationId"),
            ),
        )?;
        Ok(CreateFile {
            uri,
            options,
            annotation_id,
        })
    }

    fn to_value(&self, alloc: Global) -> Result<Value, NoMemory> {
        let mut object = Writer::new(alloc);
        object.field("uri", &self.uri);
        object.optional("options", &self.options);
        object.optional("annotationId", &self.annotation_id);
        object.end()
    }
}

/// What to do where something of the new name is there already. Since 3.13 (LSP 3.17, "File
/// Resource changes").
#[derive(Debug, PartialEq, Eq, Clone, Drop)]
pub struct RenameFileOptions {
    /// Whether to overwrite what is there. Takes precedence over `ignore_if_exists`.
    pub overwrite: Option<bool>,
    /// Whether to leave what is there as it is.
    pub ignore_if_exists: Option<bool>,
}

#[tactic(auto, unfolding(crate::specs::Resource::rename_file_options_row))]
impl Wire for RenameFileOptions {
    ghost shape = { rename_file_options_row.shape };

    ghost shown = { rename_file_options_row.shown };

    fn from_value(alloc: Global, value: &Value) -> Result<RenameFileOptions, Misfit> {
        let (overwrite, ignore_if_exists) = read_object(
            alloc,
            value,
            (Optional("overwrite"), Optional("ignoreIfExists")),
        )?;
        Ok(RenameFileOptions {
            overwrite,
            ignore_if_exists,
        })
    }

    fn to_value(&self, alloc: Global) -> Result<Value, NoMemory> {
        let mut object = Writer::new(alloc);
        object.optional("overwrite", &self.overwrite);
        object.optional("ignoreIfExists", &self.ignore_if_exists);
        object.end()
    }
}

/// A file or folder to rename. Since 3.13 (LSP 3.17, "File Resource changes").
#[derive(Debug, PartialEq, Eq, Drop)]
pub struct RenameFile {
    /// Its present URI.
    pub old_uri: Uri,
    /// Its new URI.
    pub new_uri: Uri,
    /// What to do where something of the new name is there already.
    pub options: Option<RenameFileOptions>,
    /// The annotation that says what the change is for. Since 3.16.
    pub annotation_id: Option<ChangeAnnotationIdentifier>,
}

impl Clone for RenameFile {
    ghost is_clone = { λ x y. ⟦<Uri as Clone>⟧.is_clone x.old_uri y.old_uri
        × ⟦<Uri as Clone>⟧.is_clone x.new_uri y.new_uri
        × ⟦<Option<RenameFileOptions> as Clone>⟧.is_clone x.options y.options
        × ⟦<Option<ChangeAnnotationIdentifier> as Clone>⟧.is_clone
        x.annotation_id y.annotation_id };

    fn clone(&self) -> Result<RenameFile, AllocError> {
        let mut copies = Copies::new();
        let copy = RenameFile {
            old_uri: self.old_uri.clone()?,
            new_uri: self.new_uri.clone()?,
            options: copies.optional(&self.options),
            annotation_id: copies.optional(&self.annotation_id),
        };
        copies.end(copy)
    }
}

#[tactic(auto, unfolding(crate::specs::Resource::rename_file_row))]
impl Wire for RenameFile {
    ghost shape = { rename_file_row.shape };

    ghost shown = { rename_file_row.shown };

    fn from_value(alloc: Global, value: &Value) -> Result<RenameFile, Misfit> {
        let (old_uri, new_uri, options, annotation_id) = read_object(
            alloc,
            value,
            (
                Required("oldUri"),
                Required("newUri"),
                Optional("options"),
                Optional("annotationId"),
            ),
        )?;
        Ok(RenameFile {
            old_uri,
            new_uri,
            options,
            annotation_id,
        })
    }

    fn to_value(&self, alloc: Global) -> Result<Value, NoMemory> {
        let mut object = Writer::new(alloc);
        object.field("oldUri", &self.old_uri);
        object.field("newUri", &self.new_uri);
        object.optional("options", &self.options);
        object.optional("annotationId", &self.annotation_id);
        object.end()
    }
}

/// How much to delete, and what to do where nothing is there. Since 3.13 (LSP 3.17, "File Resource
/// changes").
#[derive(Debug, PartialEq, Eq, Clone, Drop)]
pub struct DeleteFileOptions {
    /// Whether to delete what a folder holds with it.
    pub recursive: Option<bool>,
    /// Whether it is no error that the file is not there.
    pub ignore_if_not_exists: Option<bool>,
    /// The annotation that says what the change is for. LSP 3.17 has this member in `DeleteFile`,
    /// beside `options`; here it is written among the options, where clients don't look for it.
    /// Since 3.16.
    pub annotation_id: Option<ChangeAnnotationIdentifier>,
}

#[tactic(auto, unfolding(crate::specs::Resource::delete_file_options_row))]
impl Wire for DeleteFileOptions {
    ghost shape = { delete_file_options_row.shape };

    ghost shown = { delete_file_options_row.shown };

    fn from_value(alloc: Global, value: &Value) -> Result<DeleteFileOptions, Misfit> {
        let (recursive, ignore_if_not_exists, annotation_id) = read_object(
            alloc,
            value,
            (
                Optional("recursive"),
                Optional("ignoreIfNotExists"),
                Optional("annotationId"),
            ),
        )?;
        Ok(DeleteFileOptions {
            recursive,
            ignore_if_not_exists,
            annotation_id,
        })
    }

    fn to_value(&self, alloc: Global) -> Result<Value, NoMemory> {
        let mut object = Writer::new(alloc);
        object.optional("recursive", &self.recursive);
        object.optional("ignoreIfNotExists", &self.ignore_if_not_exists);
        object.optional("annotationId", &self.annotation_id);
        object.end()
    }
}

/// A file or folder to delete. Since 3.13 (LSP 3.17, "File Resource changes").
#[derive(Debug, PartialEq, Eq, Clone, Drop)]
pub struct DeleteFile {
    /// The file or folder.
    pub uri: Uri,
    /// How much to delete, and what to do where nothing is there.
    pub options: Option<DeleteFileOptions>,
}

#[tactic(auto, unfolding(crate::specs::Resource::delete_file_row))]
impl Wire for DeleteFile {
    ghost shape = { delete_file_row.shape };

    ghost shown = { delete_file_row.shown };

    fn from_value(alloc: Global, value: &Value) -> Result<DeleteFile, Misfit> {
        let (uri, options) = read_object(alloc, value, (Required("uri"), Optional("options")))?;
        Ok(DeleteFile { uri, options })
    }

    fn to_value(&self, alloc: Global) -> Result<Value, NoMemory> {
        let mut object = Writer::new(alloc);
        object.field("uri", &self.uri);
        object.optional("options", &self.options);
        object.end()
    }
}

/// A change of a file or folder, told by its member `kind`. Since 3.13 (LSP 3.17, "File Resource
/// changes").
#[derive(Debug, PartialEq, Eq, Clone, Drop)]
pub enum ResourceOp {
    /// Creates it.
    Create(CreateFile),
    /// Renames it.
    Rename(RenameFile),
    /// Deletes it.
    Delete(DeleteFile),
}

#[tactic(auto, unfolding(crate::specs::Resource::resource_op_row, crate::specs::Resource::create_file_row, crate::specs::Resource::rename_file_row, crate::specs::Resource::delete_file_row))]
impl Wire for ResourceOp {
    ghost shape = { resource_op_row.shape };

    ghost shown = { resource_op_row.shown };

    fn from_value(alloc: Global, value: &Value) -> Result<ResourceOp, Misfit> {
        match tag(value, "kind") {
            Some("create") => Ok(ResourceOp::Create(form(alloc, value)?)),
            Some("rename") => Ok(ResourceOp::Rename(form(alloc, value)?)),
            Some("delete") => Ok(ResourceOp::Delete(form(alloc, value)?)),
            _ => Err(Misfit::wanted(Wanted::Form)),
        }
    }

    fn to_value(&self, alloc: Global) -> Result<Value, NoMemory> {
        match self {
            ResourceOp::Create(create) => put_tag(alloc, "kind", "create", create),
            ResourceOp::Rename(rename) => put_tag(alloc, "kind", "rename", rename),
            ResourceOp::Delete(delete) => put_tag(alloc, "kind", "delete", delete),
        }
    }
}
