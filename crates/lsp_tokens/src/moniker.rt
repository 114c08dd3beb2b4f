// Monikers.
ghost use Rattle.lsp_tokens.specs.Moniker.{moniker_params_row, moniker_row, uniqueness_level_row, moniker_kind_row};

use lsp_base::{PartialResultParams, TextDocumentPositionParams, WorkDoneProgressParams};
use lsp_shape::{Misfit, NoMemory, Optional, Required, Wanted, Wire, Writer, flat, read_object};
use serde_json::Value;
use std::alloc::Global;

/// The parameters of a `textDocument/moniker` request, which asks for the monikers of the symbol at
/// a position. Since 3.16 (LSP 3.17, "Monikers").
#[derive(Debug, PartialEq, Eq, Clone, Drop)]
pub struct MonikerParams {
    /// The document, and the position of the symbol.
    pub text_document_position_params: TextDocumentPositionParams,
    /// The token, chosen by the client, under which the server may report work done progress with
    /// `$/progress`. Absent: the client asks for none. Since 3.15.
    pub work_done_progress_params: WorkDoneProgressParams,
    /// The token for sending the result in parts, as arrays of `Moniker` in `$/progress`
    /// notifications, with an empty response after them. Absent: the response has the whole result.
    pub partial_result_params: PartialResultParams,
}

#[tactic(auto, unfolding(crate::specs::Moniker::moniker_params_row, lsp_base::specs::Document::text_document_position_params_row, lsp_base::specs::Progress::work_done_progress_params_row, lsp_base::specs::Progress::partial_result_params_row))]
impl Wire for MonikerParams {
    ghost shape = { moniker_params_row.shape };

    ghost shown = { moniker_params_row.shown };

    fn from_value(alloc: Global, value: &Value) -> Result<MonikerParams, Misfit> {
        Ok(MonikerParams {
            text_document_position_params: flat(alloc, value)?,
            work_done_progress_params: flat(alloc, value)?,
            partial_result_params: flat(alloc, value)?,
        })
    }

    fn to_value(&self, alloc: Global) -> Result<Value, NoMemory> {
        let mut object = Writer::new(alloc);
        object.flat(&self.text_document_position_params);
        object.flat(&self.work_done_progress_params);
        object.flat(&self.partial_result_params);
        object.end()
    }
}

/// A name for a symbol that also holds in other projects and indexes, in the result of
/// `textDocument/moniker` and in LSIF dumps. Since 3.16 (LSP 3.17, "Monikers").
#[derive(Debug, PartialEq, Eq, Clone, Drop)]
pub struct Moniker {
    /// The naming scheme that the identifier follows, such as `tsc` or `npm`.
    pub scheme: String,
    /// The name itself. Its structure is up to the owner of the scheme; others should only compare
    /// it.
    pub identifier: String,
    /// The scope in which no other symbol has this moniker.
    pub unique: UniquenessLevel,
    /// Whether the symbol is imported, exported or local to the project. Absent if that isn't
    /// known.
    pub kind: Option<MonikerKind>,
}

#[tactic(auto, unfolding(crate::specs::Moniker::moniker_row))]
impl Wire for Moniker {
    ghost shape = { moniker_row.shape };

    ghost shown = { moniker_row.shown };

    fn from_value(alloc: Global, value: &Value) -> Result<Moniker, Misfit> {
        let (scheme, identifier, unique, kind) = read_object(
            alloc,
            value,
            (
                Required("scheme"),
                Required("identifier"),
                Required("unique"),
                Optional("kind"),
            ),
        )?;
        Ok(Moniker {
            scheme,
            identifier,
            unique,
            kind,
        })
    }

    fn to_value(&self, alloc: Global) -> Result<Value, NoMemory> {
        let mut object = Writer::new(alloc);
        object.field("scheme", &self.scheme);
        object.field("identifier", &self.identifier);
        object.field("unique", &self.unique);
        object.optional("kind", &self.kind);
        object.end()
    }
}

/// The scope in which a `Moniker` stands for one symbol only. Since 3.16 (LSP 3.17, "Monikers").
#[derive(Debug, PartialEq, Eq, Clone, Copy)]
pub enum UniquenessLevel {
    /// Within one document.
    Document,
    /// Within the project that the index was made for.
    Project,
    /// Within the group of projects that the project belongs to.
    Group,
    /// Among all monikers of the same scheme.
    Scheme,
    /// Everywhere.
    Global,
}

#[tactic(auto, unfolding(crate::specs::Moniker::uniqueness_level_row))]
impl Wire for UniquenessLevel {
    ghost shape = { uniqueness_level_row.shape };

    ghost shown = { uniqueness_level_row.shown };

    fn from_value(_alloc: Global, value: &Value) -> Result<UniquenessLevel, Misfit> {
        match value.as_str() {
            Some("document") => Ok(UniquenessLevel::Document),
            Some("project") => Ok(UniquenessLevel::Project),
            Some("group") => Ok(UniquenessLevel::Group),
            Some("scheme") => Ok(UniquenessLevel::Scheme),
            Some("global") => Ok(UniquenessLevel::Global),
            _ => Err(Misfit::wanted(Wanted::Name)),
        }
    }

    fn to_value(&self, alloc: Global) -> Result<Value, NoMemory> {
        let name = match self {
            UniquenessLevel::Document => "document",
            UniquenessLevel::Project => "project",
            UniquenessLevel::Group => "group",
            UniquenessLevel::Scheme => "scheme",
            UniquenessLevel::Global => "global",
        };
        Ok(Value::try_from_str(alloc, name)?)
    }
}

/// How the symbol of a `Moniker` relates to the project. Since 3.16 (LSP 3.17, "Monikers").
#[derive(Debug, PartialEq, Eq, Clone, Copy)]
pub enum MonikerKind {
    /// The symbol comes from elsewhere, and the project uses it.
    Import,
    /// The symbol is defined in the project, and other projects can use it.
    Export,
    /// The symbol can't be used outside the project, such as a local variable or a private class.
    Local,
}

#[tactic(auto, unfolding(crate::specs::Moniker::moniker_kind_row))]
impl Wire for MonikerKind {
    ghost shape = { moniker_kind_row.shape };

    ghost shown = { moniker_kind_row.shown };

    fn from_value(_alloc: Global, value: &Value) -> Result<MonikerKind, Misfit> {
        match value.as_str() {
            Some("import") => Ok(MonikerKind::Import),
            Some("export") => Ok(MonikerKind::Export),
            Some("local") => Ok(MonikerKind::Local),
            _ => Err(Misfit::wanted(Wanted::Name)),
        }
    }

    fn to_value(&self, alloc: Global) -> Result<Value, NoMemory> {
        let name = match self {
            MonikerKind::Import => "import",
            MonikerKind::Export => "export",
            MonikerKind::Local => "local",
        };
        Ok(Value::try_from_str(alloc, name)?)
    }
}
