// Notebooks.
ghost use Rattle.lsp_offer_work.specs.Notebook.{notebook_document_sync_options_row, notebook_document_sync_registration_options_row, notebook_cell_text_document_filter_row, notebook_selector_by_notebook_row, notebook_selector_by_cells_row, notebook_selector_row, notebook_cell_selector_row, notebook_row, notebook_document_filter_by_type_row, notebook_document_filter_by_scheme_row, notebook_document_filter_by_pattern_row, notebook_document_filter_row};

use lsp_shape::{Misfit, NoMemory, Optional, Required, Wire, Writer, attempt, form, read_object};
use serde_json::Value;
use std::alloc::Global;

/// The notebooks on which a server wants the `notebookDocument/did..` notifications, as the
/// capability `notebookDocumentSync`. Since 3.17 (LSP 3.17, "Notebook Document Synchronization").
#[derive(Debug, PartialEq, Eq, Clone, Drop)]
pub struct NotebookDocumentSyncOptions {
    /// The notebooks, and which of their cells are sent.
    pub notebook_selector: Vec<NotebookSelector>,
    /// Whether the client is to send `notebookDocument/didSave`. Absent: it isn't.
    pub save: Option<bool>,
}

#[tactic(auto, unfolding(crate::specs::Notebook::notebook_document_sync_options_row))]
impl Wire for NotebookDocumentSyncOptions {
    ghost shape = { notebook_document_sync_options_row.shape };

    ghost shown = { notebook_document_sync_options_row.shown };

    fn from_value(alloc: Global, value: &Value) -> Result<NotebookDocumentSyncOptions, Misfit> {
        let (notebook_selector, save) = read_object(
            alloc,
            value,
            (Required("notebookSelector"), Optional("save")),
        )?;
        Ok(NotebookDocumentSyncOptions {
            notebook_selector,
            save,
        })
    }

    fn to_value(&self, alloc: Global) -> Result<Value, NoMemory> {
        let mut object = Writer::new(alloc);
        object.field("notebookSelector", &self.notebook_selector);
        object.optional("save", &self.save);
        object.end()
    }
}

/// Options for registering the synchronization of notebooks, in `ServerCapabilities` or while the
/// server runs, with the method `notebookDocument/sync`. Since 3.17 (LSP 3.17, "Notebook Document
/// Synchronization").
#[derive(Debug, PartialEq, Eq, Clone, Drop)]
pub struct NotebookDocumentSyncRegistrationOptions {
    /// The notebooks, and which of their cells are sent.
    pub notebook_selector: Vec<NotebookSelector>,
    /// Whether the client is to send `notebookDocument/didSave`. Absent: it isn't.
    pub save: Option<bool>,
    /// The id for unregistering what is registered in `ServerCapabilities`. A dynamic registration
    /// has its id in `Registration`.
    pub id: Option<String>,
}

#[tactic(auto, unfolding(crate::specs::Notebook::notebook_document_sync_registration_options_row))]
impl Wire for NotebookDocumentSyncRegistrationOptions {
    ghost shape = { notebook_document_sync_registration_options_row.shape };

    ghost shown = { notebook_document_sync_registration_options_row.shown };

    fn from_value(
        alloc: Global,
        value: &Value,
    ) -> Result<NotebookDocumentSyncRegistrationOptions, Misfit> {
        let (notebook_selector, save, id) = read_object(
            alloc,
            value,
            (
                Required("notebookSelector"),
                Optional("save"),
                Optional("id"),
            ),
        )?;
        Ok(NotebookDocumentSyncRegistrationOptions {
            notebook_selector,
            save,
            id,
        })
    }

    fn to_value(&self, alloc: Global) -> Result<Value, NoMemory> {
        let mut object = Writer::new(alloc);
        object.field("notebookSelector", &self.notebook_selector);
        object.optional("save", &self.save);
        object.optional("id", &self.id);
        object.end()
    }
}

/// Selects the text documents of notebook cells, as LSP allows in a document selector; the type
/// `DocumentSelector` has no place for it. Since 3.17 (LSP 3.17, "Notebook Document
/// Synchronization").
#[derive(Debug, PartialEq, Eq, Clone, Drop)]
pub struct NotebookCellTextDocumentFilter {
    /// The notebook that contains the cell.
    pub notebook: Notebook,
    /// The language id of the cell's text document, such as `python`. Absent or `*` means any
    /// language.
    pub language: Option<String>,
}

#[tactic(auto, unfolding(crate::specs::Notebook::notebook_cell_text_document_filter_row))]
impl Wire for NotebookCellTextDocumentFilter {
    ghost shape = { notebook_cell_text_document_filter_row.shape };

    ghost shown = { notebook_cell_text_document_filter_row.shown };

    fn from_value(alloc: Global, value: &Value) -> Result<NotebookCellTextDocumentFilter, Misfit> {
        let (notebook, language) = read_object(
            alloc,
            value,
            (Required("notebook"), Optional("language")),
        )?;
        Ok(NotebookCellTextDocumentFilter { notebook, language })
    }

    fn to_value(&self, alloc: Global) -> Result<Value, NoMemory> {
        let mut object = Writer::new(alloc);
        object.field("notebook", &self.notebook);
        object.optional("language", &self.language);
        object.end()
    }
}

/// Selects notebooks and the cells of them that are synchronized, by the notebook, by the cells, or
/// by both. Since 3.17 (LSP 3.17, "Notebook Document Synchronization").
#[derive(Debug, PartialEq, Eq, Clone, Drop)]
pub enum NotebookSelector {
    /// Selects by the notebook, and optionally by its cells.
    ByNotebook {
        /// The notebooks, by their type or by a filter.
        notebook: Notebook,
        /// The cells to synchronize. Absent: all cells of the notebook.
        cells: Option<Vec<NotebookCellSelector>>,
    },
    /// Selects by the cells, and optionally by the notebook. A selector with both is read as
    /// `ByNotebook`.
    ByCells {
        /// The notebooks, by their type or by a filter. Absent: every notebook that has a matching
        /// cell.
        notebook: Option<Notebook>,
        /// The cells to synchronize.
        cells: Vec<NotebookCellSelector>,
    },
}

// The fields of `NotebookSelector::ByNotebook`.
#[derive(Drop)]
struct NotebookSelectorByNotebook {
    notebook: Notebook,
    cells: Option<Vec<NotebookCellSelector>>,
}

#[tactic(auto, unfolding(crate::specs::Notebook::notebook_selector_by_notebook_row))]
impl Wire for NotebookSelectorByNotebook {
    ghost shape = { notebook_selector_by_notebook_row.shape };

    ghost shown = { notebook_selector_by_notebook_row.shown };

    fn from_value(alloc: Global, value: &Value) -> Result<NotebookSelectorByNotebook, Misfit> {
        let (notebook, cells) = read_object(
            alloc,
            value,
            (Required("notebook"), Optional("cells")),
        )?;
        Ok(NotebookSelectorByNotebook { notebook, cells })
    }

    fn to_value(&self, alloc: Global) -> Result<Value, NoMemory> {
        let mut object = Writer::new(alloc);
        object.field("notebook", &self.notebook);
        object.optional("cells", &self.cells);
        object.end()
    }
}

// The fields of `NotebookSelector::ByCells`.
#[derive(Drop)]
struct NotebookSelectorByCells {
    notebook: Option<Notebook>,
    cells: Vec<NotebookCellSelector>,
}

#[tactic(auto, unfolding(crate::specs::Notebook::notebook_selector_by_cells_row))]
impl Wire for NotebookSelectorByCells {
    ghost shape = { notebook_selector_by_cells_row.shape };

    ghost shown = { notebook_selector_by_cells_row.shown };

    fn from_value(alloc: Global, value: &Value) -> Result<NotebookSelectorByCells, Misfit> {
        let (notebook, cells) = read_object(
            alloc,
            value,
            (Optional("notebook"), Required("cells")),
        )?;
        Ok(NotebookSelectorByCells { notebook, cells })
    }

    fn to_value(&self, alloc: Global) -> Result<Value, NoMemory> {
        let mut object = Writer::new(alloc);
        object.optional("notebook", &self.notebook);
        object.field("cells", &self.cells);
        object.end()
    }
}

#[tactic(auto, unfolding(crate::specs::Notebook::notebook_selector_row, crate::specs::Notebook::notebook_selector_by_notebook_row, crate::specs::Notebook::notebook_selector_by_cells_row))]
impl Wire for NotebookSelector {
    ghost shape = { notebook_selector_row.shape };

    ghost shown = { notebook_selector_row.shown };

    fn from_value(alloc: Global, value: &Value) -> Result<NotebookSelector, Misfit> {
        if let Some(x) = attempt::<NotebookSelectorByNotebook>(alloc, value)? {
            return Ok(NotebookSelector::ByNotebook {
                notebook: x.notebook,
                cells: x.cells,
            });
        }
        let by_cells = form::<NotebookSelectorByCells>(alloc, value)?;
        Ok(NotebookSelector::ByCells {
            notebook: by_cells.notebook,
            cells: by_cells.cells,
        })
    }

    fn to_value(&self, alloc: Global) -> Result<Value, NoMemory> {
        match self {
            NotebookSelector::ByNotebook { notebook, cells } => {
                let mut object = Writer::new(alloc);
                object.field("notebook", notebook);
                object.optional("cells", cells);
                object.end()
            }
            NotebookSelector::ByCells { notebook, cells } => {
                let mut object = Writer::new(alloc);
                object.optional("notebook", notebook);
                object.field("cells", cells);
                object.end()
            }
        }
    }
}

/// Selects cells of a notebook, in a `NotebookSelector`. Since 3.17 (LSP 3.17, "Notebook Document
/// Synchronization").
#[derive(Debug, PartialEq, Eq, Clone, Drop)]
pub struct NotebookCellSelector {
    /// The language id of the cell's text document, such as `python`.
    pub language: String,
}

#[tactic(auto, unfolding(crate::specs::Notebook::notebook_cell_selector_row))]
impl Wire for NotebookCellSelector {
    ghost shape = { notebook_cell_selector_row.shape };

    ghost shown = { notebook_cell_selector_row.shown };

    fn from_value(alloc: Global, value: &Value) -> Result<NotebookCellSelector, Misfit> {
        let language = read_object(alloc, value, Required("language"))?;
        Ok(NotebookCellSelector { language })
    }

    fn to_value(&self, alloc: Global) -> Result<Value, NoMemory> {
        let mut object = Writer::new(alloc);
        object.field("language", &self.language);
        object.end()
    }
}

/// Selects notebooks by their type or by a filter, since 3.17 (LSP 3.17, "Notebook Document
/// Synchronization").
#[derive(Debug, PartialEq, Eq, Clone, Drop)]
pub enum Notebook {
    /// The type of the notebook, such as `jupyter-notebook`, or `*` for every notebook.
    String(String),
    /// A filter that the notebook matches.
    NotebookDocumentFilter(NotebookDocumentFilter),
}

#[tactic(auto, unfolding(crate::specs::Notebook::notebook_row))]
impl Wire for Notebook {
    ghost shape = { notebook_row.shape };

    ghost shown = { notebook_row.shown };

    fn from_value(alloc: Global, value: &Value) -> Result<Notebook, Misfit> {
        if let Some(string) = attempt(alloc, value)? {
            return Ok(Notebook::String(string));
        }
        Ok(Notebook::NotebookDocumentFilter(form(alloc, value)?))
    }

    fn to_value(&self, alloc: Global) -> Result<Value, NoMemory> {
        match self {
            Notebook::String(string) => string.to_value(alloc),
            Notebook::NotebookDocumentFilter(filter) => filter.to_value(alloc),
        }
    }
}

/// Selects notebooks by type, URI scheme and path: at least one is present, and all that are
/// present have to match. Since 3.17 (LSP 3.17, "Notebook Document Synchronization").
#[derive(Debug, PartialEq, Eq, Clone, Drop)]
pub enum NotebookDocumentFilter {
    /// A filter that has the type at least.
    ByType {
        /// The type of the notebook, such as `jupyter-notebook`.
        notebook_type: String,
        /// The scheme of its URI, such as `file`. Absent: any scheme.
        scheme: Option<String>,
        /// A glob pattern for its path. Absent: any path.
        pattern: Option<String>,
    },
    /// A filter that has the scheme at least. One with a type too is read as `ByType`.
    ByScheme {
        /// The type of the notebook, such as `jupyter-notebook`. Absent: any type.
        notebook_type: Option<String>,
        /// The scheme of its URI, such as `file`.
        scheme: String,
        /// A glob pattern for its path. Absent: any path.
        pattern: Option<String>,
    },
    /// A filter that has the pattern at least. One with a type too is read as `ByType`, and one
    /// with a scheme as `ByScheme`.
    ByPattern {
        /// The type of the notebook, such as `jupyter-notebook`. Absent: any type.
        notebook_type: Option<String>,
        /// The scheme of its URI, such as `file`. Absent: any scheme.
        scheme: Option<String>,
        /// A glob pattern for its path.
        pattern: String,
    },
}

// The fields of `NotebookDocumentFilter::ByType`.
#[derive(Drop)]
struct NotebookDocumentFilterByType {
    notebook_type: String,
    scheme: Option<String>,
    pattern: Option<String>,
}

#[tactic(auto, unfolding(crate::specs::Notebook::notebook_document_filter_by_type_row))]
impl Wire for NotebookDocumentFilterByType {
    ghost shape = { notebook_document_filter_by_type_row.shape };

    ghost shown = { notebook_document_filter_by_type_row.shown };

    fn from_value(alloc: Global, value: &Value) -> Result<NotebookDocumentFilterByType, Misfit> {
        let (notebook_type, scheme, pattern) = read_object(
            alloc,
            value,
            (
                Required("notebookType"),
                Optional("scheme"),
                Optional("pattern"),
            ),
        )?;
        Ok(NotebookDocumentFilterByType {
            notebook_type,
            scheme,
            pattern,
        })
    }

    fn to_value(&self, alloc: Global) -> Result<Value, NoMemory> {
        let mut object = Writer::new(alloc);
        object.field("notebookType", &self.notebook_type);
        object.optional("scheme", &self.scheme);
        object.optional("pattern", &self.pattern);
        object.end()
    }
}

// The fields of `NotebookDocumentFilter::ByScheme`.
#[derive(Drop)]
struct NotebookDocumentFilterByScheme {
    notebook_type: Option<String>,
    scheme: String,
    pattern: Option<String>,
}

#[tactic(auto, unfolding(crate::specs::Notebook::notebook_document_filter_by_scheme_row))]
impl Wire for NotebookDocumentFilterByScheme {
    ghost shape = { notebook_document_filter_by_scheme_row.shape };

    ghost shown = { notebook_document_filter_by_scheme_row.shown };

    fn from_value(alloc: Global, value: &Value) -> Result<NotebookDocumentFilterByScheme, Misfit> {
        let (notebook_type, scheme, pattern) = read_object(
            alloc,
            value,
            (
                Optional("notebookType"),
                Required("scheme"),
                Optional("pattern"),
            ),
        )?;
        Ok(NotebookDocumentFilterByScheme {
            notebook_type,
            scheme,
            pattern,
        })
    }

    fn to_value(&self, alloc: Global) -> Result<Value, NoMemory> {
        let mut object = Writer::new(alloc);
        object.optional("notebookType", &self.notebook_type);
        object.field("scheme", &self.scheme);
        object.optional("pattern", &self.pattern);
        object.end()
    }
}

// The fields of `NotebookDocumentFilter::ByPattern`.
#[derive(Drop)]
struct NotebookDocumentFilterByPattern {
    notebook_type: Option<String>,
    scheme: Option<String>,
    pattern: String,
}

#[tactic(auto, unfolding(crate::specs::Notebook::notebook_document_filter_by_pattern_row))]
impl Wire for NotebookDocumentFilterByPattern {
    ghost shape = { notebook_document_filter_by_pattern_row.shape };

    ghost shown = { notebook_document_filter_by_pattern_row.shown };

    fn from_value(alloc: Global, value: &Value) -> Result<NotebookDocumentFilterByPattern, Misfit> {
        let (notebook_type, scheme, pattern) = read_object(
            alloc,
            value,
            (
                Optional("notebookType"),
                Optional("scheme"),
                Required("pattern"),
            ),
        )?;
        Ok(NotebookDocumentFilterByPattern {
            notebook_type,
            scheme,
            pattern,
        })
    }

    fn to_value(&self, alloc: Global) -> Result<Value, NoMemory> {
        let mut object = Writer::new(alloc);
        object.optional("notebookType", &self.notebook_type);
        object.optional("scheme", &self.scheme);
        object.field("pattern", &self.pattern);
        object.end()
    }
}

#[tactic(auto, unfolding(crate::specs::Notebook::notebook_document_filter_row, crate::specs::Notebook::notebook_document_filter_by_type_row, crate::specs::Notebook::notebook_document_filter_by_scheme_row, crate::specs::Notebook::notebook_document_filter_by_pattern_row))]
impl Wire for NotebookDocumentFilter {
    ghost shape = { notebook_document_filter_row.shape };

    ghost shown = { notebook_document_filter_row.shown };

    fn from_value(alloc: Global, value: &Value) -> Result<NotebookDocumentFilter, Misfit> {
        if let Some(x) = attempt::<NotebookDocumentFilterByType>(alloc, value)? {
            return Ok(NotebookDocumentFilter::ByType {
                notebook_type: x.notebook_type,
                scheme: x.scheme,
                pattern: x.pattern,
            });
        }
        if let Some(x) = attempt::<NotebookDocumentFilterByScheme>(alloc, value)? {
            return Ok(NotebookDocumentFilter::ByScheme {
                notebook_type: x.notebook_type,
                scheme: x.scheme,
                pattern: x.pattern,
            });
        }
        let by_pattern = form::<NotebookDocumentFilterByPattern>(alloc, value)?;
        Ok(NotebookDocumentFilter::ByPattern {
            notebook_type: by_pattern.notebook_type,
            scheme: by_pattern.scheme,
            pattern: by_pattern.pattern,
        })
    }

    fn to_value(&self, alloc: Global) -> Result<Value, NoMemory> {
        match self {
            NotebookDocumentFilter::ByType {
                notebook_type,
                scheme,
                pattern,
            } => {
                let mut object = Writer::new(alloc);
                object.field("notebookType", notebook_type);
                object.optional("scheme", scheme);
                object.optional("pattern", pattern);
                object.end()
            }
            NotebookDocumentFilter::ByScheme {
                notebook_type,
                scheme,
                pattern,
            } => {
                let mut object = Writer::new(alloc);
                object.optional("notebookType", notebook_type);
                object.field("scheme", scheme);
                object.optional("pattern", pattern);
                object.end()
            }
            NotebookDocumentFilter::ByPattern {
                notebook_type,
                scheme,
                pattern,
            } => {
                let mut object = Writer::new(alloc);
                object.optional("notebookType", notebook_type);
                object.optional("scheme", scheme);
                object.field("pattern", pattern);
                object.end()
            }
        }
    }
}
