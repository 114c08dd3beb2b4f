// Hierarchies of calls and of types.
ghost use Rattle.std.specs.Prelude.{◌≡◌};
ghost use Rattle.lsp_offer_lang.specs.Hierarchy.{call_hierarchy_server_capability_row, call_hierarchy_options_row, type_hierarchy_options_row, type_hierarchy_registration_options_row};
ghost use Rattle.lsp_offer_lang.specs.declared.hierarchy.CallHierarchyServerCapability.TheVariants as call_hierarchy_server_capability;

use lsp_base::{StaticRegistrationOptions, TextDocumentRegistrationOptions};
use lsp_names::WorkDoneProgressOptions;
use lsp_shape::{Misfit, NoMemory, Reader, Wire, Writer, attempt, flat, form};
use serde_json::Value;
use std::alloc::Global;

/// Whether a server supports `textDocument/prepareCallHierarchy` and the requests for incoming and
/// outgoing calls, as the capability `callHierarchyProvider`. Since 3.16 (LSP 3.17, "Prepare Call
/// Hierarchy Request").
#[derive(Debug, PartialEq, Eq, Clone, Copy)]
pub enum CallHierarchyServerCapability {
    /// `true` if the requests are supported.
    Simple(bool),
    /// The requests are supported, with these options.
    Options(CallHierarchyOptions),
}

#[tactic(auto, unfolding(crate::specs::Hierarchy::call_hierarchy_server_capability_row))]
impl Wire for CallHierarchyServerCapability {
    ghost shape = { call_hierarchy_server_capability_row.shape };

    ghost shown = { call_hierarchy_server_capability_row.shown };

    fn from_value(alloc: Global, value: &Value) -> Result<CallHierarchyServerCapability, Misfit> {
        if let Some(simple) = attempt(alloc, value)? {
            return Ok(CallHierarchyServerCapability::Simple(simple));
        }
        Ok(CallHierarchyServerCapability::Options(form(alloc, value)?))
    }

    fn to_value(&self, alloc: Global) -> Result<Value, NoMemory> {
        match self {
            CallHierarchyServerCapability::Simple(simple) => simple.to_value(alloc),
            CallHierarchyServerCapability::Options(options) => options.to_value(alloc),
        }
    }
}

impl From<CallHierarchyOptions> for CallHierarchyServerCapability {
    ghost from_gives = { λ given made. made ≡ call_hierarchy_server_capability.Options given };

    fn from(options: CallHierarchyOptions) -> CallHierarchyServerCapability {
        CallHierarchyServerCapability::Options(options)
    }
}

impl From<bool> for CallHierarchyServerCapability {
    ghost from_gives = { λ given made. made ≡ call_hierarchy_server_capability.Simple given };

    fn from(simple: bool) -> CallHierarchyServerCapability {
        CallHierarchyServerCapability::Simple(simple)
    }
}

/// Options for `textDocument/prepareCallHierarchy` and the requests for incoming and outgoing
/// calls, since 3.16 (LSP 3.17, "Prepare Call Hierarchy Request").
#[derive(Debug, PartialEq, Eq, Default, Clone, Copy)]
pub struct CallHierarchyOptions {
    /// Whether the server can report progress on these requests.
    pub work_done_progress_options: WorkDoneProgressOptions,
}

#[tactic(auto, unfolding(crate::specs::Hierarchy::call_hierarchy_options_row, lsp_names::specs::Progress::work_done_progress_options_row))]
impl Wire for CallHierarchyOptions {
    ghost shape = { call_hierarchy_options_row.shape };

    ghost shown = { call_hierarchy_options_row.shown };

    fn from_value(alloc: Global, value: &Value) -> Result<CallHierarchyOptions, Misfit> {
        Ok(CallHierarchyOptions {
            work_done_progress_options: flat(alloc, value)?,
        })
    }

    fn to_value(&self, alloc: Global) -> Result<Value, NoMemory> {
        let mut object = Writer::new(alloc);
        object.flat(&self.work_done_progress_options);
        object.end()
    }
}

/// Options for `textDocument/prepareTypeHierarchy` and the requests for supertypes and subtypes,
/// since 3.17 (LSP 3.17, "Prepare Type Hierarchy Request").
#[derive(Debug, PartialEq, Eq, Default, Clone, Drop)]
pub struct TypeHierarchyOptions {
    /// Whether the server can report progress on these requests.
    pub work_done_progress_options: WorkDoneProgressOptions,
}

#[tactic(auto, unfolding(crate::specs::Hierarchy::type_hierarchy_options_row, lsp_names::specs::Progress::work_done_progress_options_row))]
impl Wire for TypeHierarchyOptions {
    ghost shape = { type_hierarchy_options_row.shape };

    ghost shown = { type_hierarchy_options_row.shown };

    fn from_value(alloc: Global, value: &Value) -> Result<TypeHierarchyOptions, Misfit> {
        Ok(TypeHierarchyOptions {
            work_done_progress_options: flat(alloc, value)?,
        })
    }

    fn to_value(&self, alloc: Global) -> Result<Value, NoMemory> {
        let mut object = Writer::new(alloc);
        object.flat(&self.work_done_progress_options);
        object.end()
    }
}

/// Options for registering `textDocument/prepareTypeHierarchy` while the server runs. LSP 3.17 also
/// has the server capability `typeHierarchyProvider`, for which `ServerCapabilities` has no field.
/// Since 3.17 (LSP 3.17, "Prepare Type Hierarchy Request").
#[derive(Debug, PartialEq, Eq, Default, Clone, Drop)]
pub struct TypeHierarchyRegistrationOptions {
    /// The documents for which type hierarchies are offered.
    pub text_document_registration_options: TextDocumentRegistrationOptions,
    /// The options for the requests.
    pub type_hierarchy_options: TypeHierarchyOptions,
    /// The id for static registration, which `ServerCapabilities` has no field for. A dynamic
    /// registration has its id in `Registration`.
    pub static_registration_options: StaticRegistrationOptions,
}

#[tactic(auto, unfolding(crate::specs::Hierarchy::type_hierarchy_registration_options_row, lsp_base::specs::Registration::text_document_registration_options_row, crate::specs::Hierarchy::type_hierarchy_options_row, lsp_names::specs::Progress::work_done_progress_options_row, lsp_base::specs::Registration::static_registration_options_row))]
impl Wire for TypeHierarchyRegistrationOptions {
    ghost shape = { type_hierarchy_registration_options_row.shape };

    ghost shown = { type_hierarchy_registration_options_row.shown };

    fn from_value(
        alloc: Global,
        value: &Value,
    ) -> Result<TypeHierarchyRegistrationOptions, Misfit> {
        Ok(TypeHierarchyRegistrationOptions {
            text_document_registration_options: flat(alloc, value)?,
            type_hierarchy_options: flat(alloc, value)?,
            static_registration_options: flat(alloc, value)?,
        })
    }

    fn to_value(&self, alloc: Global) -> Result<Value, NoMemory> {
        let mut object = Writer::new(alloc);
        object.flat(&self.text_document_registration_options);
        object.flat(&self.type_hierarchy_options);
        object.flat(&self.static_registration_options);
        object.end()
    }
}
