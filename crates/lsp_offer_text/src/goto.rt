// Declarations, definitions, types and implementations.
ghost use Rattle.std.specs.Prelude.{◌≡◌};
ghost use Rattle.lsp_offer_text.specs.Goto.{static_text_document_registration_options_row, implementation_provider_capability_row, type_definition_provider_capability_row, declaration_capability_row, declaration_registration_options_row, declaration_options_row, definition_options_row, references_options_row, document_highlight_options_row, generic_registration_options_row, generic_options_row};
ghost use Rattle.lsp_offer_text.specs.declared.goto.ImplementationProviderCapability.TheVariants as implementation_provider_capability;
ghost use Rattle.lsp_offer_text.specs.declared.goto.TypeDefinitionProviderCapability.TheVariants as type_definition_provider_capability;

use lsp_base::{DocumentSelector, StaticRegistrationOptions, TextDocumentRegistrationOptions};
use lsp_names::WorkDoneProgressOptions;
use lsp_shape::{Misfit, NoMemory, Optional, Wire, Writer, attempt, flat, form, read_object};
use serde_json::Value;
use std::alloc::Global;

/// The documents and the id of a registration that a server makes in its response to `initialize`
/// (LSP 3.17, "Register Capability").
#[derive(Debug, PartialEq, Eq, Clone, Drop)]
pub struct StaticTextDocumentRegistrationOptions {
    /// The documents that the registration applies to. `None`, sent as `null`: those that the
    /// client selects itself.
    pub document_selector: Option<DocumentSelector>,
    /// The id with which the server can unregister the feature later, using
    /// `client/unregisterCapability`. Absent: it can't.
    pub id: Option<String>,
}

#[tactic(auto, unfolding(crate::specs::Goto::static_text_document_registration_options_row))]
impl Wire for StaticTextDocumentRegistrationOptions {
    ghost shape = { static_text_document_registration_options_row.shape };

    ghost shown = { static_text_document_registration_options_row.shown };

    fn from_value(
        alloc: Global,
        value: &Value,
    ) -> Result<StaticTextDocumentRegistrationOptions, Misfit> {
        let (document_selector, id) = read_object(
            alloc,
            value,
            (Optional("documentSelector"), Optional("id")),
        )?;
        Ok(StaticTextDocumentRegistrationOptions {
            document_selector,
            id,
        })
    }

    fn to_value(&self, alloc: Global) -> Result<Value, NoMemory> {
        let mut object = Writer::new(alloc);
        object.nullable("documentSelector", &self.document_selector);
        object.optional("id", &self.id);
        object.end()
    }
}

/// Whether a server supports `textDocument/implementation`, as the capability
/// `implementationProvider`. Since 3.6 (LSP 3.17, "Goto Implementation Request").
#[derive(Debug, PartialEq, Eq, Clone, Drop)]
pub enum ImplementationProviderCapability {
    /// `true` if the request is supported.
    Simple(bool),
    /// The request is supported for the selected documents.
    Options(StaticTextDocumentRegistrationOptions),
}

#[tactic(auto, unfolding(crate::specs::Goto::implementation_provider_capability_row))]
impl Wire for ImplementationProviderCapability {
    ghost shape = { implementation_provider_capability_row.shape };

    ghost shown = { implementation_provider_capability_row.shown };

    fn from_value(
        alloc: Global,
        value: &Value,
    ) -> Result<ImplementationProviderCapability, Misfit> {
        if let Some(simple) = attempt(alloc, value)? {
            return Ok(ImplementationProviderCapability::Simple(simple));
        }
        Ok(ImplementationProviderCapability::Options(form(alloc, value)?))
    }

    fn to_value(&self, alloc: Global) -> Result<Value, NoMemory> {
        match self {
            ImplementationProviderCapability::Simple(simple) => simple.to_value(alloc),
            ImplementationProviderCapability::Options(options) => options.to_value(alloc),
        }
    }
}

impl From<StaticTextDocumentRegistrationOptions> for ImplementationProviderCapability {
    ghost from_gives = { λ given made. made ≡ implementation_provider_capability.Options given };

    fn from(options: StaticTextDocumentRegistrationOptions) -> ImplementationProviderCapability {
        ImplementationProviderCapability::Options(options)
    }
}

impl From<bool> for ImplementationProviderCapability {
    ghost from_gives = { λ given made. made ≡ implementation_provider_capability.Simple given };

    fn from(simple: bool) -> ImplementationProviderCapability {
        ImplementationProviderCapability::Simple(simple)
    }
}

/// Whether a server supports `textDocument/typeDefinition`, as the capability
/// `typeDefinitionProvider`. Since 3.6 (LSP 3.17, "Goto Type Definition Request").
#[derive(Debug, PartialEq, Eq, Clone, Drop)]
pub enum TypeDefinitionProviderCapability {
    /// `true` if the request is supported.
    Simple(bool),
    /// The request is supported for the selected documents.
    Options(StaticTextDocumentRegistrationOptions),
}

#[tactic(auto, unfolding(crate::specs::Goto::type_definition_provider_capability_row))]
impl Wire for TypeDefinitionProviderCapability {
    ghost shape = { type_definition_provider_capability_row.shape };

    ghost shown = { type_definition_provider_capability_row.shown };

    fn from_value(
        alloc: Global,
        value: &Value,
    ) -> Result<TypeDefinitionProviderCapability, Misfit> {
        if let Some(simple) = attempt(alloc, value)? {
            return Ok(TypeDefinitionProviderCapability::Simple(simple));
        }
        Ok(TypeDefinitionProviderCapability::Options(form(alloc, value)?))
    }

    fn to_value(&self, alloc: Global) -> Result<Value, NoMemory> {
        match self {
            TypeDefinitionProviderCapability::Simple(simple) => simple.to_value(alloc),
            TypeDefinitionProviderCapability::Options(options) => options.to_value(alloc),
        }
    }
}

impl From<StaticTextDocumentRegistrationOptions> for TypeDefinitionProviderCapability {
    ghost from_gives = { λ given made. made ≡ type_definition_provider_capability.Options given };

    fn from(options: StaticTextDocumentRegistrationOptions) -> TypeDefinitionProviderCapability {
        TypeDefinitionProviderCapability::Options(options)
    }
}

impl From<bool> for TypeDefinitionProviderCapability {
    ghost from_gives = { λ given made. made ≡ type_definition_provider_capability.Simple given };

    fn from(simple: bool) -> TypeDefinitionProviderCapability {
        TypeDefinitionProviderCapability::Simple(simple)
    }
}

/// Whether a server supports `textDocument/declaration`, as the capability `declarationProvider`.
/// Since 3.14 (LSP 3.17, "Goto Declaration Request").
#[derive(Debug, PartialEq, Eq, Clone, Drop)]
pub enum DeclarationCapability {
    /// `true` if the request is supported.
    Simple(bool),
    /// The request is supported for the selected documents.
    RegistrationOptions(DeclarationRegistrationOptions),
    /// The request is supported, with these options. For sending only: such an object is read as
    /// `RegistrationOptions`.
    Options(DeclarationOptions),
}

#[tactic(auto, unfolding(crate::specs::Goto::declaration_capability_row))]
impl Wire for DeclarationCapability {
    ghost shape = { declaration_capability_row.shape };

    ghost shown = { declaration_capability_row.shown };

    fn from_value(alloc: Global, value: &Value) -> Result<DeclarationCapability, Misfit> {
        if let Some(simple) = attempt(alloc, value)? {
            return Ok(DeclarationCapability::Simple(simple));
        }
        if let Some(options) = attempt(alloc, value)? {
            return Ok(DeclarationCapability::RegistrationOptions(options));
        }
        Ok(DeclarationCapability::Options(form(alloc, value)?))
    }

    fn to_value(&self, alloc: Global) -> Result<Value, NoMemory> {
        match self {
            DeclarationCapability::Simple(simple) => simple.to_value(alloc),
            DeclarationCapability::RegistrationOptions(options) => options.to_value(alloc),
            DeclarationCapability::Options(options) => options.to_value(alloc),
        }
    }
}

/// The options with which a server registers `textDocument/declaration`. Since 3.14 (LSP 3.17,
/// "Goto Declaration Request").
#[derive(Debug, PartialEq, Eq, Clone, Drop)]
pub struct DeclarationRegistrationOptions {
    /// What the server offers for the documents of the registration.
    pub declaration_options: DeclarationOptions,
    /// The documents that the registration applies to.
    pub text_document_registration_options: TextDocumentRegistrationOptions,
    /// The id with which the server can unregister the feature later, using
    /// `client/unregisterCapability`.
    pub static_registration_options: StaticRegistrationOptions,
}

#[tactic(auto, unfolding(crate::specs::Goto::declaration_registration_options_row, crate::specs::Goto::declaration_options_row, lsp_names::specs::Progress::work_done_progress_options_row, lsp_base::specs::Registration::text_document_registration_options_row, lsp_base::specs::Registration::static_registration_options_row))]
impl Wire for DeclarationRegistrationOptions {
    ghost shape = { declaration_registration_options_row.shape };

    ghost shown = { declaration_registration_options_row.shown };

    fn from_value(alloc: Global, value: &Value) -> Result<DeclarationRegistrationOptions, Misfit> {
        Ok(DeclarationRegistrationOptions {
            declaration_options: flat(alloc, value)?,
            text_document_registration_options: flat(alloc, value)?,
            static_registration_options: flat(alloc, value)?,
        })
    }

    fn to_value(&self, alloc: Global) -> Result<Value, NoMemory> {
        let mut object = Writer::new(alloc);
        object.flat(&self.declaration_options);
        object.flat(&self.text_document_registration_options);
        object.flat(&self.static_registration_options);
        object.end()
    }
}

/// What a server offers for `textDocument/declaration`. Since 3.14 (LSP 3.17, "Goto Declaration
/// Request").
#[derive(Debug, PartialEq, Eq, Clone, Drop)]
pub struct DeclarationOptions {
    /// Whether the server reports work done progress for these requests where the client sends a
    /// token. Since 3.15.
    pub work_done_progress_options: WorkDoneProgressOptions,
}

#[tactic(auto, unfolding(crate::specs::Goto::declaration_options_row, lsp_names::specs::Progress::work_done_progress_options_row))]
impl Wire for DeclarationOptions {
    ghost shape = { declaration_options_row.shape };

    ghost shown = { declaration_options_row.shown };

    fn from_value(alloc: Global, value: &Value) -> Result<DeclarationOptions, Misfit> {
        Ok(DeclarationOptions {
            work_done_progress_options: flat(alloc, value)?,
        })
    }

    fn to_value(&self, alloc: Global) -> Result<Value, NoMemory> {
        let mut object = Writer::new(alloc);
        object.flat(&self.work_done_progress_options);
        object.end()
    }
}

/// What a server offers for `textDocument/definition`, as the capability `definitionProvider` (LSP
/// 3.17, "Goto Definition Request").
#[derive(Debug, PartialEq, Eq, Clone, Drop)]
pub struct DefinitionOptions {
    /// Whether the server reports work done progress for these requests where the client sends a
    /// token. Since 3.15.
    pub work_done_progress_options: WorkDoneProgressOptions,
}

#[tactic(auto, unfolding(crate::specs::Goto::definition_options_row, lsp_names::specs::Progress::work_done_progress_options_row))]
impl Wire for DefinitionOptions {
    ghost shape = { definition_options_row.shape };

    ghost shown = { definition_options_row.shown };

    fn from_value(alloc: Global, value: &Value) -> Result<DefinitionOptions, Misfit> {
        Ok(DefinitionOptions {
            work_done_progress_options: flat(alloc, value)?,
        })
    }

    fn to_value(&self, alloc: Global) -> Result<Value, NoMemory> {
        let mut object = Writer::new(alloc);
        object.flat(&self.work_done_progress_options);
        object.end()
    }
}

/// What a server offers for `textDocument/references`, as the capability `referencesProvider` (LSP
/// 3.17, "Find References Request").
#[derive(Debug, PartialEq, Eq, Clone, Drop)]
pub struct ReferencesOptions {
    /// Whether the server reports work done progress for these requests where the client sends a
    /// token. Since 3.15.
    pub work_done_progress_options: WorkDoneProgressOptions,
}

#[tactic(auto, unfolding(crate::specs::Goto::references_options_row, lsp_names::specs::Progress::work_done_progress_options_row))]
impl Wire for ReferencesOptions {
    ghost shape = { references_options_row.shape };

    ghost shown = { references_options_row.shown };

    fn from_value(alloc: Global, value: &Value) -> Result<ReferencesOptions, Misfit> {
        Ok(ReferencesOptions {
            work_done_progress_options: flat(alloc, value)?,
        })
    }

    fn to_value(&self, alloc: Global) -> Result<Value, NoMemory> {
        let mut object = Writer::new(alloc);
        object.flat(&self.work_done_progress_options);
        object.end()
    }
}

/// What a server offers for `textDocument/documentHighlight`, as the capability
/// `documentHighlightProvider` (LSP 3.17, "Document Highlights Request").
#[derive(Debug, PartialEq, Eq, Clone, Drop)]
pub struct DocumentHighlightOptions {
    /// Whether the server reports work done progress for these requests where the client sends a
    /// token. Since 3.15.
    pub work_done_progress_options: WorkDoneProgressOptions,
}

#[tactic(auto, unfolding(crate::specs::Goto::document_highlight_options_row, lsp_names::specs::Progress::work_done_progress_options_row))]
impl Wire for DocumentHighlightOptions {
    ghost shape = { document_highlight_options_row.shape };

    ghost shown = { document_highlight_options_row.shown };

    fn from_value(alloc: Global, value: &Value) -> Result<DocumentHighlightOptions, Misfit> {
        Ok(DocumentHighlightOptions {
            work_done_progress_options: flat(alloc, value)?,
        })
    }

    fn to_value(&self, alloc: Global) -> Result<Value, NoMemory> {
        let mut object = Writer::new(alloc);
        object.flat(&self.work_done_progress_options);
        object.end()
    }
}

/// The options with which a server registers a feature that has no options of its own. The standard
/// has no type of this name (LSP 3.17, "Register Capability").
#[derive(Debug, PartialEq, Eq, Clone, Drop)]
pub struct GenericRegistrationOptions {
    /// The documents that the registration applies to.
    pub text_document_registration_options: TextDocumentRegistrationOptions,
    /// What the server offers for the documents of the registration.
    pub options: GenericOptions,
    /// The id with which the server can unregister the feature later, using
    /// `client/unregisterCapability`.
    pub static_registration_options: StaticRegistrationOptions,
}

#[tactic(auto, unfolding(crate::specs::Goto::generic_registration_options_row, lsp_base::specs::Registration::text_document_registration_options_row, crate::specs::Goto::generic_options_row, lsp_names::specs::Progress::work_done_progress_options_row, lsp_base::specs::Registration::static_registration_options_row))]
impl Wire for GenericRegistrationOptions {
    ghost shape = { generic_registration_options_row.shape };

    ghost shown = { generic_registration_options_row.shown };

    fn from_value(alloc: Global, value: &Value) -> Result<GenericRegistrationOptions, Misfit> {
        Ok(GenericRegistrationOptions {
            text_document_registration_options: flat(alloc, value)?,
            options: flat(alloc, value)?,
            static_registration_options: flat(alloc, value)?,
        })
    }

    fn to_value(&self, alloc: Global) -> Result<Value, NoMemory> {
        let mut object = Writer::new(alloc);
        object.flat(&self.text_document_registration_options);
        object.flat(&self.options);
        object.flat(&self.static_registration_options);
        object.end()
    }
}

/// What a server offers for a feature that has no options of its own. The standard has no type of
/// this name (LSP 3.17, "Work Done Progress").
#[derive(Debug, PartialEq, Eq, Clone, Drop)]
pub struct GenericOptions {
    /// Whether the server reports work done progress for these requests where the client sends a
    /// token. Since 3.15.
    pub work_done_progress_options: WorkDoneProgressOptions,
}

#[tactic(auto, unfolding(crate::specs::Goto::generic_options_row, lsp_names::specs::Progress::work_done_progress_options_row))]
impl Wire for GenericOptions {
    ghost shape = { generic_options_row.shape };

    ghost shown = { generic_options_row.shown };

    fn from_value(alloc: Global, value: &Value) -> Result<GenericOptions, Misfit> {
        Ok(GenericOptions {
            work_done_progress_options: flat(alloc, value)?,
        })
    }

    fn to_value(&self, alloc: Global) -> Result<Value, NoMemory> {
        let mut object = Writer::new(alloc);
        object.flat(&self.work_done_progress_options);
        object.end()
    }
}
