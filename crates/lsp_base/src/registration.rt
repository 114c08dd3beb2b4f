// What an editor supports, and what a server registers for.
ghost use Rattle.std.specs.Prelude.{◌≡◌, []};
ghost use Rattle.lsp_shape.specs.Row.{row_of};
ghost use Rattle.lsp_base.specs.Registration.{tag_support_row, dynamic_registration_client_capabilities_row, goto_capability_row, text_document_registration_options_row, static_registration_options_row};

use crate::document::DocumentSelector;
use lsp_shape::{Misfit, NoMemory, Optional, Required, Wire, Writer, read_object};
use serde_json::Value;
use std::alloc::Global;

/// The tags that a client supports. `true` is read as no tags and `false` as no support, as old
/// clients send them (LSP 3.17, "Completion Request").
#[derive(Debug, PartialEq, Eq, Clone, Drop)]
pub struct TagSupport<T> {
    /// The tags.
    pub value_set: Vec<T>,
}

impl<T> TagSupport<T> {
    /// No tags.
    pub fn default(alloc: Global) -> TagSupport<T>
        ensures { result.value_set.items ≡ [] }
    {
        TagSupport {
            value_set: Vec::new(alloc),
        }
    }
}

impl<T: Wire> Wire for TagSupport<T> {
    ghost shape = { (tag_support_row (row_of T.shape T.shown)).shape };

    ghost shown = { (tag_support_row (row_of T.shape T.shown)).shown };

    fn from_value(alloc: Global, value: &Value) -> Result<TagSupport<T>, Misfit> {
        let value_set = read_object(alloc, value, Required("valueSet"))?;
        Ok(TagSupport { value_set })
    }

    fn to_value(&self, alloc: Global) -> Result<Value, NoMemory> {
        let mut object = Writer::new(alloc);
        object.field("valueSet", &self.value_set);
        object.end()
    }
}

/// Whether a server may register a feature after initialization (LSP 3.17, "Register Capability").
#[derive(Debug, PartialEq, Eq, Clone, Copy, Default)]
pub struct DynamicRegistrationClientCapabilities {
    /// Whether it may.
    pub dynamic_registration: Option<bool>,
}

#[tactic(auto, unfolding(crate::specs::Registration::dynamic_registration_client_capabilities_row))]
impl Wire for DynamicRegistrationClientCapabilities {
    ghost shape = { dynamic_registration_client_capabilities_row.shape };

    ghost shown = { dynamic_registration_client_capabilities_row.shown };

    fn from_value(
        alloc: Global,
        value: &Value,
    ) -> Result<DynamicRegistrationClientCapabilities, Misfit> {
        let dynamic_registration = read_object(alloc, value, Optional("dynamicRegistration"))?;
        Ok(DynamicRegistrationClientCapabilities {
            dynamic_registration,
        })
    }

    fn to_value(&self, alloc: Global) -> Result<Value, NoMemory> {
        let mut object = Writer::new(alloc);
        object.optional("dynamicRegistration", &self.dynamic_registration);
        object.end()
    }
}

/// What a client supports of a request such as `textDocument/definition` (LSP 3.17, "Goto
/// Definition Request").
#[derive(Debug, PartialEq, Eq, Clone, Copy, Default)]
pub struct GotoCapability {
    /// Whether a server may register the request after initialization.
    pub dynamic_registration: Option<bool>,
    /// Whether the result may hold links, of type `LocationLink`. Since 3.14.
    pub link_support: Option<bool>,
}

#[tactic(auto, unfolding(crate::specs::Registration::goto_capability_row))]
impl Wire for GotoCapability {
    ghost shape = { goto_capability_row.shape };

    ghost shown = { goto_capability_row.shown };

    fn from_value(alloc: Global, value: &Value) -> Result<GotoCapability, Misfit> {
        let (dynamic_registration, link_support) = read_object(
            alloc,
            value,
            (Optional("dynamicRegistration"), Optional("linkSupport")),
        )?;
        Ok(GotoCapability {
            dynamic_registration,
            link_support,
        })
    }

    fn to_value(&self, alloc: Global) -> Result<Value, NoMemory> {
        let mut object = Writer::new(alloc);
        object.optional("dynamicRegistration", &self.dynamic_registration);
        object.optional("linkSupport", &self.link_support);
        object.end()
    }
}

/// The documents that a registration applies to (LSP 3.17, "Register Capability").
#[derive(Debug, PartialEq, Eq, Default, Clone, Drop)]
pub struct TextDocumentRegistrationOptions {
    /// The documents. `None`, sent as `null`: those that the client selects itself.
    pub document_selector: Option<DocumentSelector>,
}

#[tactic(auto, unfolding(crate::specs::Registration::text_document_registration_options_row))]
impl Wire for TextDocumentRegistrationOptions {
    ghost shape = { text_document_registration_options_row.shape };

    ghost shown = { text_document_registration_options_row.shown };

    fn from_value(alloc: Global, value: &Value) -> Result<TextDocumentRegistrationOptions, Misfit> {
        let document_selector = read_object(alloc, value, Optional("documentSelector"))?;
        Ok(TextDocumentRegistrationOptions { document_selector })
    }

    fn to_value(&self, alloc: Global) -> Result<Value, NoMemory> {
        let mut object = Writer::new(alloc);
        object.nullable("documentSelector", &self.document_selector);
        object.end()
    }
}

/// The id of a registration that a server makes in its capabilities (LSP 3.17, "Register
/// Capability").
#[derive(Debug, PartialEq, Eq, Default, Clone, Drop)]
pub struct StaticRegistrationOptions {
    /// The id with which the server can unregister the feature later, using
    /// `client/unregisterCapability`. Absent: it can't.
    pub id: Option<String>,
}

#[tactic(auto, unfolding(crate::specs::Registration::static_registration_options_row))]
impl Wire for StaticRegistrationOptions {
    ghost shape = { static_registration_options_row.shape };

    ghost shown = { static_registration_options_row.shown };

    fn from_value(alloc: Global, value: &Value) -> Result<StaticRegistrationOptions, Misfit> {
        let id = read_object(alloc, value, Optional("id"))?;
        Ok(StaticRegistrationOptions { id })
    }

    fn to_value(&self, alloc: Global) -> Result<Value, NoMemory> {
        let mut object = Writer::new(alloc);
        object.optional("id", &self.id);
        object.end()
    }
}
