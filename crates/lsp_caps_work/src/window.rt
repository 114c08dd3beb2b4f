// Windows.
ghost use Rattle.lsp_caps_work.specs.Window.{window_client_capabilities_row, show_message_request_client_capabilities_row, message_action_item_capabilities_row, show_document_client_capabilities_row};

use lsp_shape::{Misfit, NoMemory, Optional, Required, Wire, Writer, read_object};
use serde_json::Value;
use std::alloc::Global;

/// What a client supports for messages, documents and progress in its window, as `window` in its
/// capabilities in `initialize` (LSP 3.17, "Initialize Request").
#[derive(Debug, PartialEq, Default, Clone, Drop)]
pub struct WindowClientCapabilities {
    /// Whether the client handles work done progress. If so, the server may send
    /// `window/workDoneProgress/create`, and may offer work done progress in its capabilities.
    /// Since 3.15.
    pub work_done_progress: Option<bool>,
    /// `window/showMessageRequest`. Since 3.16.
    pub show_message: Option<ShowMessageRequestClientCapabilities>,
    /// `window/showDocument`. Absent: not supported. Since 3.16.
    pub show_document: Option<ShowDocumentClientCapabilities>,
}

#[tactic(auto, unfolding(crate::specs::Window::window_client_capabilities_row))]
impl Wire for WindowClientCapabilities {
    ghost shape = { window_client_capabilities_row.shape };

    ghost shown = { window_client_capabilities_row.shown };

    fn from_value(alloc: Global, value: &Value) -> Result<WindowClientCapabilities, Misfit> {
        let (work_done_progress, show_message, show_document) = read_object(
            alloc,
            value,
            (
                Optional("workDoneProgress"),
                Optional("showMessage"),
                Optional("showDocument"),
            ),
        )?;
        Ok(WindowClientCapabilities {
            work_done_progress,
            show_message,
            show_document,
        })
    }

    fn to_value(&self, alloc: Global) -> Result<Value, NoMemory> {
        let mut object = Writer::new(alloc);
        object.optional("workDoneProgress", &self.work_done_progress);
        object.optional("showMessage", &self.show_message);
        object.optional("showDocument", &self.show_document);
        object.end()
    }
}

/// What a client supports for `window/showMessageRequest`, as the capability `window.showMessage`.
/// Since 3.16 (LSP 3.17, "ShowMessage Request").
#[derive(Debug, PartialEq, Default, Clone, Drop)]
pub struct ShowMessageRequestClientCapabilities {
    /// What the client supports in the actions that it offers to the user.
    pub message_action_item: Option<MessageActionItemCapabilities>,
}

#[tactic(auto, unfolding(crate::specs::Window::show_message_request_client_capabilities_row))]
impl Wire for ShowMessageRequestClientCapabilities {
    ghost shape = { show_message_request_client_capabilities_row.shape };

    ghost shown = { show_message_request_client_capabilities_row.shown };

    fn from_value(
        alloc: Global,
        value: &Value,
    ) -> Result<ShowMessageRequestClientCapabilities, Misfit> {
        let message_action_item = read_object(alloc, value, Optional("messageActionItem"))?;
        Ok(ShowMessageRequestClientCapabilities {
            message_action_item,
        })
    }

    fn to_value(&self, alloc: Global) -> Result<Value, NoMemory> {
        let mut object = Writer::new(alloc);
        object.optional("messageActionItem", &self.message_action_item);
        object.end()
    }
}

/// What a client supports in a `MessageActionItem`, as the capability
/// `window.showMessage.messageActionItem`. Since 3.16 (LSP 3.17, "ShowMessage Request").
#[derive(Debug, PartialEq, Default, Clone, Drop)]
pub struct MessageActionItemCapabilities {
    /// Whether the client keeps the further properties of an action and returns them in the
    /// response.
    pub additional_properties_support: Option<bool>,
}

#[tactic(auto, unfolding(crate::specs::Window::message_action_item_capabilities_row))]
impl Wire for MessageActionItemCapabilities {
    ghost shape = { message_action_item_capabilities_row.shape };

    ghost shown = { message_action_item_capabilities_row.shown };

    fn from_value(alloc: Global, value: &Value) -> Result<MessageActionItemCapabilities, Misfit> {
        let additional_properties_support = read_object(
            alloc,
            value,
            Optional("additionalPropertiesSupport"),
        )?;
        Ok(MessageActionItemCapabilities {
            additional_properties_support,
        })
    }

    fn to_value(&self, alloc: Global) -> Result<Value, NoMemory> {
        let mut object = Writer::new(alloc);
        object.optional(
            "additionalPropertiesSupport",
            &self.additional_properties_support,
        );
        object.end()
    }
}

/// Whether a client supports `window/showDocument`, as the capability `window.showDocument`. Since
/// 3.16 (LSP 3.17, "Show Document Request").
#[derive(Debug, PartialEq, Default, Clone, Drop)]
pub struct ShowDocumentClientCapabilities {
    /// Whether the server may send the request.
    pub support: bool,
}

#[tactic(auto, unfolding(crate::specs::Window::show_document_client_capabilities_row))]
impl Wire for ShowDocumentClientCapabilities {
    ghost shape = { show_document_client_capabilities_row.shape };

    ghost shown = { show_document_client_capabilities_row.shown };

    fn from_value(alloc: Global, value: &Value) -> Result<ShowDocumentClientCapabilities, Misfit> {
        let support = read_object(alloc, value, Required("support"))?;
        Ok(ShowDocumentClientCapabilities { support })
    }

    fn to_value(&self, alloc: Global) -> Result<Value, NoMemory> {
        let mut object = Writer::new(alloc);
        object.field("support", &self.support);
        object.end()
    }
}
