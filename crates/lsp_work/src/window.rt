// Messages and documents that are shown, and traces.
ghost use Rattle.lsp_work.specs.Window.{show_message_params_row, show_message_request_params_row, message_action_item_row, message_action_item_property_row, log_message_params_row, show_document_params_row, show_document_result_row, set_trace_params_row, log_trace_params_row};

use lsp_base::Range;
use lsp_kinds::MessageType;
use lsp_names::TraceValue;
use lsp_shape::{
    Misfit, NoMemory, Optional, Reader, Required, Wire, Writer, attempt, form, read_object,
};
use lsp_uri::Uri;
use serde_json::Value;
use std::alloc::Global;
use std::collections::HashMap;

/// The parameters of `window/showMessage`, with which a server has a message shown to the user (LSP
/// 3.17, "ShowMessage Notification").
#[derive(Debug, PartialEq, Eq, Clone, Drop)]
pub struct ShowMessageParams {
    /// Whether the message is an error, a warning, information or a log entry. In JSON the name is
    /// `type`.
    pub typ: MessageType,
    /// The text to show.
    pub message: String,
}

#[tactic(auto, unfolding(crate::specs::Window::show_message_params_row))]
impl Wire for ShowMessageParams {
    ghost shape = { show_message_params_row.shape };

    ghost shown = { show_message_params_row.shown };

    fn from_value(alloc: Global, value: &Value) -> Result<ShowMessageParams, Misfit> {
        let (typ, message) = read_object(alloc, value, (Required("type"), Required("message")))?;
        Ok(ShowMessageParams { typ, message })
    }

    fn to_value(&self, alloc: Global) -> Result<Value, NoMemory> {
        let mut object = Writer::new(alloc);
        object.field("type", &self.typ);
        object.field("message", &self.message);
        object.end()
    }
}

/// The parameters of `window/showMessageRequest`, with which a server has a message shown and the
/// user choose an action (LSP 3.17, "ShowMessage Request").
#[derive(Debug, Clone, Drop)]
pub struct ShowMessageRequestParams {
    /// Whether the message is an error, a warning, information or a log entry. In JSON the name is
    /// `type`.
    pub typ: MessageType,
    /// The text to show.
    pub message: String,
    /// The actions to choose from. The result is the chosen one, or `null`. Absent: none.
    pub actions: Option<Vec<MessageActionItem>>,
}

#[tactic(auto, unfolding(crate::specs::Window::show_message_request_params_row))]
impl Wire for ShowMessageRequestParams {
    ghost shape = { show_message_request_params_row.shape };

    ghost shown = { show_message_request_params_row.shown };

    fn from_value(alloc: Global, value: &Value) -> Result<ShowMessageRequestParams, Misfit> {
        let (typ, message, actions) = read_object(
            alloc,
            value,
            (Required("type"), Required("message"), Optional("actions")),
        )?;
        Ok(ShowMessageRequestParams {
            typ,
            message,
            actions,
        })
    }

    fn to_value(&self, alloc: Global) -> Result<Value, NoMemory> {
        let mut object = Writer::new(alloc);
        object.field("type", &self.typ);
        object.field("message", &self.message);
        object.optional("actions", &self.actions);
        object.end()
    }
}

/// An action that the user can choose below a message, in the parameters and the result of
/// `window/showMessageRequest` (LSP 3.17, "ShowMessage Request").
#[derive(Debug, Clone, Drop)]
pub struct MessageActionItem {
    /// A short label, such as `Retry`.
    pub title: String,
    /// Further properties, by name, which the client returns with the chosen action. Only for
    /// clients with the capability `additionalPropertiesSupport`, since 3.16.
    pub properties: HashMap<String, MessageActionItemProperty>,
}

#[tactic(auto, unfolding(crate::specs::Window::message_action_item_row))]
impl Wire for MessageActionItem {
    ghost shape = { message_action_item_row.shape };

    ghost shown = { message_action_item_row.shown };

    fn from_value(alloc: Global, value: &Value) -> Result<MessageActionItem, Misfit> {
        let object = Reader::new(alloc, value)?;
        Ok(MessageActionItem {
            properties: object.rest(&["title"])?,
            title: object.field("title")?,
        })
    }

    fn to_value(&self, alloc: Global) -> Result<Value, NoMemory> {
        let mut object = Writer::with_rest(alloc, &self.properties);
        object.field("title", &self.title);
        object.end()
    }
}

/// The value of a further property of a `MessageActionItem`. The standard has no type of this name
/// (LSP 3.17, "ShowMessage Request").
#[derive(Debug, PartialEq, Clone, Drop)]
pub enum MessageActionItemProperty {
    /// A string.
    String(String),
    /// A boolean.
    Boolean(bool),
    /// An integer of 32 bits.
    Integer(i32),
    /// Any other JSON value, such as an object or a larger number.
    Object(Value),
}

#[tactic(auto, unfolding(crate::specs::Window::message_action_item_property_row))]
impl Wire for MessageActionItemProperty {
    ghost shape = { message_action_item_property_row.shape };

    ghost shown = { message_action_item_property_row.shown };

    fn from_value(alloc: Global, value: &Value) -> Result<MessageActionItemProperty, Misfit> {
        if let Some(string) = attempt(alloc, value)? {
            return Ok(MessageActionItemProperty::String(string));
        }
        if let Some(boolean) = attempt(alloc, value)? {
            return Ok(MessageActionItemProperty::Boolean(boolean));
        }
        if let Some(integer) = attempt(alloc, value)? {
            return Ok(MessageActionItemProperty::Integer(integer));
        }
        Ok(MessageActionItemProperty::Object(form(alloc, value)?))
    }

    fn to_value(&self, alloc: Global) -> Result<Value, NoMemory> {
        match self {
            MessageActionItemProperty::String(string) => string.to_value(alloc),
            MessageActionItemProperty::Boolean(boolean) => boolean.to_value(alloc),
            MessageActionItemProperty::Integer(integer) => integer.to_value(alloc),
            MessageActionItemProperty::Object(object) => object.to_value(alloc),
        }
    }
}

/// The parameters of `window/logMessage`, with which a server adds a message to the client's log
/// (LSP 3.17, "LogMessage Notification").
#[derive(Debug, PartialEq, Eq, Clone, Drop)]
pub struct LogMessageParams {
    /// Whether the message is an error, a warning, information or a log entry. In JSON the name is
    /// `type`.
    pub typ: MessageType,
    /// The text to log.
    pub message: String,
}

#[tactic(auto, unfolding(crate::specs::Window::log_message_params_row))]
impl Wire for LogMessageParams {
    ghost shape = { log_message_params_row.shape };

    ghost shown = { log_message_params_row.shown };

    fn from_value(alloc: Global, value: &Value) -> Result<LogMessageParams, Misfit> {
        let (typ, message) = read_object(alloc, value, (Required("type"), Required("message")))?;
        Ok(LogMessageParams { typ, message })
    }

    fn to_value(&self, alloc: Global) -> Result<Value, NoMemory> {
        let mut object = Writer::new(alloc);
        object.field("type", &self.typ);
        object.field("message", &self.message);
        object.end()
    }
}

/// The parameters of `window/showDocument`, with which a server asks the client to show a document
/// or another resource. Since 3.16 (LSP 3.17, "Show Document Request").
#[derive(Debug, PartialEq, Clone, Drop)]
pub struct ShowDocumentParams {
    /// The URI of the resource to show.
    pub uri: Uri,
    /// Whether to open the resource in another program, such as a web browser. Absent: the client
    /// shows it itself.
    pub external: Option<bool>,
    /// Whether the document should receive the input focus. A client may ignore this for other
    /// programs.
    pub take_focus: Option<bool>,
    /// The range to select, if the resource is a text document. A client may ignore this for other
    /// programs.
    pub selection: Option<Range>,
}

#[tactic(auto, unfolding(crate::specs::Window::show_document_params_row))]
impl Wire for ShowDocumentParams {
    ghost shape = { show_document_params_row.shape };

    ghost shown = { show_document_params_row.shown };

    fn from_value(alloc: Global, value: &Value) -> Result<ShowDocumentParams, Misfit> {
        let (uri, external, take_focus, selection) = read_object(
            alloc,
            value,
            (
                Required("uri"),
                Optional("external"),
                Optional("takeFocus"),
                Optional("selection"),
            ),
        )?;
        Ok(ShowDocumentParams {
            uri,
            external,
            take_focus,
            selection,
        })
    }

    fn to_value(&self, alloc: Global) -> Result<Value, NoMemory> {
        let mut object = Writer::new(alloc);
        object.field("uri", &self.uri);
        object.optional("external", &self.external);
        object.optional("takeFocus", &self.take_focus);
        object.optional("selection", &self.selection);
        object.end()
    }
}

/// The result of `window/showDocument`. Since 3.16 (LSP 3.17, "Show Document Request").
#[derive(Debug, PartialEq, Clone, Drop)]
pub struct ShowDocumentResult {
    /// Whether the client showed the resource.
    pub success: bool,
}

#[tactic(auto, unfolding(crate::specs::Window::show_document_result_row))]
impl Wire for ShowDocumentResult {
    ghost shape = { show_document_result_row.shape };

    ghost shown = { show_document_result_row.shown };

    fn from_value(alloc: Global, value: &Value) -> Result<ShowDocumentResult, Misfit> {
        let success = read_object(alloc, value, Required("success"))?;
        Ok(ShowDocumentResult { success })
    }

    fn to_value(&self, alloc: Global) -> Result<Value, NoMemory> {
        let mut object = Writer::new(alloc);
        object.field("success", &self.success);
        object.end()
    }
}

/// The parameters of `$/setTrace`, with which a client sets how much trace output the server sends
/// (LSP 3.17, "SetTrace Notification").
#[derive(Debug, PartialEq, Eq, Clone, Drop)]
pub struct SetTraceParams {
    /// The new trace level.
    pub value: TraceValue,
}

#[tactic(auto, unfolding(crate::specs::Window::set_trace_params_row))]
impl Wire for SetTraceParams {
    ghost shape = { set_trace_params_row.shape };

    ghost shown = { set_trace_params_row.shown };

    fn from_value(alloc: Global, value: &Value) -> Result<SetTraceParams, Misfit> {
        let value = read_object(alloc, value, Required("value"))?;
        Ok(SetTraceParams { value })
    }

    fn to_value(&self, alloc: Global) -> Result<Value, NoMemory> {
        let mut object = Writer::new(alloc);
        object.field("value", &self.value);
        object.end()
    }
}

/// The parameters of `$/logTrace`, with which a server sends trace output about its work. It sends
/// none while the trace level is `off` (LSP 3.17, "LogTrace Notification").
#[derive(Debug, PartialEq, Eq, Clone, Drop)]
pub struct LogTraceParams {
    /// The trace output.
    pub message: String,
    /// Further details. Only while the trace level is `verbose`.
    pub verbose: Option<String>,
}

#[tactic(auto, unfolding(crate::specs::Window::log_trace_params_row))]
impl Wire for LogTraceParams {
    ghost shape = { log_trace_params_row.shape };

    ghost shown = { log_trace_params_row.shown };

    fn from_value(alloc: Global, value: &Value) -> Result<LogTraceParams, Misfit> {
        let (message, verbose) = read_object(
            alloc,
            value,
            (Required("message"), Optional("verbose")),
        )?;
        Ok(LogTraceParams { message, verbose })
    }

    fn to_value(&self, alloc: Global) -> Result<Value, NoMemory> {
        let mut object = Writer::new(alloc);
        object.field("message", &self.message);
        object.optional("verbose", &self.verbose);
        object.end()
    }
}
