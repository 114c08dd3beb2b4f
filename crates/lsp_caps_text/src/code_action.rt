// Code actions.
ghost use Rattle.std.specs.Prelude.{◌≡◌, []};
ghost use Rattle.lsp_caps_text.specs.CodeAction.{code_action_client_capabilities_row, code_action_capability_resolve_support_row, code_action_literal_support_row, code_action_kind_literal_support_row};

use lsp_shape::{Misfit, NoMemory, Optional, Required, Wire, Writer, read_object};
use serde_json::Value;
use std::alloc::Global;

/// What a client supports for `textDocument/codeAction`, as the capability
/// `textDocument.codeAction` (LSP 3.17, "Code Action Request").
#[derive(Debug, PartialEq, Eq, Default, Clone, Drop)]
pub struct CodeActionClientCapabilities {
    /// Whether the server may register the feature after initialization, with
    /// `client/registerCapability`.
    pub dynamic_registration: Option<bool>,
    /// How the client supports `CodeAction` values in the response. Absent: the response may only
    /// hold `Command` values. Since 3.8.
    pub code_action_literal_support: Option<CodeActionLiteralSupport>,
    /// Whether the client evaluates `isPreferred`, which marks the action to choose first. Since
    /// 3.15.
    pub is_preferred_support: Option<bool>,
    /// Whether the client evaluates `disabled`, which marks an action that can't be applied now and
    /// says why. Since 3.16.
    pub disabled_support: Option<bool>,
    /// Whether the client keeps the `data` of an action and returns it in `codeAction/resolve`.
    /// Since 3.16.
    pub data_support: Option<bool>,
    /// The fields that the client can fetch later with `codeAction/resolve`. Absent: none. Since
    /// 3.16.
    pub resolve_support: Option<CodeActionCapabilityResolveSupport>,
    /// Whether the client takes account of change annotations in the edit of an action, for example
    /// by asking the user to confirm. Since 3.16.
    pub honors_change_annotations: Option<bool>,
}

#[tactic(auto, unfolding(crate::specs::CodeAction::code_action_client_capabilities_row))]
impl Wire for CodeActionClientCapabilities {
    ghost shape = { code_action_client_capabilities_row.shape };

    ghost shown = { code_action_client_capabilities_row.shown };

    fn from_value(alloc: Global, value: &Value) -> Result<CodeActionClientCapabilities, Misfit> {
        let (
            (
                dynamic_registration,
                code_action_literal_support,
                is_preferred_support,
                disabled_support,
            ),
            (data_support, resolve_support, honors_change_annotations),
        ) = read_object(
            alloc,
            value,
            (
                (
                    Optional("dynamicRegistration"),
                    Optional("codeActionLiteralSupport"),
                    Optional("isPreferredSupport"),
                    Optional("disabledSupport"),
                ),
                (
                    Optional("dataSupport"),
                    Optional("resolveSupport"),
                    Optional("honorsChangeAnnotations"),
                ),
            ),
        )?;
        Ok(CodeActionClientCapabilities {
            dynamic_registration,
            code_action_literal_support,
            is_preferred_support,
            disabled_support,
            data_support,
            resolve_support,
            honors_change_annotations,
        })
    }

    fn to_value(&self, alloc: Global) -> Result<Value, NoMemory> {
        let mut object = Writer::new(alloc);
        object.optional("dynamicRegistration", &self.dynamic_registration);
        object.optional(
            "codeActionLiteralSupport",
            &self.code_action_literal_support,
        );
        object.optional("isPreferredSupport", &self.is_preferred_support);
        object.optional("disabledSupport", &self.disabled_support);
        object.optional("dataSupport", &self.data_support);
        object.optional("resolveSupport", &self.resolve_support);
        object.optional("honorsChangeAnnotations", &self.honors_change_annotations);
        object.end()
    }
}

/// The fields of a code action that a client can fetch later, with `codeAction/resolve`. Since 3.16
/// (LSP 3.17, "Code Action Request").
#[derive(Debug, PartialEq, Eq, Clone, Drop)]
pub struct CodeActionCapabilityResolveSupport {
    /// The names of the fields, such as `edit`.
    pub properties: Vec<String>,
}

impl CodeActionCapabilityResolveSupport {
    /// No fields.
    pub fn default(alloc: Global) -> CodeActionCapabilityResolveSupport
        ensures properties { result.properties.items ≡ [] }
    {
        CodeActionCapabilityResolveSupport {
            properties: Vec::new(alloc),
        }
    }
}

#[tactic(auto, unfolding(crate::specs::CodeAction::code_action_capability_resolve_support_row))]
impl Wire for CodeActionCapabilityResolveSupport {
    ghost shape = { code_action_capability_resolve_support_row.shape };

    ghost shown = { code_action_capability_resolve_support_row.shown };

    fn from_value(
        alloc: Global,
        value: &Value,
    ) -> Result<CodeActionCapabilityResolveSupport, Misfit> {
        let properties = read_object(alloc, value, Required("properties"))?;
        Ok(CodeActionCapabilityResolveSupport { properties })
    }

    fn to_value(&self, alloc: Global) -> Result<Value, NoMemory> {
        let mut object = Writer::new(alloc);
        object.field("properties", &self.properties);
        object.end()
    }
}

/// How a client supports `CodeAction` values, and not only commands, in the response to
/// `textDocument/codeAction`. Since 3.8 (LSP 3.17, "Code Action Request").
#[derive(Debug, PartialEq, Eq, Clone, Drop)]
pub struct CodeActionLiteralSupport {
    /// The kinds of code actions that the client supports.
    pub code_action_kind: CodeActionKindLiteralSupport,
}

impl CodeActionLiteralSupport {
    /// No kinds.
    pub fn default(alloc: Global) -> CodeActionLiteralSupport
        ensures value_set { result.code_action_kind.value_set.items ≡ [] }
    {
        CodeActionLiteralSupport {
            code_action_kind: CodeActionKindLiteralSupport::default(alloc),
        }
    }
}

#[tactic(auto, unfolding(crate::specs::CodeAction::code_action_literal_support_row))]
impl Wire for CodeActionLiteralSupport {
    ghost shape = { code_action_literal_support_row.shape };

    ghost shown = { code_action_literal_support_row.shown };

    fn from_value(alloc: Global, value: &Value) -> Result<CodeActionLiteralSupport, Misfit> {
        let code_action_kind = read_object(alloc, value, Required("codeActionKind"))?;
        Ok(CodeActionLiteralSupport { code_action_kind })
    }

    fn to_value(&self, alloc: Global) -> Result<Value, NoMemory> {
        let mut object = Writer::new(alloc);
        object.field("codeActionKind", &self.code_action_kind);
        object.end()
    }
}

/// The kinds of code actions that a client supports. Since 3.8 (LSP 3.17, "Code Action Request").
#[derive(Debug, PartialEq, Eq, Clone, Drop)]
pub struct CodeActionKindLiteralSupport {
    /// The supported kinds as strings, such as `quickfix`. The client also copes with other kinds.
    pub value_set: Vec<String>,
}

impl CodeActionKindLiteralSupport {
    /// No kinds.
    pub fn default(alloc: Global) -> CodeActionKindLiteralSupport
        ensures value_set { result.value_set.items ≡ [] }
    {
        CodeActionKindLiteralSupport {
            value_set: Vec::new(alloc),
        }
    }
}

#[tactic(auto, unfolding(crate::specs::CodeAction::code_action_kind_literal_support_row))]
impl Wire for CodeActionKindLiteralSupport {
    ghost shape = { code_action_kind_literal_support_row.shape };

    ghost shown = { code_action_kind_literal_support_row.shown };

    fn from_value(alloc: Global, value: &Value) -> Result<CodeActionKindLiteralSupport, Misfit> {
        let value_set = read_object(alloc, value, Required("valueSet"))?;
        Ok(CodeActionKindLiteralSupport { value_set })
    }

    fn to_value(&self, alloc: Global) -> Result<Value, NoMemory> {
        let mut object = Writer::new(alloc);
        object.field("valueSet", &self.value_set);
        object.end()
    }
}
