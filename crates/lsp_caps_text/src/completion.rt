// Completion.
ghost use Rattle.std.specs.Prelude.{◌≡◌, []};
ghost use Rattle.lsp_caps_text.specs.Completion.{completion_client_capabilities_row, completion_item_capability_row, completion_item_capability_resolve_support_row, insert_text_mode_support_row, completion_item_kind_capability_row, completion_list_capability_row};

use lsp_base::TagSupport;
use lsp_kinds::{CompletionItemKind, CompletionItemTag, InsertTextMode};
use lsp_names::MarkupKind;
use lsp_shape::{
    Copies, Misfit, NoMemory, Optional, Required, WideReader, Wire, Writer, read_object,
};
use serde_json::Value;
use std::alloc::{AllocError, Global};

/// What a client supports for `textDocument/completion`, as the capability
/// `textDocument.completion` (LSP 3.17, "Completion Request").
#[derive(Debug, PartialEq, Eq, Default, Clone, Drop)]
pub struct CompletionClientCapabilities {
    /// Whether the server may register the feature after initialization, with
    /// `client/registerCapability`.
    pub dynamic_registration: Option<bool>,
    /// What the client supports in a single completion item.
    pub completion_item: Option<CompletionItemCapability>,
    /// The kinds of completion items that the client supports.
    pub completion_item_kind: Option<CompletionItemKindCapability>,
    /// Whether the client says in the request how completion was triggered. Since 3.3.
    pub context_support: Option<bool>,
    /// How the client treats whitespace in an item that has no `insertTextMode` of its own. Since
    /// 3.17.
    pub insert_text_mode: Option<InsertTextMode>,
    /// What the client supports in a `CompletionList`. Since 3.17.
    pub completion_list: Option<CompletionListCapability>,
}

#[tactic(auto, unfolding(crate::specs::Completion::completion_client_capabilities_row))]
impl Wire for CompletionClientCapabilities {
    ghost shape = { completion_client_capabilities_row.shape };

    ghost shown = { completion_client_capabilities_row.shown };

    fn from_value(alloc: Global, value: &Value) -> Result<CompletionClientCapabilities, Misfit> {
        let (
            dynamic_registration,
            completion_item,
            completion_item_kind,
            context_support,
            insert_text_mode,
            completion_list,
        ) = read_object(
            alloc,
            value,
            (
                Optional("dynamicRegistration"),
                Optional("completionItem"),
                Optional("completionItemKind"),
                Optional("contextSupport"),
                Optional("insertTextMode"),
                Optional("completionList"),
            ),
        )?;
        Ok(CompletionClientCapabilities {
            dynamic_registration,
            completion_item,
            completion_item_kind,
            context_support,
            insert_text_mode,
            completion_list,
        })
    }

    fn to_value(&self, alloc: Global) -> Result<Value, NoMemory> {
        let mut object = Writer::new(alloc);
        object.optional("dynamicRegistration", &self.dynamic_registration);
        object.optional("completionItem", &self.completion_item);
        object.optional("completionItemKind", &self.completion_item_kind);
        object.optional("contextSupport", &self.context_support);
        object.optional("insertTextMode", &self.insert_text_mode);
        object.optional("completionList", &self.completion_list);
        object.end()
    }
}

/// What a client supports in a completion item, as the capability
/// `textDocument.completion.completionItem` (LSP 3.17, "Completion Request").
#[derive(Debug, PartialEq, Eq, Default, Drop)]
pub struct CompletionItemCapability {
    /// Whether the inserted text may be a snippet with tab stops and placeholders, such as
    /// `${1:name}`. Absent: it must be plain text.
    pub snippet_support: Option<bool>,
    /// Whether an item may list its own commit characters, which accept the item when typed. Since
    /// 3.2.
    pub commit_characters_support: Option<bool>,
    /// The markup kinds accepted in an item's documentation, the preferred one first. Since 3.3.
    pub documentation_format: Option<Vec<MarkupKind>>,
    /// Whether the client evaluates an item's `deprecated` field, which `tags` replaces.
    pub deprecated_support: Option<bool>,
    /// Whether the server may mark an item to be selected when the list is first shown. Since 3.9.
    pub preselect_support: Option<bool>,
    /// The item tags that the client supports. It also copes with other tags, and returns them
    /// unchanged in `completionItem/resolve`. Since 3.15.
    pub tag_support: Option<TagSupport<CompletionItemTag>>,
    /// Whether an item may carry an `InsertReplaceEdit`, with one range for inserting and one for
    /// replacing. Since 3.16.
    pub insert_replace_support: Option<bool>,
    /// The fields that the client can fetch later with `completionItem/resolve`. Absent: only
    /// `documentation` and `detail`. Since 3.16.
    pub resolve_support: Option<CompletionItemCapabilityResolveSupport>,
    /// The whitespace modes that an item may choose with `insertTextMode`. Absent: an item can't
    /// choose one. Since 3.16.
    pub insert_text_mode_support: Option<InsertTextModeSupport>,
    /// Whether an item may carry `labelDetails`. Since 3.17.
    pub label_details_support: Option<bool>,
}

impl Clone for CompletionItemCapability {
    ghost is_clone = { λ x y. ⟦<Option<bool> as Clone>⟧.is_clone x.snippet_support y.snippet_support
        × ⟦<Option<bool> as Clone>⟧.is_clone x.commit_characters_support y.commit_characters_support
        × ⟦<Option<Vec<MarkupKind>> as Clone>⟧.is_clone
        x.documentation_format y.documentation_format
        × ⟦<Option<bool> as Clone>⟧.is_clone x.deprecated_support y.deprecated_support
        × ⟦<Option<bool> as Clone>⟧.is_clone x.preselect_support y.preselect_support
        × ⟦<Option<TagSupport<CompletionItemTag>> as Clone>⟧.is_clone x.tag_support y.tag_support
        × ⟦<Option<bool> as Clone>⟧.is_clone x.insert_replace_support y.insert_replace_support
        × ⟦<Option<CompletionItemCapabilityResolveSupport> as Clone>⟧.is_clone
        x.resolve_support y.resolve_support
        × ⟦<Option<InsertTextModeSupport> as Clone>⟧.is_clone
        x.insert_text_mode_support y.insert_text_mode_support
        × ⟦<Option<bool> as Clone>⟧.is_clone x.label_details_support y.label_details_support };

    fn clone(&self) -> Result<CompletionItemCapability, AllocError> {
        let mut copies = Copies::new();
        let copy = CompletionItemCapability {
            snippet_support: copies.optional(&self.snippet_support),
            commit_characters_support: copies.optional(&self.commit_characters_support),
            documentation_format: copies.optional(&self.documentation_format),
            deprecated_support: copies.optional(&self.deprecated_support),
            preselect_support: copies.optional(&self.preselect_support),
            tag_support: copies.optional(&self.tag_support),
            insert_replace_support: copies.optional(&self.insert_replace_support),
            resolve_support: copies.optional(&self.resolve_support),
            insert_text_mode_support: copies.optional(&self.insert_text_mode_support),
            label_details_support: copies.optional(&self.label_details_support),
        };
        copies.end(copy)
    }
}

#[tactic(auto, unfolding(crate::specs::Completion::completion_item_capability_row, crate::specs::Completion::completion_item_capability_fields))]
impl Wire for CompletionItemCapability {
    ghost shape = { completion_item_capability_row.shape };

    ghost shown = { completion_item_capability_row.shown };

    fn from_value(alloc: Global, value: &Value) -> Result<CompletionItemCapability, Misfit> {
        let mut object = WideReader::new(alloc, value)?;
        let read = CompletionItemCapability {
            snippet_support: object.optional("snippetSupport"),
            commit_characters_support: object.optional("commitCharactersSupport"),
            documentation_format: object.optional("documentationFormat"),
            deprecated_support: object.optional("deprecatedSupport"),
            preselect_support: object.optional("preselectSupport"),
            tag_support: object.supported("tagSupport"),
            insert_replace_support: object.optional("insertReplaceSupport"),
            resolve_support: object.optional("resolveSupport"),
            insert_text_mode_support: object.optional("insertTextModeSupport"),
            label_details_support: object.optional("labelDetailsSupport"),
        };
        object.end(read)
    }

    fn to_value(&self, alloc: Global) -> Result<Value, NoMemory> {
        let mut object = Writer::new(alloc);
        object.optional("snippetSupport", &self.snippet_support);
        object.optional("commitCharactersSupport", &self.commit_characters_support);
        object.optional("documentationFormat", &self.documentation_format);
        object.optional("deprecatedSupport", &self.deprecated_support);
        object.optional("preselectSupport", &self.preselect_support);
        object.optional("tagSupport", &self.tag_support);
        object.optional("insertReplaceSupport", &self.insert_replace_support);
        object.optional("resolveSupport", &self.resolve_support);
        object.optional("insertTextModeSupport", &self.insert_text_mode_support);
        object.optional("labelDetailsSupport", &self.label_details_support);
        object.end()
    }
}

/// The fields of a completion item that a client can fetch later, with `completionItem/resolve`.
/// Since 3.16 (LSP 3.17, "Completion Request").
#[derive(Debug, PartialEq, Eq, Clone, Drop)]
pub struct CompletionItemCapabilityResolveSupport {
    /// The names of the fields, such as `documentation` or `additionalTextEdits`.
    pub properties: Vec<String>,
}

impl CompletionItemCapabilityResolveSupport {
    /// No fields.
    pub fn default(alloc: Global) -> CompletionItemCapabilityResolveSupport
        ensures properties { result.properties.items ≡ [] }
    {
        CompletionItemCapabilityResolveSupport {
            properties: Vec::new(alloc),
        }
    }
}

#[tactic(auto, unfolding(crate::specs::Completion::completion_item_capability_resolve_support_row))]
impl Wire for CompletionItemCapabilityResolveSupport {
    ghost shape = { completion_item_capability_resolve_support_row.shape };

    ghost shown = { completion_item_capability_resolve_support_row.shown };

    fn from_value(
        alloc: Global,
        value: &Value,
    ) -> Result<CompletionItemCapabilityResolveSupport, Misfit> {
        let properties = read_object(alloc, value, Required("properties"))?;
        Ok(CompletionItemCapabilityResolveSupport { properties })
    }

    fn to_value(&self, alloc: Global) -> Result<Value, NoMemory> {
        let mut object = Writer::new(alloc);
        object.field("properties", &self.properties);
        object.end()
    }
}

/// The whitespace modes that a client supports when it inserts a completion item. Since 3.16 (LSP
/// 3.17, "Completion Request").
#[derive(Debug, PartialEq, Eq, Clone, Drop)]
pub struct InsertTextModeSupport {
    /// The supported modes.
    pub value_set: Vec<InsertTextMode>,
}

impl InsertTextModeSupport {
    /// No modes.
    pub fn default(alloc: Global) -> InsertTextModeSupport
        ensures value_set { result.value_set.items ≡ [] }
    {
        InsertTextModeSupport {
            value_set: Vec::new(alloc),
        }
    }
}

#[tactic(auto, unfolding(crate::specs::Completion::insert_text_mode_support_row))]
impl Wire for InsertTextModeSupport {
    ghost shape = { insert_text_mode_support_row.shape };

    ghost shown = { insert_text_mode_support_row.shown };

    fn from_value(alloc: Global, value: &Value) -> Result<InsertTextModeSupport, Misfit> {
        let value_set = read_object(alloc, value, Required("valueSet"))?;
        Ok(InsertTextModeSupport { value_set })
    }

    fn to_value(&self, alloc: Global) -> Result<Value, NoMemory> {
        let mut object = Writer::new(alloc);
        object.field("valueSet", &self.value_set);
        object.end()
    }
}

/// The kinds of completion items that a client supports, as the capability
/// `textDocument.completion.completionItemKind`. Since 3.4 (LSP 3.17, "Completion Request").
#[derive(Debug, PartialEq, Eq, Default, Clone, Drop)]
pub struct CompletionItemKindCapability {
    /// The supported kinds. A client that sends them also copes with other kinds. Absent: only the
    /// kinds from `TEXT` to `REFERENCE`.
    pub value_set: Option<Vec<CompletionItemKind>>,
}

#[tactic(auto, unfolding(crate::specs::Completion::completion_item_kind_capability_row))]
impl Wire for CompletionItemKindCapability {
    ghost shape = { completion_item_kind_capability_row.shape };

    ghost shown = { completion_item_kind_capability_row.shown };

    fn from_value(alloc: Global, value: &Value) -> Result<CompletionItemKindCapability, Misfit> {
        let value_set = read_object(alloc, value, Optional("valueSet"))?;
        Ok(CompletionItemKindCapability { value_set })
    }

    fn to_value(&self, alloc: Global) -> Result<Value, NoMemory> {
        let mut object = Writer::new(alloc);
        object.optional("valueSet", &self.value_set);
        object.end()
    }
}

/// What a client supports in a `CompletionList`, as the capability
/// `textDocument.completion.completionList`. Since 3.17 (LSP 3.17, "Completion Request").
#[derive(Debug, PartialEq, Eq, Default, Clone, Drop)]
pub struct CompletionListCapability {
    /// The fields of `CompletionList.itemDefaults` that the client applies to items, by name.
    /// Absent: none.
    pub item_defaults: Option<Vec<String>>,
}

#[tactic(auto, unfolding(crate::specs::Completion::completion_list_capability_row))]
impl Wire for CompletionListCapability {
    ghost shape = { completion_list_capability_row.shape };

    ghost shown = { completion_list_capability_row.shown };

    fn from_value(alloc: Global, value: &Value) -> Result<CompletionListCapability, Misfit> {
        let item_defaults = read_object(alloc, value, Optional("itemDefaults"))?;
        Ok(CompletionListCapability { item_defaults })
    }

    fn to_value(&self, alloc: Global) -> Result<Value, NoMemory> {
        let mut object = Writer::new(alloc);
        object.optional("itemDefaults", &self.item_defaults);
        object.end()
    }
}
