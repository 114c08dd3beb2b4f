// Completion.
ghost use Rattle.std.specs.Prelude.{◌≡◌, None, Some, [], false, string_bytes};
ghost use Rattle.lsp_lang_item.specs.Completion.{completion_params_row, completion_context_row, completion_response_row, completion_list_row, completion_item_row, completion_item_label_details_row, completion_text_edit_row, insert_replace_edit_row};
ghost use Rattle.lsp_lang_item.specs.declared.completion.CompletionResponse.TheVariants as completion_response;
ghost use Rattle.lsp_lang_item.specs.declared.completion.CompletionTextEdit.TheVariants as completion_text_edit;

use lsp_base::{
    Command, PartialResultParams, Range, TextDocumentPositionParams, TextEdit,
    WorkDoneProgressParams,
};
use lsp_kinds::{
    CompletionItemKind, CompletionItemTag, CompletionTriggerKind, InsertTextFormat, InsertTextMode,
};
use lsp_names::Documentation;
use lsp_shape::{
    Copies, Flat, Misfit, NoMemory, Optional, Required, WideReader, Wire, Writer, attempt, flat,
    form, read_object,
};
use serde_json::Value;
use std::alloc::{AllocError, Global};

/// Parameters of `textDocument/completion`: where the user wants suggestions, and what made the
/// client ask (LSP 3.17, "Completion Request").
#[derive(Debug, PartialEq, Clone, Drop)]
pub struct CompletionParams {
    /// The document and the position of the cursor in it.
    pub text_document_position: TextDocumentPositionParams,
    /// The token for progress reports on this request, if the client sent one.
    pub work_done_progress_params: WorkDoneProgressParams,
    /// The token for sending the items in `$/progress` notifications, with an empty response after
    /// them, if the client sent one.
    pub partial_result_params: PartialResultParams,
    /// Why the client asks. Only sent if the client has `textDocument.completion.contextSupport`.
    pub context: Option<CompletionContext>,
}

#[tactic(auto, unfolding(crate::specs::Completion::completion_params_row, lsp_base::specs::Document::text_document_position_params_row, lsp_base::specs::Progress::work_done_progress_params_row, lsp_base::specs::Progress::partial_result_params_row))]
impl Wire for CompletionParams {
    ghost shape = { completion_params_row.shape };

    ghost shown = { completion_params_row.shown };

    fn from_value(alloc: Global, value: &Value) -> Result<CompletionParams, Misfit> {
        let (text_document_position, work_done_progress_params, partial_result_params, context) =
            read_object(alloc, value, (Flat, Flat, Flat, Optional("context")))?;
        Ok(CompletionParams {
            text_document_position,
            work_done_progress_params,
            partial_result_params,
            context,
        })
    }

    fn to_value(&self, alloc: Global) -> Result<Value, NoMemory> {
        let mut object = Writer::new(alloc);
        object.flat(&self.text_document_position);
        object.flat(&self.work_done_progress_params);
        object.flat(&self.partial_result_params);
        object.optional("context", &self.context);
        object.end()
    }
}

/// What made a client ask for completion, since 3.3 (LSP 3.17, "Completion Request").
#[derive(Debug, PartialEq, Clone, Drop)]
pub struct CompletionContext {
    /// What led to the request: typing or an explicit command, a trigger character, or an earlier
    /// list that was incomplete.
    pub trigger_kind: CompletionTriggerKind,
    /// The single character that was typed. Only sent with
    /// `CompletionTriggerKind::TRIGGER_CHARACTER`.
    pub trigger_character: Option<String>,
}

#[tactic(auto, unfolding(crate::specs::Completion::completion_context_row))]
impl Wire for CompletionContext {
    ghost shape = { completion_context_row.shape };

    ghost shown = { completion_context_row.shown };

    fn from_value(alloc: Global, value: &Value) -> Result<CompletionContext, Misfit> {
        let (trigger_kind, trigger_character) = read_object(
            alloc,
            value,
            (Required("triggerKind"), Optional("triggerCharacter")),
        )?;
        Ok(CompletionContext {
            trigger_kind,
            trigger_character,
        })
    }

    fn to_value(&self, alloc: Global) -> Result<Value, NoMemory> {
        let mut object = Writer::new(alloc);
        object.field("triggerKind", &self.trigger_kind);
        object.optional("triggerCharacter", &self.trigger_character);
        object.end()
    }
}

/// Result of `textDocument/completion`: the suggestions. If there are none, the result may be null
/// instead (LSP 3.17, "Completion Request").
#[derive(Debug, PartialEq, Clone, Drop)]
pub enum CompletionResponse {
    /// A complete array: while the user types on, the client filters these items without asking
    /// again.
    Array(Vec<CompletionItem>),
    /// Suggestions that may be marked as incomplete.
    List(CompletionList),
}

#[tactic(auto, unfolding(crate::specs::Completion::completion_response_row))]
impl Wire for CompletionResponse {
    ghost shape = { completion_response_row.shape };

    ghost shown = { completion_response_row.shown };

    fn from_value(alloc: Global, value: &Value) -> Result<CompletionResponse, Misfit> {
        if let Some(array) = attempt(alloc, value)? {
            return Ok(CompletionResponse::Array(array));
        }
        Ok(CompletionResponse::List(form(alloc, value)?))
    }

    fn to_value(&self, alloc: Global) -> Result<Value, NoMemory> {
        match self {
            CompletionResponse::Array(array) => array.to_value(alloc),
            CompletionResponse::List(list) => list.to_value(alloc),
        }
    }
}

impl From<Vec<CompletionItem>> for CompletionResponse {
    ghost from_gives = { λ given made. made ≡ completion_response.Array given };

    fn from(array: Vec<CompletionItem>) -> CompletionResponse {
        CompletionResponse::Array(array)
    }
}

impl From<CompletionList> for CompletionResponse {
    ghost from_gives = { λ given made. made ≡ completion_response.List given };

    fn from(list: CompletionList) -> CompletionResponse {
        CompletionResponse::List(list)
    }
}

/// An array of completion items that can be marked as incomplete: one form of the result of
/// `textDocument/completion`. The member `itemDefaults` of 3.17 is not supported (LSP 3.17,
/// "Completion Request").
#[derive(Debug, PartialEq, Clone, Drop)]
pub struct CompletionList {
    /// Whether there are suggestions that the list leaves out. If so, the client asks again while
    /// the user types on.
    pub is_incomplete: bool,
    /// The suggestions.
    pub items: Vec<CompletionItem>,
}

impl CompletionList {
    /// A complete list without items.
    pub fn default(alloc: Global) -> CompletionList
        ensures is_incomplete { result.is_incomplete ≡ false }
        ensures items { result.items.items ≡ [] }
    {
        CompletionList {
            is_incomplete: false,
            items: Vec::new(alloc),
        }
    }
}

#[tactic(auto, unfolding(crate::specs::Completion::completion_list_row))]
impl Wire for CompletionList {
    ghost shape = { completion_list_row.shape };

    ghost shown = { completion_list_row.shown };

    fn from_value(alloc: Global, value: &Value) -> Result<CompletionList, Misfit> {
        let (is_incomplete, items) = read_object(
            alloc,
            value,
            (Required("isIncomplete"), Required("items")),
        )?;
        Ok(CompletionList {
            is_incomplete,
            items,
        })
    }

    fn to_value(&self, alloc: Global) -> Result<Value, NoMemory> {
        let mut object = Writer::new(alloc);
        object.field("isIncomplete", &self.is_incomplete);
        object.field("items", &self.items);
        object.end()
    }
}

/// A suggestion in the result of `textDocument/completion`. The client may ask for parts that are
/// missing by `completionItem/resolve` (LSP 3.17, "Completion Request").
#[derive(Debug, PartialEq, Drop)]
pub struct CompletionItem {
    /// The text that the user sees in the list. It is also used for sorting, filtering and
    /// inserting where the fields for these are absent.
    pub label: String,
    /// More text beside the label. Only for clients with
    /// `textDocument.completion.completionItem.labelDetailsSupport`, since 3.17.
    pub label_details: Option<CompletionItemLabelDetails>,
    /// What sort of thing is suggested, such as a method or a keyword. Clients usually show it as
    /// an icon.
    pub kind: Option<CompletionItemKind>,
    /// A short text on the suggestion, such as its type.
    pub detail: Option<String>,
    /// A longer text that explains the suggestion, as plain text or Markdown.
    pub documentation: Option<Documentation>,
    /// Whether the use of the suggested symbol is discouraged. `tags` with
    /// `CompletionItemTag::DEPRECATED` replaces this field.
    pub deprecated: Option<bool>,
    /// Whether the item should be the selected one when the list opens. If several are marked, the
    /// client chooses. Only for clients with `preselectSupport`; since 3.9.
    pub preselect: Option<bool>,
    /// The string by which the client orders the items. Absent: the label.
    pub sort_text: Option<String>,
    /// The string that the client compares with what the user has typed. Absent: the label.
    pub filter_text: Option<String>,
    /// The string to insert if `text_edit` is absent; if this is absent too, the label. The client
    /// decides which text at the cursor it replaces, so `text_edit` is more exact.
    pub insert_text: Option<String>,
    /// Whether `insert_text` or the text of `text_edit` is plain text or a snippet. Absent: plain
    /// text. A snippet needs a client with `textDocument.completion.completionItem.snippetSupport`.
    pub insert_text_format: Option<InsertTextFormat>,
    /// What the client does with whitespace and indentation in the inserted text, since 3.16.
    /// Absent: what it states in `textDocument.completion.insertTextMode`.
    pub insert_text_mode: Option<InsertTextMode>,
    /// The edit that puts the suggestion into the document, in place of `insert_text`. Its range
    /// must stay on one line and contain the position of the request.
    pub text_edit: Option<CompletionTextEdit>,
    /// Edits elsewhere in the document that come with the suggestion, such as one that adds an
    /// import. They must overlap neither the main edit nor one another.
    pub additional_text_edits: Option<Vec<TextEdit>>,
    /// A command that the client runs after the insertion. Further changes of the document belong
    /// in `additional_text_edits`.
    pub command: Option<Command>,
    /// Characters that accept the item when typed, and are then inserted after it. Each string
    /// holds a single character; since 3.2.
    pub commit_characters: Option<Vec<String>>,
    /// Any value, sent as the member `data`. The client returns it unchanged in
    /// `completionItem/resolve`.
    pub payload: Option<Value>,
    /// Marks on the item, such as `CompletionItemTag::DEPRECATED`; since 3.15.
    pub tags: Option<Vec<CompletionItemTag>>,
}

impl Clone for CompletionItem {
    ghost is_clone = { λ x y. ⟦<String as Clone>⟧.is_clone x.label y.label
        × ⟦<Option<CompletionItemLabelDetails> as Clone>⟧.is_clone x.label_details y.label_details
        × ⟦<Option<CompletionItemKind> as Clone>⟧.is_clone x.kind y.kind
        × ⟦<Option<String> as Clone>⟧.is_clone x.detail y.detail
        × ⟦<Option<Documentation> as Clone>⟧.is_clone x.documentation y.documentation
        × ⟦<Option<bool> as Clone>⟧.is_clone x.deprecated y.deprecated
        × ⟦<Option<bool> as Clone>⟧.is_clone x.preselect y.preselect
        × ⟦<Option<String> as Clone>⟧.is_clone x.sort_text y.sort_text
        × ⟦<Option<String> as Clone>⟧.is_clone x.filter_text y.filter_text
        × ⟦<Option<String> as Clone>⟧.is_clone x.insert_text y.insert_text
        × ⟦<Option<InsertTextFormat> as Clone>⟧.is_clone x.insert_text_format y.insert_text_format
        × ⟦<Option<InsertTextMode> as Clone>⟧.is_clone x.insert_text_mode y.insert_text_mode
        × ⟦<Option<CompletionTextEdit> as Clone>⟧.is_clone x.text_edit y.text_edit
        × ⟦<Option<Vec<TextEdit>> as Clone>⟧.is_clone
        x.additional_text_edits y.additional_text_edits
        × ⟦<Option<Command> as Clone>⟧.is_clone x.command y.command
        × ⟦<Option<Vec<String>> as Clone>⟧.is_clone x.commit_characters y.commit_characters
        × ⟦<Option<Value> as Clone>⟧.is_clone x.payload y.payload
        × ⟦<Option<Vec<CompletionItemTag>> as Clone>⟧.is_clone x.tags y.tags };

    fn clone(&self) -> Result<CompletionItem, AllocError> {
        let mut copies = Copies::new();
        let copy = CompletionItem {
            label: self.label.clone()?,
            label_details: copies.optional(&self.label_details),
            kind: copies.optional(&self.kind),
            detail: copies.optional(&self.detail),
            documentation: copies.optional(&self.documentation),
            deprecated: copies.optional(&self.deprecated),
            preselect: copies.optional(&self.preselect),
            sort_text: copies.optional(&self.sort_text),
            filter_text: copies.optional(&self.filter_text),
            insert_text: copies.optional(&self.insert_text),
            insert_text_format: copies.optional(&self.insert_text_format),
            insert_text_mode: copies.optional(&self.insert_text_mode),
            text_edit: copies.optional(&self.text_edit),
            additional_text_edits: copies.optional(&self.additional_text_edits),
            command: copies.optional(&self.command),
            commit_characters: copies.optional(&self.commit_characters),
            payload: copies.optional(&self.payload),
            tags: copies.optional(&self.tags),
        };
        copies.end(copy)
    }
}

impl CompletionItem {
    /// An item with this label and detail, and nothing else.
    pub fn new_simple(label: String, detail: String) -> CompletionItem
        ensures { result
            ≡ record {
              label = label;
              label_details = None;
              kind = None;
              detail = Some detail;
              documentation = None;
              deprecated = None;
              preselect = None;
              sort_text = None;
              filter_text = None;
              insert_text = None;
              insert_text_format = None;
              insert_text_mode = None;
              text_edit = None;
              additional_text_edits = None;
              command = None;
              commit_characters = None;
              payload = None;
              tags = None;
            } }
    {
        CompletionItem {
            label,
            label_details: None,
            kind: None,
            detail: Some(detail),
            documentation: None,
            deprecated: None,
            preselect: None,
            sort_text: None,
            filter_text: None,
            insert_text: None,
            insert_text_format: None,
            insert_text_mode: None,
            text_edit: None,
            additional_text_edits: None,
            command: None,
            commit_characters: None,
            payload: None,
            tags: None,
        }
    }

    /// An item with an empty label, and nothing else.
    pub fn default(alloc: Global) -> CompletionItem
        ensures label { string_bytes result.label ≡ [] }
        ensures label_details { result.label_details ≡ None }
        ensures kind { result.kind ≡ None }
        ensures detail { result.detail ≡ None }
        ensures documentation { result.documentation ≡ None }
        ensures deprecated { result.deprecated ≡ None }
        ensures preselect { result.preselect ≡ None }
        ensures sort_text { result.sort_text ≡ None }
        ensures filter_text { result.filter_text ≡ None }
        ensures insert_text { result.insert_text ≡ None }
        ensures insert_text_format { result.insert_text_format ≡ None }
        ensures insert_text_mode { result.insert_text_mode ≡ None }
        ensures text_edit { result.text_edit ≡ None }
        ensures additional_text_edits { result.additional_text_edits ≡ None }
        ensures command { result.command ≡ None }
        ensures commit_characters { result.commit_characters ≡ None }
        ensures payload { result.payload ≡ None }
        ensures tags { result.tags ≡ None }
    {
        CompletionItem {
            label: String::new(alloc),
            label_details: None,
            kind: None,
            detail: None,
            documentation: None,
            deprecated: None,
            preselect: None,
            sort_text: None,
            filter_text: None,
            insert_text: None,
            insert_text_format: None,
            insert_text_mode: None,
            text_edit: None,
            additional_text_edits: None,
            command: None,
            commit_characters: None,
            payload: None,
            tags: None,
        }
    }
}

#[tactic(auto, unfolding(crate::specs::Completion::completion_item_row, crate::specs::Completion::completion_item_fields))]
impl Wire for CompletionItem {
    ghost shape = { completion_item_row.shape };

    ghost shown = { completion_item_row.shown };

    fn from_value(alloc: Global, value: &Value) -> Result<CompletionItem, Misfit> {
        let mut object = WideReader::new(alloc, value)?;
        let read = CompletionItem {
            label: object.field("label")?,
            label_details: object.optional("labelDetails"),
            kind: object.optional("kind"),
            detail: object.optional("detail"),
            documentation: object.optional("documentation"),
            deprecated: object.optional("deprecated"),
            preselect: object.optional("preselect"),
            sort_text: object.optional("sortText"),
            filter_text: object.optional("filterText"),
            insert_text: object.optional("insertText"),
            insert_text_format: object.optional("insertTextFormat"),
            insert_text_mode: object.optional("insertTextMode"),
            text_edit: object.optional("textEdit"),
            additional_text_edits: object.optional("additionalTextEdits"),
            command: object.optional("command"),
            commit_characters: object.optional("commitCharacters"),
            payload: object.optional("data"),
            tags: object.optional("tags"),
        };
        object.end(read)
    }

    fn to_value(&self, alloc: Global) -> Result<Value, NoMemory> {
        let mut object = Writer::new(alloc);
        object.field("label", &self.label);
        object.optional("labelDetails", &self.label_details);
        object.optional("kind", &self.kind);
        object.optional("detail", &self.detail);
        object.optional("documentation", &self.documentation);
        object.optional("deprecated", &self.deprecated);
        object.optional("preselect", &self.preselect);
        object.optional("sortText", &self.sort_text);
        object.optional("filterText", &self.filter_text);
        object.optional("insertText", &self.insert_text);
        object.optional("insertTextFormat", &self.insert_text_format);
        object.optional("insertTextMode", &self.insert_text_mode);
        object.optional("textEdit", &self.text_edit);
        object.optional("additionalTextEdits", &self.additional_text_edits);
        object.optional("command", &self.command);
        object.optional("commitCharacters", &self.commit_characters);
        object.optional("data", &self.payload);
        object.optional("tags", &self.tags);
        object.end()
    }
}

/// Text that a client adds to the label of a completion item, in a weaker style; since 3.17 (LSP
/// 3.17, "Completion Request").
#[derive(Debug, PartialEq, Default, Clone, Drop)]
pub struct CompletionItemLabelDetails {
    /// What follows the label immediately, without a space, such as the parameters of a function.
    pub detail: Option<String>,
    /// What comes last, such as the module or the file of the suggestion.
    pub description: Option<String>,
}

#[tactic(auto, unfolding(crate::specs::Completion::completion_item_label_details_row))]
impl Wire for CompletionItemLabelDetails {
    ghost shape = { completion_item_label_details_row.shape };

    ghost shown = { completion_item_label_details_row.shown };

    fn from_value(alloc: Global, value: &Value) -> Result<CompletionItemLabelDetails, Misfit> {
        let (detail, description) = read_object(
            alloc,
            value,
            (Optional("detail"), Optional("description")),
        )?;
        Ok(CompletionItemLabelDetails {
            detail,
            description,
        })
    }

    fn to_value(&self, alloc: Global) -> Result<Value, NoMemory> {
        let mut object = Writer::new(alloc);
        object.optional("detail", &self.detail);
        object.optional("description", &self.description);
        object.end()
    }
}

/// The edit that puts a completion item into the document (LSP 3.17, "Completion Request").
#[derive(Debug, PartialEq, Eq, Clone, Drop)]
pub enum CompletionTextEdit {
    /// One edit, whether the user inserts or replaces.
    Edit(TextEdit),
    /// A text with one range for inserting and one for replacing. Only for clients with
    /// `textDocument.completion.completionItem.insertReplaceSupport`, since 3.16.
    InsertAndReplace(InsertReplaceEdit),
}

#[tactic(auto, unfolding(crate::specs::Completion::completion_text_edit_row))]
impl Wire for CompletionTextEdit {
    ghost shape = { completion_text_edit_row.shape };

    ghost shown = { completion_text_edit_row.shown };

    fn from_value(alloc: Global, value: &Value) -> Result<CompletionTextEdit, Misfit> {
        if let Some(edit) = attempt(alloc, value)? {
            return Ok(CompletionTextEdit::Edit(edit));
        }
        Ok(CompletionTextEdit::InsertAndReplace(form(alloc, value)?))
    }

    fn to_value(&self, alloc: Global) -> Result<Value, NoMemory> {
        match self {
            CompletionTextEdit::Edit(edit) => edit.to_value(alloc),
            CompletionTextEdit::InsertAndReplace(replace) => replace.to_value(alloc),
        }
    }
}

impl From<TextEdit> for CompletionTextEdit {
    ghost from_gives = { λ given made. made ≡ completion_text_edit.Edit given };

    fn from(edit: TextEdit) -> CompletionTextEdit {
        CompletionTextEdit::Edit(edit)
    }
}

impl From<InsertReplaceEdit> for CompletionTextEdit {
    ghost from_gives = { λ given made. made ≡ completion_text_edit.InsertAndReplace given };

    fn from(replace: InsertReplaceEdit) -> CompletionTextEdit {
        CompletionTextEdit::InsertAndReplace(replace)
    }
}

/// An edit for a completion in the middle of a word, where the user can either insert before the
/// rest of the word or replace it; since 3.16 (LSP 3.17, "Completion Request").
#[derive(Debug, PartialEq, Eq, Clone, Drop)]
pub struct InsertReplaceEdit {
    /// The text that takes the place of either range.
    pub new_text: String,
    /// The range that is overwritten when the user inserts, usually the word up to the cursor. It
    /// starts where `replace` starts and lies within it.
    pub insert: Range,
    /// The range that is overwritten when the user replaces, usually the whole word. Both ranges
    /// must stay on one line and contain the position of the request.
    pub replace: Range,
}

impl InsertReplaceEdit {
    /// An empty text, with empty ranges at the start of the document.
    pub fn default(alloc: Global) -> InsertReplaceEdit
        ensures new_text { string_bytes result.new_text ≡ [] }
        ensures insert_start { result.insert.start ≡ record { line = 0; character = 0 } }
        ensures insert_end { result.insert.end ≡ record { line = 0; character = 0 } }
        ensures replace_start { result.replace.start ≡ record { line = 0; character = 0 } }
        ensures replace_end { result.replace.end ≡ record { line = 0; character = 0 } }
    {
        InsertReplaceEdit {
            new_text: String::new(alloc),
            insert: Range::default(),
            replace: Range::default(),
        }
    }
}

#[tactic(auto, unfolding(crate::specs::Completion::insert_replace_edit_row))]
impl Wire for InsertReplaceEdit {
    ghost shape = { insert_replace_edit_row.shape };

    ghost shown = { insert_replace_edit_row.shown };

    fn from_value(alloc: Global, value: &Value) -> Result<InsertReplaceEdit, Misfit> {
        let (new_text, insert, replace) = read_object(
            alloc,
            value,
            (Required("newText"), Required("insert"), Required("replace")),
        )?;
        Ok(InsertReplaceEdit {
            new_text,
            insert,
            replace,
        })
    }

    fn to_value(&self, alloc: Global) -> Result<Value, NoMemory> {
        let mut object = Writer::new(alloc);
        object.field("newText", &self.new_text);
        object.field("insert", &self.insert);
        object.field("replace", &self.replace);
        object.end()
    }
}
