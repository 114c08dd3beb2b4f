// The types of some names, by the shapes of their rows. Nothing runs here.
ghost use Rattle.std.specs.Prelude.{◌≡◌};
ghost use Rattle.lsp_base.specs.Position.{position_row, range_row, location_row};
ghost use Rattle.lsp_base.specs.Edit.{text_edit_row};
ghost use Rattle.lsp_base.specs.Diagnostic.{diagnostic_row};
ghost use Rattle.lsp_base.specs.WorkspaceEdit.{workspace_edit_row};
ghost use Rattle.lsp_initialize.specs.Client.{initialize_params_row};
ghost use Rattle.lsp_initialize.specs.Server.{server_capabilities_row};
ghost use Rattle.lsp_work.specs.Document.{did_open_text_document_params_row};
ghost use Rattle.lsp_lang_goto.specs.Hover.{hover_params_row, hover_row};
ghost use Rattle.lsp_lang_goto.specs.Symbols.{workspace_symbol_row};
ghost use Rattle.lsp_lang_goto.specs.CodeLens.{code_lens_row};
ghost use Rattle.lsp_lang_goto.specs.Link.{document_link_row};
ghost use Rattle.lsp_lang_item.specs.Completion.{completion_params_row, completion_item_row};
ghost use Rattle.lsp_lang_item.specs.CodeAction.{code_action_row};
ghost use Rattle.lsp_lang_item.specs.InlayHint.{inlay_hint_row};
ghost use Rattle.lsp_tokens.specs.SignatureHelp.{signature_help_row};

use crate::{
    CodeAction, CodeLens, CompletionItem, CompletionParams, Diagnostic, DidOpenTextDocumentParams,
    DocumentLink, Hover, HoverParams, InitializeParams, InlayHint, Location, Position, Range,
    ServerCapabilities, SignatureHelp, TextEdit, Wire, WorkspaceEdit, WorkspaceSymbol,
};

/// Each of these names, which servers use most, is of a type with the shape of its own row.
pub fn names_are_of_their_types()
    ensures position { ⟦<Position as Wire>⟧.shape ≡ position_row.shape }
    ensures range { ⟦<Range as Wire>⟧.shape ≡ range_row.shape }
    ensures location { ⟦<Location as Wire>⟧.shape ≡ location_row.shape }
    ensures text_edit { ⟦<TextEdit as Wire>⟧.shape ≡ text_edit_row.shape }
    ensures diagnostic { ⟦<Diagnostic as Wire>⟧.shape ≡ diagnostic_row.shape }
    ensures workspace_edit { ⟦<WorkspaceEdit as Wire>⟧.shape ≡ workspace_edit_row.shape }
    ensures initialize_params { ⟦<InitializeParams as Wire>⟧.shape ≡ initialize_params_row.shape }
    ensures server_capabilities { ⟦<ServerCapabilities as Wire>⟧.shape
        ≡ server_capabilities_row.shape }
    ensures did_open_text_document_params { ⟦<DidOpenTextDocumentParams as Wire>⟧.shape
        ≡ did_open_text_document_params_row.shape }
    ensures hover_params { ⟦<HoverParams as Wire>⟧.shape ≡ hover_params_row.shape }
    ensures hover { ⟦<Hover as Wire>⟧.shape ≡ hover_row.shape }
    ensures workspace_symbol { ⟦<WorkspaceSymbol as Wire>⟧.shape ≡ workspace_symbol_row.shape }
    ensures code_lens { ⟦<CodeLens as Wire>⟧.shape ≡ code_lens_row.shape }
    ensures document_link { ⟦<DocumentLink as Wire>⟧.shape ≡ document_link_row.shape }
    ensures completion_params { ⟦<CompletionParams as Wire>⟧.shape ≡ completion_params_row.shape }
    ensures completion_item { ⟦<CompletionItem as Wire>⟧.shape ≡ completion_item_row.shape }
    ensures code_action { ⟦<CodeAction as Wire>⟧.shape ≡ code_action_row.shape }
    ensures inlay_hint { ⟦<InlayHint as Wire>⟧.shape ≡ inlay_hint_row.shape }
    ensures signature_help { ⟦<SignatureHelp as Wire>⟧.shape ≡ signature_help_row.shape }
{}
