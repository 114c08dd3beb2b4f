// Code actions, code lenses and links.
ghost use Rattle.std.specs.Prelude.{◌≡◌};
ghost use Rattle.lsp_offer_text.specs.CodeAction.{code_action_provider_capability_row, code_action_options_row, code_lens_options_row, document_link_options_row};
ghost use Rattle.lsp_offer_text.specs.declared.code_action.CodeActionProviderCapability.TheVariants as code_action_provider_capability;

use lsp_names::{CodeActionKind, WorkDoneProgressOptions};
use lsp_shape::{Flat, Misfit, NoMemory, Optional, Wire, Writer, attempt, flat, form, read_object};
use serde_json::Value;
use std::alloc::Global;

/// Whether a server supports `textDocument/codeAction`, as the capability `codeActionProvider` (LSP
/// 3.17, "Code Action Request").
#[derive(Debug, PartialEq, Eq, Clone, Drop)]
pub enum CodeActionProviderCapability {
    /// `true` if the request is supported.
    Simple(bool),
    /// The request is supported, with these options. Only for clients that support `CodeAction`
    /// values.
    Options(CodeActionOptions),
}

#[tactic(auto, unfolding(crate::specs::CodeAction::code_action_provider_capability_row))]
impl Wire for CodeActionProviderCapability {
    ghost shape = { code_action_provider_capability_row.shape };

    ghost shown = { code_action_provider_capability_row.shown };

    fn from_value(alloc: Global, value: &Value) -> Result<CodeActionProviderCapability, Misfit> {
        if let Some(simple) = attempt(alloc, value)? {
            return Ok(CodeActionProviderCapability::Simple(simple));
        }
        Ok(CodeActionProviderCapability::Options(form(alloc, value)?))
    }

    fn to_value(&self, alloc: Global) -> Result<Value, NoMemory> {
        match self {
            CodeActionProviderCapability::Simple(simple) => simple.to_value(alloc),
            CodeActionProviderCapability::Options(options) => options.to_value(alloc),
        }
    }
}

impl From<CodeActionOptions> for CodeActionProviderCapability {
    ghost from_gives = { λ given made. made ≡ code_action_provider_capability.Options given };

    fn from(options: CodeActionOptions) -> CodeActionProviderCapability {
        CodeActionProviderCapability::Options(options)
    }
}

impl From<bool> for CodeActionProviderCapability {
    ghost from_gives = { λ given made. made ≡ code_action_provider_capability.Simple given };

    fn from(simple: bool) -> CodeActionProviderCapability {
        CodeActionProviderCapability::Simple(simple)
    }
}

/// What a server offers for `textDocument/codeAction`. Since 3.11 (LSP 3.17, "Code Action
/// Request").
#[derive(Debug, PartialEq, Eq, Default, Clone, Drop)]
pub struct CodeActionOptions {
    /// The kinds of actions that the server may return, either general ones, such as `refactor`, or
    /// each in detail. Absent: it doesn't say.
    pub code_action_kinds: Option<Vec<CodeActionKind>>,
    /// Whether the server reports work done progress for these requests where the client sends a
    /// token. Since 3.15.
    pub work_done_progress_options: WorkDoneProgressOptions,
    /// Whether `codeAction/resolve` is supported, by which the client asks for further details of
    /// an action. Since 3.16.
    pub resolve_provider: Option<bool>,
}

#[tactic(auto, unfolding(crate::specs::CodeAction::code_action_options_row, lsp_names::specs::Progress::work_done_progress_options_row))]
impl Wire for CodeActionOptions {
    ghost shape = { code_action_options_row.shape };

    ghost shown = { code_action_options_row.shown };

    fn from_value(alloc: Global, value: &Value) -> Result<CodeActionOptions, Misfit> {
        let (code_action_kinds, work_done_progress_options, resolve_provider) = read_object(
            alloc,
            value,
            (
                Optional("codeActionKinds"),
                Flat,
                Optional("resolveProvider"),
            ),
        )?;
        Ok(CodeActionOptions {
            code_action_kinds,
            work_done_progress_options,
            resolve_provider,
        })
    }

    fn to_value(&self, alloc: Global) -> Result<Value, NoMemory> {
        let mut object = Writer::new(alloc);
        object.optional("codeActionKinds", &self.code_action_kinds);
        object.flat(&self.work_done_progress_options);
        object.optional("resolveProvider", &self.resolve_provider);
        object.end()
    }
}

/// What a server offers for `textDocument/codeLens`, as the capability `codeLensProvider` (LSP
/// 3.17, "Code Lens Request").
#[derive(Debug, PartialEq, Eq, Clone, Copy)]
pub struct CodeLensOptions {
    /// Whether `codeLens/resolve` is supported, by which the client asks for the command of a code
    /// lens.
    pub resolve_provider: Option<bool>,
}

#[tactic(auto, unfolding(crate::specs::CodeAction::code_lens_options_row))]
impl Wire for CodeLensOptions {
    ghost shape = { code_lens_options_row.shape };

    ghost shown = { code_lens_options_row.shown };

    fn from_value(alloc: Global, value: &Value) -> Result<CodeLensOptions, Misfit> {
        let resolve_provider = read_object(alloc, value, Optional("resolveProvider"))?;
        Ok(CodeLensOptions { resolve_provider })
    }

    fn to_value(&self, alloc: Global) -> Result<Value, NoMemory> {
        let mut object = Writer::new(alloc);
        object.optional("resolveProvider", &self.resolve_provider);
        object.end()
    }
}

/// What a server offers for `textDocument/documentLink`, as the capability `documentLinkProvider`
/// (LSP 3.17, "Document Link Request").
#[derive(Debug, PartialEq, Eq, Clone, Drop)]
pub struct DocumentLinkOptions {
    /// Whether `documentLink/resolve` is supported, by which the client asks for the target of a
    /// link.
    pub resolve_provider: Option<bool>,
    /// Whether the server reports work done progress for these requests where the client sends a
    /// token. Since 3.15.
    pub work_done_progress_options: WorkDoneProgressOptions,
}

#[tactic(auto, unfolding(crate::specs::CodeAction::document_link_options_row, lsp_names::specs::Progress::work_done_progress_options_row))]
impl Wire for DocumentLinkOptions {
    ghost shape = { document_link_options_row.shape };

    ghost shown = { document_link_options_row.shown };

    fn from_value(alloc: Global, value: &Value) -> Result<DocumentLinkOptions, Misfit> {
        let (resolve_provider, work_done_progress_options) = read_object(
            alloc,
            value,
            (Optional("resolveProvider"), Flat),
        )?;
        Ok(DocumentLinkOptions {
            resolve_provider,
            work_done_progress_options,
        })
    }

    fn to_value(&self, alloc: Global) -> Result<Value, NoMemory> {
        let mut object = Writer::new(alloc);
        object.optional("resolveProvider", &self.resolve_provider);
        object.flat(&self.work_done_progress_options);
        object.end()
    }
}
