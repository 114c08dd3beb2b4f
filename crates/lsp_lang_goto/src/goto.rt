// Declarations, definitions, types and implementations.
ghost use Rattle.std.specs.Prelude.{◌≡◌};
ghost use Rattle.lsp_lang_goto.specs.Goto.{goto_definition_params_row, goto_definition_response_row};
ghost use Rattle.lsp_lang_goto.specs.declared.goto.GotoDefinitionResponse.TheVariants as goto_definition_response;

use lsp_base::{
    Location, LocationLink, PartialResultParams, TextDocumentPositionParams, WorkDoneProgressParams,
};
use lsp_shape::{Misfit, NoMemory, Reader, Wire, Writer, attempt, flat, form};
use serde_json::Value;
use std::alloc::Global;

/// Parameters of `textDocument/definition`: the symbol whose definition is wanted. The requests for
/// declarations, type definitions and implementations take the same parameters (LSP 3.17, "Goto
/// Definition Request").
#[derive(Debug, PartialEq, Eq, Clone, Drop)]
pub struct GotoDefinitionParams {
    /// The document and a position on the symbol, usually that of the cursor or of the mouse
    /// pointer.
    pub text_document_position_params: TextDocumentPositionParams,
    /// The token for progress reports on this request, if the client sent one.
    pub work_done_progress_params: WorkDoneProgressParams,
    /// The token for sending the locations in `$/progress` notifications, with an empty response
    /// after them, if the client sent one.
    pub partial_result_params: PartialResultParams,
}

#[tactic(auto, unfolding(crate::specs::Goto::goto_definition_params_row, lsp_base::specs::Document::text_document_position_params_row, lsp_base::specs::Progress::work_done_progress_params_row, lsp_base::specs::Progress::partial_result_params_row))]
impl Wire for GotoDefinitionParams {
    ghost shape = { goto_definition_params_row.shape };

    ghost shown = { goto_definition_params_row.shown };

    fn from_value(alloc: Global, value: &Value) -> Result<GotoDefinitionParams, Misfit> {
        Ok(GotoDefinitionParams {
            text_document_position_params: flat(alloc, value)?,
            work_done_progress_params: flat(alloc, value)?,
            partial_result_params: flat(alloc, value)?,
        })
    }

    fn to_value(&self, alloc: Global) -> Result<Value, NoMemory> {
        let mut object = Writer::new(alloc);
        object.flat(&self.text_document_position_params);
        object.flat(&self.work_done_progress_params);
        object.flat(&self.partial_result_params);
        object.end()
    }
}

/// Parameters of `textDocument/declaration`: the symbol whose declaration is wanted, since 3.14
/// (LSP 3.17, "Goto Declaration Request").
pub type GotoDeclarationParams = GotoDefinitionParams;

/// Parameters of `textDocument/typeDefinition`: the symbol whose type's definition is wanted, since
/// 3.6 (LSP 3.17, "Goto Type Definition Request").
pub type GotoTypeDefinitionParams = GotoDefinitionParams;

/// Parameters of `textDocument/implementation`: the symbol whose implementations are wanted, since
/// 3.6 (LSP 3.17, "Goto Implementation Request").
pub type GotoImplementationParams = GotoTypeDefinitionParams;

/// Result of `textDocument/definition`: where the symbol is defined. If the server finds nothing,
/// the result may be null instead (LSP 3.17, "Goto Definition Request").
#[derive(Debug, PartialEq, Clone, Drop)]
pub enum GotoDefinitionResponse {
    /// A single location.
    Scalar(Location),
    /// Any number of locations. An empty array is read as this variant.
    Array(Vec<Location>),
    /// Locations that also give the range to underline where the user points, and the range to
    /// select at the target. Only for clients with `linkSupport` for the request, such as
    /// `textDocument.definition.linkSupport`; since 3.14.
    Link(Vec<LocationLink>),
}

#[tactic(auto, unfolding(crate::specs::Goto::goto_definition_response_row))]
impl Wire for GotoDefinitionResponse {
    ghost shape = { goto_definition_response_row.shape };

    ghost shown = { goto_definition_response_row.shown };

    fn from_value(alloc: Global, value: &Value) -> Result<GotoDefinitionResponse, Misfit> {
        if let Some(scalar) = attempt(alloc, value)? {
            return Ok(GotoDefinitionResponse::Scalar(scalar));
        }
        if let Some(array) = attempt(alloc, value)? {
            return Ok(GotoDefinitionResponse::Array(array));
        }
        Ok(GotoDefinitionResponse::Link(form(alloc, value)?))
    }

    fn to_value(&self, alloc: Global) -> Result<Value, NoMemory> {
        match self {
            GotoDefinitionResponse::Scalar(scalar) => scalar.to_value(alloc),
            GotoDefinitionResponse::Array(array) => array.to_value(alloc),
            GotoDefinitionResponse::Link(link) => link.to_value(alloc),
        }
    }
}

impl From<Location> for GotoDefinitionResponse {
    ghost from_gives = { λ given made. made ≡ goto_definition_response.Scalar given };

    fn from(scalar: Location) -> GotoDefinitionResponse {
        GotoDefinitionResponse::Scalar(scalar)
    }
}

impl From<Vec<Location>> for GotoDefinitionResponse {
    ghost from_gives = { λ given made. made ≡ goto_definition_response.Array given };

    fn from(array: Vec<Location>) -> GotoDefinitionResponse {
        GotoDefinitionResponse::Array(array)
    }
}

impl From<Vec<LocationLink>> for GotoDefinitionResponse {
    ghost from_gives = { λ given made. made ≡ goto_definition_response.Link given };

    fn from(link: Vec<LocationLink>) -> GotoDefinitionResponse {
        GotoDefinitionResponse::Link(link)
    }
}

/// Result of `textDocument/declaration`: where the symbol is declared, since 3.14. If the server
/// finds nothing, the result may be null instead (LSP 3.17, "Goto Declaration Request").
pub type GotoDeclarationResponse = GotoDefinitionResponse;

/// Result of `textDocument/typeDefinition`: where the type of the symbol is defined, since 3.6. If
/// the server finds nothing, the result may be null instead (LSP 3.17, "Goto Type Definition
/// Request").
pub type GotoTypeDefinitionResponse = GotoDefinitionResponse;

/// Result of `textDocument/implementation`: where the symbol is implemented, since 3.6. If the
/// server finds nothing, the result may be null instead (LSP 3.17, "Goto Implementation Request").
pub type GotoImplementationResponse = GotoDefinitionResponse;
