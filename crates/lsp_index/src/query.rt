// What is asked.
ghost use Rattle.std.specs.Prelude.{◌≡◌};
ghost use Rattle.lsp_index.specs.Queries.{is_definition, is_references, is_hover};

use lsp_base::Position;
use lsp_uri::Uri;

/// What a query asks for (LSP 3.17, "Language Features").
#[derive(Clone, Copy, Debug, PartialEq, Eq)]
pub enum Request {
    /// Where the symbol at a position is defined.
    Definition,
    /// Where it is declared, defined and used.
    References,
    /// What a hover over it shows.
    Hover,
}

impl Request {
    pub(crate) fn is_definition(self) -> bool
        ensures { result ≡ is_definition self }
    {
        match self {
            Request::Definition => true,
            Request::References => false,
            Request::Hover => false,
        }
    }

    pub(crate) fn is_references(self) -> bool
        ensures { result ≡ is_references self }
    {
        match self {
            Request::Definition => false,
            Request::References => true,
            Request::Hover => false,
        }
    }

    pub(crate) fn is_hover(self) -> bool
        ensures { result ≡ is_hover self }
    {
        match self {
            Request::Definition => false,
            Request::References => false,
            Request::Hover => true,
        }
    }
}

/// A request for a position of a document.
#[derive(Drop)]
pub(crate) struct Query {
    pub(crate) request: Request,
    /// The document.
    pub(crate) uri: Uri,
    pub(crate) position: Position,
}
