// The words of a query.
ghost use Rattle.std.specs.Prelude.{◌≡◌, IfOk, OnErr, IsSome, option_map};
ghost use Rattle.lsp_index.specs.Shown.{show_query};
ghost use Rattle.lsp_index.specs.Words.{request_asked, coordinate_of, position_of, query_with, query_asked};

use crate::Request;
use crate::query::Query;
use lsp_base::Position;
use lsp_program::number;
use lsp_rpc::NoMemory;
use lsp_uri::{Uri, UriError};
use std::alloc::Global;

/// The query that the words ask, if they are of its form: `definition`, `references` or `hover`,
/// the URI of a document, and a line and a character in decimal digits alone.
pub(crate) fn read_words(alloc: Global, words: &Vec<String>) -> Result<Option<Query>, NoMemory>
    ensures asked { IfOk result (λ o. option_map show_query o ≡ query_asked words.now.items) }
    ensures form { OnErr result (IsSome (query_asked words.now.items)) }
{
    match words.as_slice() {
        [request, uri, line, character] => {
            let request = read_request(request.as_str());
            let position = read_position(line.as_str(), character.as_str());
            read_query(alloc, request, uri.as_str(), position)
        }
        _ => Ok(None),
    }
}

fn read_query(
    alloc: Global,
    request: Option<Request>,
    uri: &str,
    position: Option<Position>,
) -> Result<Option<Query>, NoMemory>
    ensures asked { IfOk result (λ o. option_map show_query o ≡ query_with uri.now request position) }
    ensures form { OnErr result (IsSome (query_with uri.now request position)) }
{
    let (Some(request), Some(position)) = (request, position) else {
        return Ok(None);
    };
    match Uri::parse(alloc, uri) {
        Ok(uri) => Ok(Some(Query {
            request,
            uri,
            position,
        })),
        Err(UriError::NotUri) => Ok(None),
        Err(UriError::NoMemory) => Err(NoMemory),
    }
}

fn read_request(word: &str) -> Option<Request>
    ensures { result ≡ request_asked word.now }
{
    if word == "definition" {
        Some(Request::Definition)
    } else if word == "references" {
        Some(Request::References)
    } else if word == "hover" {
        Some(Request::Hover)
    } else {
        None
    }
}

fn read_position(line: &str, character: &str) -> Option<Position>
    ensures { result ≡ position_of line.now character.now }
{
    match (coordinate(line), coordinate(character)) {
        (Some(line), Some(character)) => Some(Position::new(line, character)),
        _ => None,
    }
}

fn coordinate(word: &str) -> Option<u32>
    ensures { result ≡ coordinate_of word.now }
{
    match number(word) {
        Some(n) if n <= u64::from(u32::MAX) => Some(n as u32),
        _ => None,
    }
}
