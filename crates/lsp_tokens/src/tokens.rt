// Semantic tokens: lists of numbers, five for a token.
ghost use Rattle.std.specs.Prelude.{◌≡◌, ◌≢◌, ◌++◌, ◌*◌, ◌%◌, IfOk, OnOk, List, None, [], length, option_map};
ghost use Rattle.lsp_shape.specs.Why.{IfUnfit, IsUnfit};
ghost use Rattle.lsp_tokens.specs.Tokens.{token_numbers, numbers_of as numbers, semantic_tokens_row, semantic_tokens_partial_result_row, semantic_tokens_edit_row};
ghost use Rattle.lsp_tokens.specs.declared.tokens.SemanticToken.{SemanticToken as Token};

use lsp_shape::{Misfit, NoMemory, Reader, TokenNumbers, Wanted, Wire, Writer};
use serde_json::Value;
use std::alloc::Global;

/// A token of a document, at a place that is told from the token before it. Since 3.16 (LSP 3.17,
/// "Semantic Tokens").
#[derive(Debug, PartialEq, Eq, Default, Clone, Copy)]
pub struct SemanticToken {
    /// The number of lines from the start of the token before this one, or from the start of the
    /// document.
    pub delta_line: u32,
    /// The number of characters from the start of the token before this one if that is on the same
    /// line, or else from the start of the line. In UTF-16 code units by default.
    pub delta_start: u32,
    /// The length of the token, in UTF-16 code units by default.
    pub length: u32,
    /// The type of the token, as an index in `token_types` of the server's `SemanticTokensLegend`.
    pub token_type: u32,
    /// The modifiers of the token: the bit of value 2^i stands for the entry i of `token_modifiers`
    /// of the server's `SemanticTokensLegend`.
    pub token_modifiers_bitset: u32,
}

// The token of these numbers.
#[tactic(auto, unfolding(crate::specs::Tokens::token_numbers))]
fn token_of(numbers: &[u32; 5]) -> SemanticToken
    ensures { token_numbers result ≡ numbers.now }
{
    SemanticToken {
        delta_line: numbers[0],
        delta_start: numbers[1],
        length: numbers[2],
        token_type: numbers[3],
        token_modifiers_bitset: numbers[4],
    }
}

/// The tokens of a list of numbers, five for a token. `Unfit` comes exactly where the length of the
/// list is no multiple of five (LSP 3.17, "Semantic Tokens").
pub fn tokens_of(alloc: Global, list: &[u32]) -> Result<Vec<SemanticToken>, Misfit>
    ensures numbers { IfOk result (λ v. numbers v.items ≡ list.now) }
    ensures fives { IfOk result (λ v. length v.items * 5 ≡ length list.now) }
    ensures unfit { IsUnfit result → length list.now % 5 ≡ 0 → ⊥ }
    ensures ragged { length list.now % 5 ≢ 0 → IsUnfit result }
    ensures back { IfOk result (λ v. (ts : List Token) → numbers ts ≡ list.now → v.items ≡ ts) }
{
    if list.len() % 5 != 0 {
        return Err(Misfit::wanted(Wanted::Length));
    }
    let mut tokens = Vec::with_capacity(alloc, list.len() / 5)?;
    let mut rest = list;
    while let Some((token, more)) = rest.split_first_chunk::<5>() {
        tokens.push(token_of(token))?;
        rest = more;
    }
    Ok(tokens)
}

/// The numbers of a list of tokens, five for a token, in the order of the fields (LSP 3.17,
/// "Semantic Tokens").
pub fn numbers_of(alloc: Global, tokens: &[SemanticToken]) -> Result<Vec<u32>, NoMemory>
    ensures numbers { IfOk result (λ v. v.items ≡ numbers tokens.now) }
    ensures fives { IfOk result (λ v. length v.items ≡ length tokens.now * 5) }
{
    let mut list = Vec::new(alloc);
    for token in tokens {
        push_token(&mut list, token)?;
    }
    Ok(list)
}

#[tactic(auto, unfolding(crate::specs::Tokens::token_numbers))]
fn push_token(list: &mut Vec<u32>, token: &SemanticToken) -> Result<(), NoMemory>
    ensures { OnOk result (list.new.items ≡ list.old.items ++ token_numbers token.now) }
{
    list.push(token.delta_line)?;
    list.push(token.delta_start)?;
    list.push(token.length)?;
    list.push(token.token_type)?;
    list.push(token.token_modifiers_bitset)?;
    Ok(())
}

// The tokens that were read.
fn read_tokens(alloc: Global, list: &TokenNumbers) -> Result<Vec<SemanticToken>, Misfit>
    ensures numbers { IfOk result (λ v. numbers v.items ≡ list.now) }
    ensures fits { IfUnfit result (λ _. ⊥) }
{
    tokens_of(alloc, list.as_slice())
}

fn write_tokens(alloc: Global, tokens: &[SemanticToken]) -> Result<TokenNumbers, NoMemory>
    ensures { IfOk result (λ n. n ≡ numbers tokens.now) }
{
    Ok(TokenNumbers::new(numbers_of(alloc, tokens)?))
}

/// The tokens of a document or of a part of it, in the order of their places: the result of
/// `textDocument/semanticTokens/full` or `textDocument/semanticTokens/range`. Since 3.16 (LSP 3.17,
/// "Semantic Tokens").
#[derive(Debug, PartialEq, Eq, Clone, Drop)]
pub struct SemanticTokens {
    /// The id of the result, which the client sends with its next delta request. Absent if the
    /// server offers no delta from this result.
    pub result_id: Option<String>,
    /// The tokens: `data` of the standard, which has five numbers for each.
    pub payload: Vec<SemanticToken>,
}

impl SemanticTokens {
    /// No result id and no tokens.
    pub fn default(alloc: Global) -> SemanticTokens
        ensures result_id { result.result_id ≡ None }
        ensures payload { result.payload.items ≡ [] }
    {
        SemanticTokens {
            result_id: None,
            payload: Vec::new(alloc),
        }
    }
}

#[tactic(auto, unfolding(crate::specs::Tokens::semantic_tokens_row, crate::specs::Tokens::token_list))]
impl Wire for SemanticTokens {
    ghost shape = { semantic_tokens_row.shape };

    ghost shown = { semantic_tokens_row.shown };

    fn from_value(alloc: Global, value: &Value) -> Result<SemanticTokens, Misfit> {
        let object = Reader::new(alloc, value)?;
        Ok(SemanticTokens {
            result_id: object.optional("resultId")?,
            payload: read_tokens(alloc, &object.field("data")?)?,
        })
    }

    fn to_value(&self, alloc: Global) -> Result<Value, NoMemory> {
        let mut object = Writer::new(alloc);
        object.optional("resultId", &self.result_id);
        object.field("data", &write_tokens(alloc, &self.payload)?);
        object.end()
    }
}

/// Some of the tokens of a document, as a server sends them in a `$/progress` notification before
/// the response. Since 3.16 (LSP 3.17, "Semantic Tokens").
#[derive(Debug, PartialEq, Eq, Clone, Drop)]
pub struct SemanticTokensPartialResult {
    /// The tokens: `data` of the standard, which has five numbers for each.
    pub payload: Vec<SemanticToken>,
}

impl SemanticTokensPartialResult {
    /// No tokens.
    pub fn default(alloc: Global) -> SemanticTokensPartialResult
        ensures payload { result.payload.items ≡ [] }
    {
        SemanticTokensPartialResult {
            payload: Vec::new(alloc),
        }
    }
}

#[tactic(auto, unfolding(crate::specs::Tokens::semantic_tokens_partial_result_row, crate::specs::Tokens::token_list))]
impl Wire for SemanticTokensPartialResult {
    ghost shape = { semantic_tokens_partial_result_row.shape };

    ghost shown = { semantic_tokens_partial_result_row.shown };

    fn from_value(alloc: Global, value: &Value) -> Result<SemanticTokensPartialResult, Misfit> {
        let object = Reader::new(alloc, value)?;
        Ok(SemanticTokensPartialResult {
            payload: read_tokens(alloc, &object.field("data")?)?,
        })
    }

    fn to_value(&self, alloc: Global) -> Result<Value, NoMemory> {
        let mut object = Writer::new(alloc);
        object.field("data", &write_tokens(alloc, &self.payload)?);
        object.end()
    }
}

/// A change of the numbers that a result of `textDocument/semanticTokens/full` had. Since 3.16 (LSP
/// 3.17, "Semantic Tokens").
#[derive(Debug, PartialEq, Eq, Default, Clone, Drop)]
pub struct SemanticTokensEdit {
    /// Where the change starts: an index of a number, not of a token.
    pub start: u32,
    /// How many numbers are deleted.
    pub delete_count: u32,
    /// What is inserted there: `data` of the standard, which has five numbers for each token. LSP
    /// allows any numbers; reading fails where they are no whole tokens.
    pub payload: Option<Vec<SemanticToken>>,
}

fn read_inserted(
    alloc: Global,
    list: &Option<TokenNumbers>,
) -> Result<Option<Vec<SemanticToken>>, Misfit>
    ensures numbers { IfOk result (λ o. option_map (λ v. numbers v.items) o ≡ list.now) }
    ensures fits { IfUnfit result (λ _. ⊥) }
{
    match list {
        Some(list) => Ok(Some(read_tokens(alloc, list)?)),
        None => Ok(None),
    }
}

fn write_inserted(
    alloc: Global,
    tokens: &Option<Vec<SemanticToken>>,
) -> Result<Option<TokenNumbers>, NoMemory>
    ensures { IfOk result (λ o. o ≡ option_map (λ v. numbers v.items) tokens.now) }
{
    match tokens {
        Some(tokens) => Ok(Some(write_tokens(alloc, tokens)?)),
        None => Ok(None),
    }
}

#[tactic(auto, unfolding(crate::specs::Tokens::semantic_tokens_edit_row, crate::specs::Tokens::token_list))]
impl Wire for SemanticTokensEdit {
    ghost shape = { semantic_tokens_edit_row.shape };

    ghost shown = { semantic_tokens_edit_row.shown };

    fn from_value(alloc: Global, value: &Value) -> Result<SemanticTokensEdit, Misfit> {
        let object = Reader::new(alloc, value)?;
        Ok(SemanticTokensEdit {
            start: object.field("start")?,
            delete_count: object.field("deleteCount")?,
            payload: read_inserted(alloc, &object.optional("data")?)?,
        })
    }

    fn to_value(&self, alloc: Global) -> Result<Value, NoMemory> {
        let mut object = Writer::new(alloc);
        object.field("start", &self.start);
        object.field("deleteCount", &self.delete_count);
        object.optional("data", &write_inserted(alloc, &self.payload)?);
        object.end()
    }
}
