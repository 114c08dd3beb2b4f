// The numbers of a list of tokens.
ghost use Rattle.std.specs.Prelude.{◌≡◌, ◌≢◌, ◌%◌, IfOk, OnOk, IsErrOf, length};
ghost use Rattle.serde_json.specs.Data.{Data};
ghost use Rattle.lsp_shape.specs.Shape.{Shape, tokens};
ghost use Rattle.lsp_shape.specs.Shown.{show_tokens};
ghost use Rattle.lsp_shape.specs.Why.{Refuses, Lacks, IfUnfit, IsUnfit};

use crate::why::{Misfit, Wanted};
use crate::wire::Wire;
use no_memory::NoMemory;
use serde_json::Value;
use std::alloc::Global;
use std::marker::Model;

/// The numbers of a list of tokens, five for each: section "Semantic Tokens" of LSP 3.17.
#[derive(Drop)]
pub struct TokenNumbers {
    numbers: Vec<u32>,
}

impl Model for TokenNumbers {
    ghost use Rattle.std.specs.Prelude.{◌≡◌, ◌%◌, ℕ, List, length};

    ghost Value = { List ℕ };

    ghost view = { λ t. t.numbers.items };

    ghost invariant = { λ t. length t.numbers.items % 5 ≡ 0 };
}

impl TokenNumbers {
    /// The tokens of these numbers.
    pub fn new(numbers: Vec<u32>) -> TokenNumbers
        requires { length numbers.items % 5 ≡ 0 }
        ensures { result ≡ numbers.items }
    {
        TokenNumbers { numbers }
    }

    /// The tokens of these numbers. `Unfit` comes exactly where they aren't five for each token.
    pub fn try_new(numbers: Vec<u32>) -> Result<TokenNumbers, Misfit>
        ensures numbers { IfOk result (λ t. t ≡ numbers.items) }
        ensures fives { OnOk result (length numbers.items % 5 ≡ 0) }
        ensures unfit { IsUnfit result → length numbers.items % 5 ≢ 0 }
        ensures refuses { IfUnfit result
            (λ why. (s : Shape) (d : Data) → Lacks s d Wanted.Length → Refuses s d why) }
        ensures no_memory { ¬ IsErrOf result Misfit.NoMemory }
    {
        if numbers.len() % 5 == 0 {
            Ok(TokenNumbers { numbers })
        } else {
            Err(Misfit::wanted(Wanted::Length))
        }
    }

    /// The numbers, five for each token.
    pub fn as_slice(&self) -> &[u32]
        ensures numbers { result.now ≡ self.now }
        ensures fives { length self.now % 5 ≡ 0 }
    {
        self.numbers.as_slice()
    }
}

impl Wire for TokenNumbers {
    ghost shape = { tokens };

    ghost shown = { show_tokens };

    fn from_value(alloc: Global, value: &Value) -> Result<TokenNumbers, Misfit> {
        TokenNumbers::try_new(Vec::<u32>::from_value(alloc, value)?)
    }

    fn to_value(&self, alloc: Global) -> Result<Value, NoMemory> {
        self.numbers.to_value(alloc)
    }
}
