// The params and the result of `initialize`, held as JSON. They reach as many types as those of all
// other methods together, and few servers look into the params.
ghost use Rattle.std.specs.Prelude.{◌≡◌, true, None, IfOk};
ghost use Rattle.serde_json.specs.View.{view};
ghost use Rattle.lsp_initialize.specs.Client.{initialize_params_row};
ghost use Rattle.lsp_service.specs.Data.{fits};

use lsp_initialize::{InitializeParams, InitializeResult, ServerCapabilities};
use lsp_rpc::NoMemory;
use lsp_shape::Wire;
use serde_json::Value;
use std::alloc::Global;

/// The params of `initialize` as they came, which fit [`InitializeParams`].
#[derive(Drop)]
pub struct InitializeCall {
    pub(crate) params: Value,
    ghost fits: { fits initialize_params_row.shape (view params) ≡ true },
}

/// The result of `initialize` as it is written.
#[derive(Drop)]
pub struct InitializeReply {
    pub(crate) result: Value,
}

impl InitializeCall {
    ghost use Rattle.lsp_service.specs.Calls.{show_initialize};

    /// Reads the params. The one error is out of memory.
    pub fn params(&self, alloc: Global) -> Result<InitializeParams, NoMemory>
        ensures { IfOk result (λ params. initialize_params_row.shown params
            ≡ show_initialize self.now) }
    {
        match InitializeParams::read(alloc, &self.params)? {
            Some(params) => Ok(params),
            None => unreachable!(),
        }
    }
}

impl InitializeReply {
    ghost use Rattle.lsp_service.specs.Replies.{initialize_data, show_offer};

    /// Writes the result. The one error is out of memory.
    #[tactic(auto, unfolding(crate::specs::Replies::initialize_data))]
    pub fn new(alloc: Global, of: &InitializeResult) -> Result<InitializeReply, NoMemory>
        ensures { IfOk result (λ reply. show_offer reply ≡ initialize_data of.now) }
    {
        let result = of.to_value(alloc)?;
        Ok(InitializeReply { result })
    }

    /// Writes the result of a server with these capabilities, which says no more of itself. The one
    /// error is out of memory.
    #[tactic(auto, unfolding(crate::specs::Replies::initialize_data))]
    pub fn offering(
        alloc: Global,
        capabilities: ServerCapabilities,
    ) -> Result<InitializeReply, NoMemory>
        ensures { IfOk result (λ reply. show_offer reply ≡ initialize_data
            (record { capabilities = capabilities; server_info = None })) }
    {
        let of = InitializeResult {
            capabilities,
            server_info: None,
        };
        let result = of.into_value(alloc)?;
        Ok(InitializeReply { result })
    }
}
