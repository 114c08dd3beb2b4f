// A server with a command that a thread works on: `workspace/executeCommand` with the command `primes`
// and a number counts the primes below it.
use crate::worker::{Found, Jobs};
use lsp_desk::{Caller, DeskFault};
use lsp_rpc::{Error, ErrorCode};
use lsp_service::{
    Asking, Call, InitializeCall, InitializeReply, LifeCall, LifeReply, NoMemory, Reply, Started,
    WorkCall, WorkReply, not_found_for,
};
use lsp_types::{ExecuteCommandOptions, ExecuteCommandParams, ServerCapabilities};
use serde_json::Value;
use std::alloc::Global;
use std::sync::atomic::Ordering;

/// The largest number whose primes are counted, since the program ends only when the thread has
/// ended its job.
const MOST: u64 = 1_000_000;

#[derive(Drop)]
pub(crate) struct Counts<'a> {
    pub(crate) jobs: Jobs<'a>,
}

/// A command that the thread has.
#[derive(Drop)]
pub(crate) struct Counting {
    params: Box<ExecuteCommandParams>,
    found: Found,
}

impl<'a, D: Caller> Asking<D> for Counts<'a> {
    ghost use Rattle.lsp_examples.specs.Task.{counting_call};

    type Task = Counting;

    ghost call_of = { counting_call };

    fn call(
        &mut self,
        alloc: Global,
        call: Call,
        _client: &mut D,
    ) -> Result<Started<Counting>, DeskFault> {
        match call {
            Call::Work(WorkCall::ExecuteCommand(params)) => match self.begin(alloc, &params)? {
                Ok(found) => Ok(Started::Later(Counting { params, found })),
                Err(error) => Ok(Started::Now(Reply::Error(error))),
            },
            Call::Life(LifeCall::Initialize(params)) => {
                let offered = initialize(alloc, params)?;
                Ok(Started::Now(Reply::Life(LifeReply::Initialize(Ok(offered)))))
            }
            Call::Life(LifeCall::Shutdown) => {
                Ok(Started::Now(Reply::Life(LifeReply::Shutdown(Ok(())))))
            }
            other => Ok(Started::Now(not_found_for(alloc, other)?)),
        }
    }

    fn resume(
        &mut self,
        _alloc: Global,
        task: Counting,
        _client: &mut D,
    ) -> Result<Started<Counting>, DeskFault> {
        match task.found.load(Ordering::SeqCst) {
            0 => Ok(Started::Later(task)),
            found => {
                let count = Value::from(found - 1);
                Ok(Started::Now(Reply::Work(WorkReply::ExecuteCommand(Ok(Some(count))))))
            }
        }
    }
}

impl<'a> Counts<'a> {
    // Gives the thread the job that a command asks for, and tells where its result comes to stand.
    fn begin(
        &mut self,
        alloc: Global,
        params: &ExecuteCommandParams,
    ) -> Result<Result<Found, Error>, NoMemory> {
        match number_of(params) {
            Some(below) => match self.jobs.begin(alloc, below)? {
                Some(found) => Ok(Ok(found)),
                None => Ok(Err(Error::new(alloc, ErrorCode::ServerError(-32803))?)),
            },
            None => Ok(Err(Error::new(alloc, ErrorCode::InvalidParams)?)),
        }
    }
}

// The number that the command is asked with, if it is one and not too large.
fn number_of(params: &ExecuteCommandParams) -> Option<u64> {
    match params.arguments.as_slice() {
        [number] if params.command.as_str() == "primes" => match number.as_u64() {
            Some(below) if below <= MOST => Some(below),
            _ => None,
        },
        _ => None,
    }
}

// The command is offered, so that an editor asks for it.
fn initialize(alloc: Global, _params: InitializeCall) -> Result<InitializeReply, NoMemory> {
    let mut offered = ExecuteCommandOptions::default(alloc);
    offered.commands.push(String::from_str(alloc, "primes")?)?;
    let mut capabilities = ServerCapabilities::default();
    capabilities.execute_command_provider = Some(offered);
    InitializeReply::offering(alloc, capabilities)
}
