// A server of the tests, of which nothing is told but the laws.
ghost use Rattle.std.specs.Prelude.{◌≡◌, IfOk, IfErr};
ghost use Rattle.lsp_session.specs.Table.{find_in};
ghost use Rattle.lsp_session.specs.TableView.{methods_of};
ghost use Rattle.tests_session.specs.Trial.{trial, trial_lawful, EndsWithout};

use lsp_desk::{Caller, DeskFault};
use lsp_rpc::{Error, NoMemory};
use lsp_session::{CallMisfit, Entry, Handlers, Kind, Layer, MethodTable, Progress};
use serde_json::Value;
use std::alloc::Global;

// A server whose calls end after so many polls, as their params say; below 0 they fail.
#[derive(Drop)]
pub(crate) struct Small {
    pub(crate) table: MethodTable,
}

#[derive(Drop)]
pub(crate) struct Waiting {
    left: i64,
}

fn poll(alloc: Global, left: i64) -> Result<Progress<Waiting>, DeskFault>
    ensures clean { IfOk result EndsWithout }
    ensures wants { IfErr result (λ fault. fault ≡ DeskFault.NoMemory) }
{
    if left < 0 {
        let error = Error::internal_error(alloc)?;
        return Ok(Progress::Done(Err(error)));
    }
    if left == 0 {
        return Ok(Progress::Done(Ok(Value::Null)));
    }
    Ok(Progress::Pending(Waiting { left: left - 1 }))
}

impl<D: Caller> Handlers<D> for Small {
    type Call = Waiting;

    type Task = Waiting;

    ghost semantics = { trial (λ small name. find_in 0 (methods_of small.table) name) };

    ghost laws = { trial_lawful (λ small name. find_in 0 (methods_of small.table) name) };

    fn find(&self, name: &str) -> Option<Entry> {
        self.table.find(name)
    }

    fn read(
        &self,
        _alloc: Global,
        _entry: Entry,
        params: Option<&Value>,
    ) -> Result<Waiting, CallMisfit> {
        let left = match params {
            Some(params) => params.as_i64().unwrap_or(0),
            None => 0,
        };
        Ok(Waiting { left })
    }

    fn begin(
        &mut self,
        alloc: Global,
        call: Waiting,
        _desk: &mut D,
    ) -> Result<Progress<Waiting>, DeskFault> {
        poll(alloc, call.left)
    }

    fn resume(
        &mut self,
        alloc: Global,
        task: Waiting,
        _desk: &mut D,
    ) -> Result<Progress<Waiting>, DeskFault> {
        poll(alloc, task.left)
    }
}

const METHODS: &[(&str, Layer, Kind)] = &[
    ("initialize", Layer::Initialize, Kind::Request),
    ("initialized", Layer::Normal, Kind::Notification),
    ("shutdown", Layer::Shutdown, Kind::Request),
    ("exit", Layer::Exit, Kind::Notification),
    ("$/cancelRequest", Layer::Cancel, Kind::Notification),
    ("wait", Layer::Normal, Kind::Request),
];

pub(crate) fn make_server(alloc: Global) -> Result<Small, NoMemory> {
    let mut table = MethodTable::new(alloc);
    for (name, layer, kind) in METHODS {
        table.method(*name, *layer, *kind)?;
    }
    Ok(Small { table })
}
