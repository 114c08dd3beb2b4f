// The method table of a service.
ghost use Rattle.std.specs.Prelude.{◌≡◌, ◌++◌, ◌∷◌, [], IfOk, OnOk, OnErr, drop, length, map};
ghost use Rattle.lsp_session.specs.Table.{find_in};
ghost use Rattle.lsp_session.specs.TableView.{methods_of};
ghost use Rattle.lsp_methods.specs.Methods.{method_row};
ghost use Rattle.lsp_methods.specs.Standard.{standard_count, standard_methods};

use crate::method::{METHODS, Method, STANDARD};
use lsp_session::{Entry, Kind, Layer, MethodTable, NoMemory};
use std::alloc::Global;

/// The method table of a service: the methods of the protocol, the two that a session itself
/// carries out, and behind them custom ones.
#[derive(Drop)]
pub struct ServiceTable {
    table: MethodTable,
    ghost standard_first: { methods_of table
        ≡ standard_methods ++ drop standard_count (methods_of table) },
}

impl ServiceTable {
    ghost use Rattle.lsp_methods.specs.ServiceTable.{customs_of, service_methods};

    /// A table without custom methods.
    pub fn new(alloc: Global) -> Result<ServiceTable, NoMemory>
        ensures { IfOk result (λ table. customs_of table ≡ []) }
    {
        let table = standard_table(alloc)?;
        Ok(ServiceTable { table })
    }

    /// Registers a custom method behind the others, and answers its number, from 0.
    pub fn custom(&mut self, name: &str, kind: Kind) -> Result<u64, NoMemory>
        ensures number { IfOk result (λ number. number ≡ length (customs_of self.old)) }
        ensures ok { IfOk result (λ _. customs_of self.new ≡ customs_of self.old
            ++ record { name = name.now; layer = Layer.Normal; kind = kind } ∷ []) }
        ensures err { OnErr result (customs_of self.new ≡ customs_of self.old) }
    {
        let place = self.table.method(name, Layer::Normal, kind)?;
        Ok(place - STANDARD)
    }

    /// The first registration of the name. It takes no memory.
    pub fn find(&self, name: &str) -> Option<Entry>
        ensures { result ≡ find_in 0 (service_methods self.now) name.now }
    {
        self.table.find(name)
    }
}

// Registers these methods behind the others.
fn register(table: &mut MethodTable, methods: &[Method]) -> Result<(), NoMemory>
    ensures { OnOk result (methods_of table.new
        ≡ methods_of table.old ++ map method_row methods.now) }
{
    for method in methods {
        table.method(method.name(), method.layer(), method.kind())?;
    }
    Ok(())
}

// The methods of the protocol, and the two that a session itself carries out.
fn standard_table(alloc: Global) -> Result<MethodTable, NoMemory>
    ensures { IfOk result (λ table. methods_of table ≡ standard_methods) }
{
    let mut table = MethodTable::new(alloc);
    register(&mut table, &METHODS)?;
    table.method("$/cancelRequest", Layer::Cancel, Kind::Notification)?;
    table.method("exit", Layer::Exit, Kind::Notification)?;
    Ok(table)
}
