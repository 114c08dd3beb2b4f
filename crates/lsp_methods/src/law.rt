// What holds of all methods: functions whose contracts are laws.
ghost use Rattle.std.specs.Prelude.{◌≡◌, ◌++◌, Some, List, codes};
ghost use Rattle.lsp_session.specs.declared.table.Entry.{Entry as TableEntry};
ghost use Rattle.lsp_session.specs.declared.table.Kind.TheVariants.{Notification};
ghost use Rattle.lsp_session.specs.declared.table.Layer.TheVariants.{Cancel, Exit};
ghost use Rattle.lsp_session.specs.Table.{MethodData, entry_at, find_in};
ghost use Rattle.lsp_methods.specs.Methods.{method_at, method_row, place_of};
ghost use Rattle.lsp_methods.specs.Standard.{standard_methods};
ghost use Rattle.lsp_methods.specs.declared.method.Method.{Method as AnyMethod};

/// Each method stands at its place in the table, so no two have the same.
pub fn each_at_its_place()
    ensures { (m : AnyMethod) → method_at (place_of m) ≡ Some m }
{}

/// A service finds each method by its name, whatever custom methods stand behind: no two have one
/// name, and no custom method takes the name of one. So it finds the two that a session itself
/// carries out.
pub fn each_is_found_by_its_name()
    ensures served { (m : AnyMethod) (customs : List MethodData)
        → find_in 0 (standard_methods ++ customs) (method_row m).name
        ≡ Some (entry_at (place_of m) (method_row m)) }
    ensures cancel { (customs : List MethodData)
        → find_in 0 (standard_methods ++ customs) (codes "$/cancelRequest") ≡ Some
        (record { place = 61; layer = Cancel; kind = Notification }) }
    ensures exit { (customs : List MethodData)
        → find_in 0 (standard_methods ++ customs) (codes "exit") ≡ Some
        (record { place = 62; layer = Exit; kind = Notification }) }
{}
