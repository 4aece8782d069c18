//! The macros in force, found by their names.
ghost use Rattle.std.specs.Prelude.{◌≡◌, [], ◌∷◌, ◌++◌, length, slice_get, IfOk};
ghost use Rattle.std.specs.Option.{option_copied};
ghost use Rattle.mql_macros.specs.Looks.{last_named};

use crate::copies::copy_text;
use crate::piece::{Macro, MacroList};
use fx8::{OutOfMemory, Stack};
use std::alloc::Global;
use std::collections::BTreeMap;
use std::marker::Model;

/// Macros in the order of their definitions, of which the last of a name is found by a map. Contracts see
/// their list.
#[derive(Drop)]
pub struct MacroTable {
    macros: MacroList,
    /// Where the last macro of a name stands in the list.
    places: BTreeMap<Vec<u16>, u64>,
}

impl Model for MacroTable {
    ghost use Rattle.std.specs.Prelude.{List};
    ghost use Rattle.mql_macros.specs.declared.piece.Macro as definition;
    ghost use Rattle.mql_macros.specs.Places.{ArePlaces};

    ghost Value = { List definition.Macro };

    ghost view = { λ t. t.macros };

    ghost invariant = { λ t. ArePlaces t.places t.macros };
}

impl MacroTable {
    /// No macros.
    pub fn new(alloc: Global) -> MacroTable
        ensures { result ≡ [] }
    {
        MacroTable {
            macros: MacroList::new(alloc),
            places: BTreeMap::new(alloc),
        }
    }

    /// The macros of a list.
    pub fn of_list(alloc: Global, macros: MacroList) -> Result<MacroTable, OutOfMemory>
        ensures { IfOk result (λ table. table ≡ macros) }
    {
        let mut rest = Stack::of_list(macros);
        let mut table = MacroTable::new(alloc);
        while let Some(m) = rest.pop() {
            table = table.with(alloc, m)?;
        }
        Ok(table)
    }

    /// The list of the macros.
    pub fn into_list(self) -> MacroList
        ensures { result ≡ self }
    {
        self.macros
    }

    /// The macro of that number; `None` exactly where there are no more.
    pub fn at(&self, number: u64) -> Option<&Macro>
        ensures { option_copied result ≡ slice_get self.now number }
    {
        self.macros.at(number)
    }

    /// The number of the last macro of a name.
    pub fn last_named(&self, name: &[u16]) -> Option<u64>
        ensures { result ≡ last_named name.now self.now }
    {
        self.places.get(name).copied()
    }

    /// The macros, and one more behind them.
    pub fn with(self, alloc: Global, m: Macro) -> Result<MacroTable, OutOfMemory>
        ensures { IfOk result (λ table. table ≡ self ++ m ∷ []) }
    {
        let MacroTable {
            mut macros,
            mut places,
        } = self;
        let name = copy_text(alloc, &m.name)?.into_vec();
        places.insert(name, macros.len())?;
        macros.push(m)?;
        Ok(MacroTable { macros, places })
    }
}
