//! What the items of a program declare.
ghost use Rattle.std.specs.Prelude.{◌≡◌, IfOk};
ghost use Rattle.std.specs.List.{flat_map};
ghost use Rattle.mql_decls.specs.Makes.{knowing};
ghost use Rattle.mql_decls.specs.Declarations as spec;

use crate::forms::{FunctionForm, GlobalForm, StaticForm, StructureForm};
use crate::maker::Maker;
use fx8::{ItemList, OutOfMemory};
use mql_syntax::Item;

impl Maker<'_, '_, '_> {
    /// The structures that items define, in order.
    pub(crate) fn structures(&self, items: &[Item]) -> Result<ItemList<StructureForm>, OutOfMemory>
        ensures { IfOk result (λ fs. fs ≡ flat_map (knowing self.now spec.item_structures) items.now) }
    {
        let mut found = ItemList::new(self.alloc);
        for item in items {
            found = self.with_structure(found, item)?;
        }
        Ok(found)
    }

    /// The functions that items declare, in order.
    pub(crate) fn functions(&self, items: &[Item]) -> Result<ItemList<FunctionForm>, OutOfMemory>
        ensures { IfOk result (λ fs. fs ≡ spec.numbered (knowing self.now spec.item_functions) 0 items.now) }
    {
        let mut found = ItemList::new(self.alloc);
        for (n, item) in items.iter().enumerate() {
            found = self.with_function(found, n, item)?;
        }
        Ok(found)
    }

    /// The variables of the program's own scope that items declare, in order.
    pub(crate) fn globals(&self, items: &[Item]) -> Result<ItemList<GlobalForm>, OutOfMemory>
        ensures { IfOk result (λ fs. fs ≡ spec.numbered (knowing self.now spec.item_globals) 0 items.now) }
    {
        let mut found = ItemList::new(self.alloc);
        for (n, item) in items.iter().enumerate() {
            found = self.with_global(found, n, item)?;
        }
        Ok(found)
    }

    /// The static variables of the functions that items declare, in order.
    pub(crate) fn statics(&self, items: &[Item]) -> Result<ItemList<StaticForm>, OutOfMemory>
        ensures { IfOk result (λ fs. fs ≡ spec.numbered (knowing self.now spec.item_statics) 0 items.now) }
    {
        let mut found = ItemList::new(self.alloc);
        for (n, item) in items.iter().enumerate() {
            found = self.with_statics(found, n, item)?;
        }
        Ok(found)
    }
}
