//! Functions, and variables of the program's own scope.
ghost use Rattle.std.specs.Prelude.{◌≡◌, ◌++◌, [], IfOk};
ghost use Rattle.mql_decls.specs.Makes.{knowing};
ghost use Rattle.mql_decls.specs.Declarations as spec;

use crate::forms::{FunctionForm, GlobalForm, TypeForm};
use crate::maker::Maker;
use fx8::{ItemList, OutOfMemory, Text};
use mql_names::{event_of, form_of, is_defined};
use mql_syntax::{Function, Item, TypeUse};

impl Maker<'_, '_, '_> {
    fn result_form(&self, of: &Option<TypeUse>) -> Result<Option<TypeForm>, OutOfMemory>
        ensures { IfOk result (λ t. t ≡ knowing self.now spec.result_form of.now) }
    {
        match of {
            None => Ok(None),
            Some(one) => Ok(Some(self.type_form(one)?)),
        }
    }

    #[tactic(auto, unfolding(crate::specs::Declarations::function_form))]
    fn function_form(&self, item: usize, f: &Function) -> Result<FunctionForm, OutOfMemory>
        ensures { IfOk result (λ g. g ≡ knowing self.now spec.function_form item f.now) }
    {
        let key = form_of(self.alloc, self.names, f)?;
        let result = self.result_form(&f.result)?;
        let name = Text::from_slice(self.alloc, f.name.as_slice())?;
        let params = self.param_forms(f.params.as_slice())?;
        Ok(FunctionForm {
            place: f.place,
            item,
            key,
            result,
            name,
            params,
            defined: is_defined(&f.body),
            event: event_of(f),
        })
    }

    /// Functions, and behind them what an item at a place declares of them.
    pub(crate) fn with_function(
        &self,
        mut found: ItemList<FunctionForm>,
        n: usize,
        item: &Item,
    ) -> Result<ItemList<FunctionForm>, OutOfMemory>
        ensures { IfOk result (λ new. new ≡ found ++ knowing self.now spec.item_functions n item.now) }
    {
        match item {
            Item::Function(f) => {
                found.push(self.function_form(n, f)?)?;
                Ok(found)
            }
            Item::Group(_) | Item::Variable(_) | Item::Class(_) | Item::Enumeration(_) => Ok(found),
        }
    }

    /// Variables of the program's own scope, and behind them what an item at a place declares of them.
    pub(crate) fn with_global(
        &self,
        mut found: ItemList<GlobalForm>,
        n: usize,
        item: &Item,
    ) -> Result<ItemList<GlobalForm>, OutOfMemory>
        ensures { IfOk result (λ new. new ≡ found ++ knowing self.now spec.item_globals n item.now) }
    {
        match item {
            Item::Variable(v) => {
                let variable = self.variable_form(&[], v)?;
                found.push(GlobalForm { item: n, variable })?;
                Ok(found)
            }
            Item::Group(_) | Item::Function(_) | Item::Class(_) | Item::Enumeration(_) => Ok(found),
        }
    }
}
