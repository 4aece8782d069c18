//! Structures.
ghost use Rattle.std.specs.Prelude.{◌≡◌, ◌++◌, [], IfOk};
ghost use Rattle.std.specs.List.{flat_map};
ghost use Rattle.mql_decls.specs.Makes.{knowing};
ghost use Rattle.mql_decls.specs.Declarations as spec;

use crate::forms::{StructureForm, TypeForm, VariableForm};
use crate::maker::Maker;
use fx8::{ItemList, OutOfMemory, Text};
use mql_syntax::{Class, Item, Member, Parent};

impl Maker<'_, '_, '_> {
    fn with_field(
        &self,
        mut found: ItemList<VariableForm>,
        m: &Member,
    ) -> Result<ItemList<VariableForm>, OutOfMemory>
        ensures { IfOk result (λ new. new ≡ found ++ knowing self.now spec.field_forms m.now) }
    {
        match m {
            Member::Variable(_, v) => {
                found.push(self.variable_form(&[], v)?)?;
                Ok(found)
            }
            Member::Function(..) => Ok(found),
        }
    }

    fn field_forms(&self, members: &[Member]) -> Result<ItemList<VariableForm>, OutOfMemory>
        ensures { IfOk result (λ fs. fs ≡ flat_map (knowing self.now spec.field_forms) members.now) }
    {
        let mut found = ItemList::new(self.alloc);
        for m in members {
            found = self.with_field(found, m)?;
        }
        Ok(found)
    }

    fn parent_form(&self, parent: &Option<Parent>) -> Result<Option<TypeForm>, OutOfMemory>
        ensures { IfOk result (λ t. t ≡ knowing self.now spec.parent_form parent.now) }
    {
        match parent {
            None => Ok(None),
            Some(one) => Ok(Some(self.type_form(&one.of)?)),
        }
    }

    #[tactic(auto, unfolding(crate::specs::Declarations::structure_form))]
    fn structure_form(&self, c: &Class) -> Result<StructureForm, OutOfMemory>
        ensures { IfOk result (λ s. s ≡ knowing self.now spec.structure_form c.now) }
    {
        let name = Text::from_slice(self.alloc, c.name.as_slice())?;
        let parent = self.parent_form(&c.parent)?;
        let fields = self.field_forms(c.members.as_slice())?;
        Ok(StructureForm {
            place: c.place,
            name,
            parent,
            fields,
        })
    }

    fn with_class(
        &self,
        mut found: ItemList<StructureForm>,
        c: &Class,
    ) -> Result<ItemList<StructureForm>, OutOfMemory>
        ensures { IfOk result (λ new. new ≡ found ++ knowing self.now spec.class_structures c.now) }
    {
        if c.defined {
            found.push(self.structure_form(c)?)?;
        }
        Ok(found)
    }

    /// Structures, and behind them the one that an item defines.
    pub(crate) fn with_structure(
        &self,
        found: ItemList<StructureForm>,
        item: &Item,
    ) -> Result<ItemList<StructureForm>, OutOfMemory>
        ensures { IfOk result (λ new. new ≡ found ++ knowing self.now spec.item_structures item.now) }
    {
        match item {
            Item::Class(c) => self.with_class(found, c),
            Item::Group(_) | Item::Variable(_) | Item::Function(_) | Item::Enumeration(_) => Ok(
                found,
            ),
        }
    }
}
