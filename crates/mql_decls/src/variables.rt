//! Types, variables and parameters.
ghost use Rattle.std.specs.Prelude.{◌≡◌, ◌++◌, ◌∷◌, [], map, IfOk};
ghost use Rattle.mql_decls.specs.Makes.{knowing};
ghost use Rattle.mql_decls.specs.Declarations as spec;

use crate::forms::{ParamForm, StartForm, TypeForm, VariableForm};
use crate::maker::Maker;
use fx8::{ItemList, OutOfMemory, Text};
use mql_names::{type_key, type_sort};
use mql_sizes::{constant_in, size_in};
use mql_syntax::{Dimension, Param, Place, Start, TypeUse, Value, Variable};
use mql_walk::with_local;

fn value_place(v: &Value) -> Place
    ensures { result ≡ spec.value_place v.now }
{
    match v {
        Value::Node { place, .. } => *place,
    }
}

impl Maker<'_, '_, '_> {
    #[tactic(auto, unfolding(crate::specs::Declarations::type_form))]
    pub(crate) fn type_form(&self, of: &TypeUse) -> Result<TypeForm, OutOfMemory>
        ensures { IfOk result (λ t. t ≡ knowing self.now spec.type_form of.now) }
    {
        let name = Text::from_slice(self.alloc, type_key(self.names, of))?;
        Ok(TypeForm {
            sort: type_sort(self.names, of),
            name,
        })
    }

    #[tactic(auto, unfolding(crate::specs::Declarations::dimension_form))]
    fn dimension_form(
        &self,
        locals: &[Text],
        dimension: &Dimension,
    ) -> Result<Option<u32>, OutOfMemory>
        ensures { IfOk result (λ d. d ≡ knowing self.now spec.dimension_form locals.now dimension.now) }
    {
        match dimension {
            Dimension::Open => Ok(None),
            Dimension::Size(v) => size_in(self.alloc, self.names, self.values, locals, v),
        }
    }

    fn dimension_forms(
        &self,
        locals: &[Text],
        dimensions: &[Dimension],
    ) -> Result<ItemList<Option<u32>>, OutOfMemory>
        ensures { IfOk result (λ ds.
            ds ≡ map (knowing self.now spec.dimension_form locals.now) dimensions.now) }
    {
        let mut found = ItemList::new(self.alloc);
        for dimension in dimensions {
            found.push(self.dimension_form(locals, dimension)?)?;
        }
        Ok(found)
    }

    #[tactic(auto, unfolding(crate::specs::Declarations::start_form))]
    fn start_form(&self, locals: &[Text], start: &Start) -> Result<StartForm, OutOfMemory>
        ensures { IfOk result (λ s. s ≡ knowing self.now spec.start_form locals.now start.now) }
    {
        match start {
            Start::Zero => Ok(StartForm::Zero),
            Start::Value(v) => {
                let constant = constant_in(self.alloc, self.names, self.values, locals, v)?;
                Ok(StartForm::Value(value_place(v), constant))
            }
            Start::Arguments(values) => Ok(StartForm::Arguments(values.as_slice().len())),
        }
    }

    /// A variable, a field or a parameter, with the names of the locals in force.
    #[tactic(auto, unfolding(crate::specs::Declarations::variable_form))]
    pub(crate) fn variable_form(
        &self,
        locals: &[Text],
        v: &Variable,
    ) -> Result<VariableForm, OutOfMemory>
        ensures { IfOk result (λ f. f ≡ knowing self.now spec.variable_form locals.now v.now) }
    {
        let of = self.type_form(&v.of)?;
        let name = Text::from_slice(self.alloc, v.name.as_slice())?;
        let dimensions = self.dimension_forms(locals, v.dimensions.as_slice())?;
        let start = self.start_form(locals, &v.start)?;
        Ok(VariableForm {
            place: v.place,
            words: v.words,
            of,
            name,
            dimensions,
            start,
        })
    }

    #[tactic(auto, unfolding(crate::specs::Declarations::param_form))]
    fn param_form(&self, locals: &[Text], q: &Param) -> Result<ParamForm, OutOfMemory>
        ensures { IfOk result (λ f. f ≡ knowing self.now spec.param_form locals.now q.now) }
    {
        let variable = self.variable_form(locals, &q.variable)?;
        Ok(ParamForm {
            reference: q.reference,
            variable,
        })
    }

    fn with_param(
        &self,
        mut found: ItemList<ParamForm>,
        locals: &[Text],
        q: &Param,
    ) -> Result<ItemList<ParamForm>, OutOfMemory>
        ensures { IfOk result (λ new. new ≡ found ++ knowing self.now spec.param_form locals.now q.now ∷ []) }
    {
        found.push(self.param_form(locals, q)?)?;
        Ok(found)
    }

    /// Parameters, each with those before it in force.
    pub(crate) fn param_forms(&self, params: &[Param]) -> Result<ItemList<ParamForm>, OutOfMemory>
        ensures { IfOk result (λ fs. fs ≡ knowing self.now spec.params_from [] params.now) }
    {
        let mut found = ItemList::new(self.alloc);
        let mut locals = ItemList::new(self.alloc);
        for q in params {
            found = self.with_param(found, locals.as_slice(), q)?;
            locals = with_local(self.alloc, locals, &q.variable)?;
        }
        Ok(found)
    }
}
