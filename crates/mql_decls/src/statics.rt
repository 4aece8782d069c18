//! Static variables of functions.
ghost use Rattle.std.specs.Prelude.{◌≡◌, true, [], ◌++◌, map, IfOk};
ghost use Rattle.std.specs.List.{flat_map};
ghost use Rattle.mql_names.specs.Maps.{meaning};
ghost use Rattle.mql_names.specs.Types.{form_of};
ghost use Rattle.mql_names.specs.Things.{variable_name, param_variable};
ghost use Rattle.mql_walk.specs.Things.{statement_things, variables_things, list_things, all_behind, function_things};
ghost use Rattle.mql_walk.specs.Things as thing;
ghost use Rattle.mql_decls.specs.Makes.{knowing, finding};
ghost use Rattle.mql_decls.specs.Declarations as spec;

use crate::forms::StaticForm;
use crate::maker::{Finder, Maker};
use fx8::{ItemList, OutOfMemory, Text};
use mql_names::{body_parts, form_of, own_locals, shares};
use mql_syntax::{Function, Item, Param, Statement, Variable};
use mql_walk::{behind, with_local};

/// Static variables, and behind them a variable, if it is one, with the names of the locals in force.
#[tactic(auto, unfolding(crate::specs::Declarations::static_form))]
fn with_static(
    finder: &Finder<'_, '_, '_, '_>,
    mut found: ItemList<StaticForm>,
    locals: &[Text],
    v: &Variable,
) -> Result<ItemList<StaticForm>, OutOfMemory>
    ensures { IfOk result (λ new. new ≡ found ++ finding finder.now (thing.variable locals.now v.now)) }
{
    if v.words.is_static {
        let variable = finder.maker.variable_form(locals, v)?;
        let function = Text::from_slice(finder.maker.alloc, finder.key)?;
        found.push(StaticForm {
            item: finder.item,
            function,
            variable,
        })?;
    }
    Ok(found)
}

/// Static variables with those among parameters, and the names of the parameters.
fn with_params(
    finder: &Finder<'_, '_, '_, '_>,
    mut found: ItemList<StaticForm>,
    params: &[Param],
) -> Result<(ItemList<StaticForm>, ItemList<Text>), OutOfMemory>
    ensures { IfOk result (λ r. (r.0 ≡ found ++ flat_map (finding finder.now)
        (variables_things [] (map param_variable params.now)))
        × (r.1 ≡ map variable_name (map param_variable params.now))) }
{
    let mut locals = ItemList::new(finder.maker.alloc);
    for q in params {
        found = with_static(finder, found, locals.as_slice(), &q.variable)?;
        locals = with_local(finder.maker.alloc, locals, &q.variable)?;
    }
    Ok((found, locals))
}

/// Static variables with those among variables, and the names of the locals in force behind them.
fn with_variables(
    finder: &Finder<'_, '_, '_, '_>,
    mut found: ItemList<StaticForm>,
    locals: ItemList<Text>,
    variables: &[Variable],
) -> Result<(ItemList<StaticForm>, ItemList<Text>), OutOfMemory>
    ensures { IfOk result (λ r. (r.0 ≡ found ++ flat_map (finding finder.now)
        (variables_things locals variables.now))
        × (r.1 ≡ locals ++ map variable_name variables.now)) }
{
    let mut inner = locals;
    for v in variables {
        found = with_static(finder, found, inner.as_slice(), v)?;
        inner = with_local(finder.maker.alloc, inner, v)?;
    }
    Ok((found, inner))
}

/// Static variables with those that a statement declares; the names of the locals in force stay.
fn with_own(
    finder: &Finder<'_, '_, '_, '_>,
    found: ItemList<StaticForm>,
    locals: ItemList<Text>,
    own: &[Variable],
) -> Result<(ItemList<StaticForm>, ItemList<Text>), OutOfMemory>
    ensures { IfOk result (λ r. (r.0 ≡ found ++ flat_map (finding finder.now)
        (variables_things locals own.now))
        × (r.1 ≡ locals)) }
{
    let count = locals.len();
    let (new, mut behind) = with_variables(finder, found, locals, own)?;
    behind.truncate(count);
    Ok((new, behind))
}

/// Static variables with those of a statement; the names of the locals in force stay.
#[cycle(statics)]
fn with_statement(
    finder: &Finder<'_, '_, '_, '_>,
    found: ItemList<StaticForm>,
    locals: ItemList<Text>,
    s: &Statement,
) -> Result<(ItemList<StaticForm>, ItemList<Text>), OutOfMemory>
    ensures { IfOk result (λ r. (r.0 ≡ found ++ flat_map (finding finder.now)
        (statement_things locals s.now))
        × (r.1 ≡ locals)) }
{
    match s {
        Statement::Node {
            what,
            locals: own,
            parts,
            ..
        } => {
            let (own, locals) = with_own(finder, found, locals, own.as_slice())?;
            let (all, locals) = with_parts(finder, shares(*what), own, locals, parts.as_slice())?;
            Ok((all, locals))
        }
    }
}

/// Static variables with those of statements, and the names of the locals in force behind them.
#[cycle(statics)]
fn with_each(
    finder: &Finder<'_, '_, '_, '_>,
    shared: bool,
    mut found: ItemList<StaticForm>,
    locals: ItemList<Text>,
    parts: &[Statement],
) -> Result<(ItemList<StaticForm>, ItemList<Text>), OutOfMemory>
    ensures { IfOk result (λ r. (r.0 ≡ found ++ flat_map (finding finder.now)
        (list_things shared locals parts.now))
        × (r.1 ≡ all_behind shared locals parts.now)) }
{
    let mut inner = locals;
    for s in parts {
        let (more, back) = with_statement(finder, found, inner, s)?;
        found = more;
        inner = behind(finder.maker.alloc, shared, back, s)?;
    }
    Ok((found, inner))
}

/// Static variables with those of statements; the names of the locals in force stay.
#[cycle(statics)]
fn with_parts(
    finder: &Finder<'_, '_, '_, '_>,
    shared: bool,
    found: ItemList<StaticForm>,
    locals: ItemList<Text>,
    parts: &[Statement],
) -> Result<(ItemList<StaticForm>, ItemList<Text>), OutOfMemory>
    ensures { IfOk result (λ r. (r.0 ≡ found ++ flat_map (finding finder.now)
        (list_things shared locals parts.now))
        × (r.1 ≡ locals)) }
{
    let count = locals.len();
    let (new, mut behind) = with_each(finder, shared, found, locals, parts)?;
    behind.truncate(count);
    Ok((new, behind))
}

/// Static variables with those of a function.
fn with_function(
    finder: &Finder<'_, '_, '_, '_>,
    found: ItemList<StaticForm>,
    f: &Function,
) -> Result<ItemList<StaticForm>, OutOfMemory>
    ensures { IfOk result (λ new. new ≡ found ++ flat_map (finding finder.now) (function_things f.now)) }
{
    let (own, locals) = with_params(finder, found, f.params.as_slice())?;
    let (all, _locals) = with_parts(finder, true, own, locals, body_parts(&f.body))?;
    Ok(all)
}

impl Maker<'_, '_, '_> {
    fn with_own_statics(
        &self,
        found: ItemList<StaticForm>,
        n: usize,
        f: &Function,
    ) -> Result<ItemList<StaticForm>, OutOfMemory>
        ensures { IfOk result (λ new. new ≡ found
            ++ knowing self.now spec.function_statics n (form_of (meaning self.now.names.now) f.now) f.now) }
    {
        let key = form_of(self.alloc, self.names, f)?;
        let finder = Finder {
            maker: self,
            item: n,
            key: key.as_slice(),
        };
        let all = with_function(&finder, found, f)?;
        Ok(all)
    }

    /// Static variables, and behind them those of the function that an item at a place is.
    pub(crate) fn with_statics(
        &self,
        found: ItemList<StaticForm>,
        n: usize,
        item: &Item,
    ) -> Result<ItemList<StaticForm>, OutOfMemory>
        ensures { IfOk result (λ new. new ≡ found ++ knowing self.now spec.item_statics n item.now) }
    {
        match item {
            Item::Function(f) => self.with_own_statics(found, n, f),
            Item::Group(_) | Item::Variable(_) | Item::Class(_) | Item::Enumeration(_) => Ok(found),
        }
    }
}
