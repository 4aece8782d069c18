//! What is broken in the variables of declarations.
ghost use Rattle.std.specs.Prelude.{◌≡◌, [], ◌∷◌, ◌++◌, IfOk};
ghost use Rattle.mql_check.specs.Variables.{owned, inner, declarations, together, gathered, with_more};

use fx8::{ItemList, OutOfMemory};
use mql_expressions::innermost;
use mql_names::Broken;
use mql_syntax::Place;
use std::alloc::Global;

/// What is broken in a variable, or in several of one declaration.
#[derive(Drop)]
pub struct Owned {
    /// The declaration's node.
    pub place: Place,
    /// The broken rules of this node and of those below it.
    pub broken: ItemList<Broken>,
}

/// What is broken in declarations, gathered from the front.
#[derive(Drop)]
pub struct Gathering {
    /// What may be told of the declarations before.
    pub told: ItemList<Broken>,
    /// What is broken in the declaration that is gathered.
    pub pending: Owned,
}

/// What is broken in a variable.
pub(crate) fn with_owner(
    alloc: Global,
    place: Place,
    broken: ItemList<Broken>,
) -> Result<ItemList<Owned>, OutOfMemory>
    ensures { IfOk result (λ os. os ≡ owned place broken) }
{
    let mut list = ItemList::new(alloc);
    list.push(Owned { place, broken })?;
    Ok(list)
}

/// What may be told of a declaration.
fn inner(alloc: Global, o: Owned) -> Result<ItemList<Broken>, OutOfMemory>
    ensures { IfOk result (λ bs. bs ≡ inner o) }
{
    innermost(alloc, o.place, o.broken)
}

fn copied(alloc: Global, o: &Owned) -> Result<Owned, OutOfMemory>
    ensures { IfOk result (λ r. r ≡ o.now) }
{
    let broken = ItemList::from_slice(alloc, o.broken.as_slice())?;
    Ok(Owned {
        place: o.place,
        broken,
    })
}

/// What is broken with one variable more.
fn gathered(alloc: Global, g: Gathering, o: &Owned) -> Result<Gathering, OutOfMemory>
    ensures { IfOk result (λ r. r ≡ gathered g o.now) }
{
    let Gathering { mut told, pending } = g;
    if o.place.at == pending.place.at {
        let mut broken = pending.broken;
        broken.extend_from_slice(o.broken.as_slice())?;
        return Ok(Gathering {
            told,
            pending: Owned {
                place: o.place,
                broken,
            },
        });
    }
    let more = inner(alloc, pending)?;
    told.append(more)?;
    let next = copied(alloc, o)?;
    Ok(Gathering {
        told,
        pending: next,
    })
}

fn ended(alloc: Global, g: Gathering) -> Result<ItemList<Broken>, OutOfMemory>
    ensures { IfOk result (λ bs. bs ≡ with_more g []) }
{
    let Gathering { mut told, pending } = g;
    let more = inner(alloc, pending)?;
    told.append(more)?;
    Ok(told)
}

fn together_from(
    alloc: Global,
    first: &Owned,
    others: &[Owned],
) -> Result<ItemList<Broken>, OutOfMemory>
    ensures { IfOk result (λ bs. bs ≡ together (first.now ∷ others.now)) }
{
    let pending = copied(alloc, first)?;
    let mut g = Gathering {
        told: ItemList::new(alloc),
        pending,
    };
    let mut rest = others;
    while let [o, more @ ..] = rest {
        g = gathered(alloc, g, o)?;
        rest = more;
    }
    ended(alloc, g)
}

/// Of what is broken in variables, what may be told: at a declaration only where nothing below it is broken.
pub(crate) fn together(alloc: Global, all: &[Owned]) -> Result<ItemList<Broken>, OutOfMemory>
    ensures { IfOk result (λ bs. bs ≡ together all.now) }
{
    match all {
        [] => Ok(ItemList::new(alloc)),
        [first, others @ ..] => together_from(alloc, first, others),
    }
}
