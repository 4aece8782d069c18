//! The supplied structures.
ghost use Rattle.std.specs.Prelude.{◌≡◌, [], ◌∷◌, ◌++◌, map, IfOk};
ghost use Rattle.std.specs.List.{flat_map};
ghost use Rattle.mql_program.specs.Programs.{supplied_field, supplied_layout, supplied_layouts, fields_named};

use fx8::{ItemList, OutOfMemory, Text};
use mql_scope::{Field, Layout};
use mql_typed::single;
use mql_types::Base;
use natives::{Field as SuppliedField, Structure, SuppliedType};
use std::alloc::Global;

/// The units of a text of ASCII.
fn units(alloc: Global, bytes: &[u8]) -> Result<Text, OutOfMemory>
    ensures { IfOk result (λ text. text ≡ bytes.now) }
{
    let mut text = Text::new(alloc);
    for byte in bytes {
        text.push(u16::from(*byte))?;
    }
    Ok(text)
}

fn supplied_field(alloc: Global, f: SuppliedField) -> Result<Field, OutOfMemory>
    ensures { IfOk result (λ r. r ≡ supplied_field f) }
{
    let name = units(alloc, f.name.spelling())?;
    Ok(Field {
        name,
        of: single(Base::Simple(f.kind)),
        accessible: true,
    })
}

#[tactic(auto, using(crate::proofs::Parts::map_more))]
fn supplied_fields(
    alloc: Global,
    supplied: &[SuppliedField],
) -> Result<ItemList<Field>, OutOfMemory>
    ensures { IfOk result (λ fs. fs ≡ map supplied_field supplied.now) }
{
    let mut fields = ItemList::new(alloc);
    for f in supplied {
        fields.push(supplied_field(alloc, *f)?)?;
    }
    Ok(fields)
}

fn supplied_layout(
    alloc: Global,
    of: SuppliedType,
    structure: Structure,
) -> Result<Layout, OutOfMemory>
    ensures { IfOk result (λ l. l ≡ supplied_layout of structure) }
{
    let name = units(alloc, of.spelling())?;
    let fields = supplied_fields(alloc, structure.fields())?;
    Ok(Layout { name, fields })
}

fn with_supplied(
    alloc: Global,
    mut layouts: ItemList<Layout>,
    of: SuppliedType,
    structure: Structure,
) -> Result<ItemList<Layout>, OutOfMemory>
    ensures { IfOk result (λ new. new ≡ layouts ++ supplied_layout of structure ∷ []) }
{
    layouts.push(supplied_layout(alloc, of, structure)?)?;
    Ok(layouts)
}

/// The supplied structures with their fields.
pub(crate) fn supplied_layouts(alloc: Global) -> Result<ItemList<Layout>, OutOfMemory>
    ensures { IfOk result (λ ls. ls ≡ supplied_layouts) }
{
    let none = ItemList::new(alloc);
    let request = with_supplied(
        alloc,
        none,
        SuppliedType::MqlTradeRequest,
        Structure::MqlTradeRequest,
    )?;
    let answer = with_supplied(
        alloc,
        request,
        SuppliedType::MqlTradeResult,
        Structure::MqlTradeResult,
    )?;
    let tick = with_supplied(alloc, answer, SuppliedType::MqlTick, Structure::MqlTick)?;
    let rates = with_supplied(alloc, tick, SuppliedType::MqlRates, Structure::MqlRates)?;
    with_supplied(
        alloc,
        rates,
        SuppliedType::MqlDateTime,
        Structure::MqlDateTime,
    )
}

/// Another field that is the same.
fn copied(alloc: Global, f: &Field) -> Result<Field, OutOfMemory>
    ensures { IfOk result (λ r. r ≡ f.now) }
{
    let name = Text::from_slice(alloc, f.name.as_slice())?;
    Ok(Field {
        name,
        of: f.of,
        accessible: f.accessible,
    })
}

fn with_copies(
    alloc: Global,
    mut fields: ItemList<Field>,
    more: &[Field],
) -> Result<ItemList<Field>, OutOfMemory>
    ensures { IfOk result (λ new. new ≡ fields ++ more.now) }
{
    for f in more {
        fields.push(copied(alloc, f)?)?;
    }
    Ok(fields)
}

fn with_fields_named(
    alloc: Global,
    fields: ItemList<Field>,
    name: &[u16],
    layout: &Layout,
) -> Result<ItemList<Field>, OutOfMemory>
    ensures { IfOk result (λ new. new ≡ fields ++ fields_named name.now layout.now) }
{
    if layout.name.as_slice() == name {
        with_copies(alloc, fields, layout.fields.as_slice())
    } else {
        Ok(fields)
    }
}

fn fields_among(
    alloc: Global,
    name: &[u16],
    layouts: &[Layout],
) -> Result<ItemList<Field>, OutOfMemory>
    ensures { IfOk result (λ fs. fs ≡ flat_map (fields_named name.now) layouts.now) }
{
    let mut fields = ItemList::new(alloc);
    for layout in layouts {
        fields = with_fields_named(alloc, fields, name, layout)?;
    }
    Ok(fields)
}

/// The fields of the supplied structure of a name; none where there is none.
pub(crate) fn supplied_fields_named(
    alloc: Global,
    name: &[u16],
) -> Result<ItemList<Field>, OutOfMemory>
    ensures { IfOk result (λ fs. fs ≡ flat_map (fields_named name.now) supplied_layouts) }
{
    let layouts = supplied_layouts(alloc)?;
    fields_among(alloc, name, layouts.as_slice())
}
