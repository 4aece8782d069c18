//! Reading statements.
ghost use Rattle.std.specs.Prelude.{◌≡◌, ◌++◌, [], ◌∷◌, false, Some, map, option_map, IfOk};
ghost use Rattle.mql_views.specs.Seen.{part_seen, maybe_seen, seen, simple_seen, variables_seen};
ghost use Rattle.mql_syntax.specs.Lists.{each};
ghost use Rattle.mql_syntax.specs.Reads.{Reads, Shows};
ghost use Rattle.mql_syntax.specs.Seen.{at_site};
ghost use Rattle.mql_syntax_read.specs.Seen.{statement_seen, piece_seen, pieces_seen};
ghost use Rattle.mql_syntax_read.specs.Statements as statements;
ghost use Rattle.mql_syntax.specs.declared.kind.StatementKind.TheVariants as kind;

use fx8::{ItemList, OutOfMemory};
use mql_forms::Form;
use mql_grammar::Class;
use mql_syntax::{
    Place, Site, Statement, StatementKind, Unread, Variable, inner, items, place_of, values_in,
    variables,
};
use mql_tree::{Span, Token, Tree};
use mql_views::{
    Part, Simple, Variables, in_braces, is_token, read_delete, read_do, read_for, read_if,
    read_return, read_simple, read_switch, read_while,
};
use std::alloc::Global;

/// What a statement is made of.
#[derive(Clone, Copy)]
pub(crate) enum Piece<'a> {
    /// A statement.
    Whole(Part<'a>),
    /// What a `for` begins with.
    Begin(Simple<'a>),
    /// A label of a `switch`, with its value.
    Case(Part<'a>),
    Default,
}

/// A statement before its parts are read: what it does, its variables, its values and its statements.
#[derive(Drop)]
pub(crate) struct StatementShape<'a> {
    what: StatementKind,
    locals: Option<Variables<'a>>,
    values: ItemList<Part<'a>>,
    parts: ItemList<Piece<'a>>,
}

/// A statement without variables.
fn plain<'a>(
    what: StatementKind,
    values: ItemList<Part<'a>>,
    parts: ItemList<Piece<'a>>,
) -> StatementShape<'a>
    ensures { statement_seen result
        ≡ statements.plain what (seen values.entry) (pieces_seen parts.entry) }
{
    StatementShape {
        what,
        locals: None,
        values,
        parts,
    }
}

/// A statement of no parts.
fn bare<'a>(alloc: Global, what: StatementKind) -> StatementShape<'a>
    ensures { statement_seen result ≡ statements.plain what [] [] }
{
    plain(what, ItemList::new(alloc), ItemList::new(alloc))
}

/// A declaration, or values.
fn simple_shape<'a>(alloc: Global, simple: Simple<'a>) -> Result<StatementShape<'a>, Unread>
    ensures { Shows statement_seen result (Some (statements.simple_shape (simple_seen simple.entry))) }
{
    match simple {
        Simple::Locals(found) => Ok(StatementShape {
            what: StatementKind::Declaration,
            locals: Some(found),
            values: ItemList::new(alloc),
            parts: ItemList::new(alloc),
        }),
        Simple::Values(parts) => {
            let values = items(ItemList::new(alloc), parts)?;
            Ok(plain(StatementKind::Evaluation, values, ItemList::new(alloc)))
        }
    }
}

/// A part that is there, if it is.
fn listed<'a>(alloc: Global, part: Option<Part<'a>>) -> Result<ItemList<Part<'a>>, OutOfMemory>
    ensures { IfOk result (λ found. seen found ≡ statements.listed (maybe_seen part.entry)) }
{
    match part {
        None => Ok(ItemList::new(alloc)),
        Some(part) => ItemList::from_slice(alloc, &[part]),
    }
}

/// Statements, each a piece.
fn whole<'a>(alloc: Global, parts: &'a [Part<'a>]) -> Result<ItemList<Piece<'a>>, OutOfMemory>
    ensures { IfOk result (λ found. pieces_seen found ≡ statements.whole (seen parts.now)) }
{
    let mut found = ItemList::new(alloc);
    for part in parts {
        found.push(Piece::Whole(*part))?;
    }
    Ok(found)
}

fn label_or_whole<'a>(behind: bool, part: Part<'a>) -> Piece<'a>
    ensures { piece_seen result ≡ statements.label_or_whole behind (part_seen part.entry) }
{
    if behind {
        Piece::Case(part)
    } else {
        Piece::Whole(part)
    }
}

/// The labels and statements in the braces of a `switch`.
fn labelled<'a>(alloc: Global, parts: &'a [Part<'a>]) -> Result<ItemList<Piece<'a>>, OutOfMemory>
    ensures { IfOk result (λ found. pieces_seen found ≡ statements.labelled false (seen parts.now)) }
{
    let mut found = ItemList::new(alloc);
    let mut behind = false;
    for part in parts {
        if is_token(&[Class::Case], *part) {
            behind = true;
        } else if is_token(&[Class::Colon], *part) {
            behind = false;
        } else if is_token(&[Class::Default], *part) {
            found.push(Piece::Default)?;
            behind = false;
        } else {
            found.push(label_or_whole(behind, *part))?;
            behind = false;
        }
    }
    Ok(found)
}

#[tactic(auto, unfolding(crate::specs::Statements::block_shape))]
fn block_shape<'a>(alloc: Global, parts: &'a [Part<'a>]) -> Result<StatementShape<'a>, Unread>
    ensures { Shows statement_seen result (statements.block_shape (seen parts.now)) }
{
    match in_braces(parts) {
        None => Err(Unread::Nothing),
        Some(inner) => {
            let parts = whole(alloc, inner)?;
            Ok(plain(StatementKind::Block, ItemList::new(alloc), parts))
        }
    }
}

#[tactic(auto, unfolding(crate::specs::Statements::if_shape))]
fn if_shape<'a>(alloc: Global, parts: &'a [Part<'a>]) -> Result<StatementShape<'a>, Unread>
    ensures { Shows statement_seen result (statements.if_shape (seen parts.now)) }
{
    match read_if(parts) {
        None => Err(Unread::Nothing),
        Some(found) => {
            let values = ItemList::from_slice(alloc, &[found.test])?;
            let parts = match found.other {
                None => ItemList::from_slice(alloc, &[Piece::Whole(found.chosen)])?,
                Some(other) => {
                    ItemList::from_slice(alloc, &[Piece::Whole(found.chosen), Piece::Whole(other)])?
                }
            };
            Ok(plain(StatementKind::If, values, parts))
        }
    }
}

/// A test and a statement.
fn repeated<'a>(
    alloc: Global,
    what: StatementKind,
    test: Part<'a>,
    body: Part<'a>,
) -> Result<StatementShape<'a>, Unread>
    ensures { Shows statement_seen result
        (Some (statements.repeated what (part_seen test.entry, part_seen body.entry))) }
{
    let values = ItemList::from_slice(alloc, &[test])?;
    let parts = ItemList::from_slice(alloc, &[Piece::Whole(body)])?;
    Ok(plain(what, values, parts))
}

#[tactic(auto, unfolding(crate::specs::Statements::while_shape))]
fn while_shape<'a>(alloc: Global, parts: &'a [Part<'a>]) -> Result<StatementShape<'a>, Unread>
    ensures { Shows statement_seen result (statements.while_shape (seen parts.now)) }
{
    match read_while(parts) {
        None => Err(Unread::Nothing),
        Some((test, body)) => repeated(alloc, StatementKind::While, test, body),
    }
}

#[tactic(auto, unfolding(crate::specs::Statements::do_shape))]
fn do_shape<'a>(alloc: Global, parts: &'a [Part<'a>]) -> Result<StatementShape<'a>, Unread>
    ensures { Shows statement_seen result (statements.do_shape (seen parts.now)) }
{
    match read_do(parts) {
        None => Err(Unread::Nothing),
        Some((test, body)) => repeated(alloc, StatementKind::Do, test, body),
    }
}

#[tactic(auto, unfolding(crate::specs::Statements::for_shape))]
fn for_shape<'a>(alloc: Global, parts: &'a [Part<'a>]) -> Result<StatementShape<'a>, Unread>
    ensures { Shows statement_seen result (statements.for_shape (seen parts.now)) }
{
    match read_for(parts) {
        None => Err(Unread::Nothing),
        Some(found) => {
            let tested = found.test.is_some();
            let test = listed(alloc, found.test)?;
            let values = items(test, found.step)?;
            let parts = ItemList::from_slice(
                alloc,
                &[Piece::Begin(found.start), Piece::Whole(found.body)],
            )?;
            Ok(plain(StatementKind::For { tested }, values, parts))
        }
    }
}

#[tactic(auto, unfolding(crate::specs::Statements::switch_shape))]
fn switch_shape<'a>(alloc: Global, parts: &'a [Part<'a>]) -> Result<StatementShape<'a>, Unread>
    ensures { Shows statement_seen result (statements.switch_shape (seen parts.now)) }
{
    match read_switch(parts) {
        None => Err(Unread::Nothing),
        Some(found) => {
            let values = ItemList::from_slice(alloc, &[found.value])?;
            let parts = labelled(alloc, found.body)?;
            Ok(plain(StatementKind::Switch, values, parts))
        }
    }
}

#[tactic(auto, unfolding(crate::specs::Statements::return_shape))]
fn return_shape<'a>(alloc: Global, parts: &'a [Part<'a>]) -> Result<StatementShape<'a>, Unread>
    ensures { Shows statement_seen result (statements.return_shape (seen parts.now)) }
{
    match read_return(parts) {
        None => Err(Unread::Nothing),
        Some(value) => {
            let values = listed(alloc, value)?;
            Ok(plain(StatementKind::Return, values, ItemList::new(alloc)))
        }
    }
}

#[tactic(auto, unfolding(crate::specs::Statements::delete_shape))]
fn delete_shape<'a>(alloc: Global, parts: &'a [Part<'a>]) -> Result<StatementShape<'a>, Unread>
    ensures { Shows statement_seen result (statements.delete_shape (seen parts.now)) }
{
    match read_delete(parts) {
        None => Err(Unread::Nothing),
        Some(value) => {
            let values = listed(alloc, Some(value))?;
            Ok(plain(StatementKind::Delete, values, ItemList::new(alloc)))
        }
    }
}

#[tactic(auto, unfolding(crate::specs::Statements::simple_of))]
fn simple_of<'a>(alloc: Global, parts: &'a [Part<'a>]) -> Result<StatementShape<'a>, Unread>
    ensures { Shows statement_seen result (statements.simple_of (seen parts.now)) }
{
    match read_simple(parts) {
        None => Err(Unread::Nothing),
        Some(found) => simple_shape(alloc, found),
    }
}

/// The parts of a node of a form.
#[tactic(auto, unfolding(crate::specs::Statements::shape))]
fn shape<'a>(alloc: Global, form: Form, parts: &'a [Part<'a>]) -> Result<StatementShape<'a>, Unread>
    ensures { Shows statement_seen result (statements.shape form (seen parts.now)) }
{
    match form {
        Form::Block => block_shape(alloc, parts),
        Form::Empty => Ok(bare(alloc, StatementKind::Empty)),
        Form::Simple => simple_of(alloc, parts),
        Form::If => if_shape(alloc, parts),
        Form::While => while_shape(alloc, parts),
        Form::Do => do_shape(alloc, parts),
        Form::For => for_shape(alloc, parts),
        Form::Switch => switch_shape(alloc, parts),
        Form::Break => Ok(bare(alloc, StatementKind::Break)),
        Form::Continue => Ok(bare(alloc, StatementKind::Continue)),
        Form::Return => return_shape(alloc, parts),
        Form::Delete => delete_shape(alloc, parts),
        _ => Err(Unread::Nothing),
    }
}

fn shape_in<'a>(
    alloc: Global,
    part: Part<'a>,
    parts: &'a [Part<'a>],
) -> Result<StatementShape<'a>, Unread>
    ensures { Shows statement_seen result (statements.shape_of (part_seen part.entry) (seen parts.now)) }
{
    match part.tree {
        Tree::Leaf { .. } => Err(Unread::Nothing),
        Tree::Node { form, parts: _ } => shape(alloc, *form, parts),
    }
}

fn locals_of(
    alloc: Global,
    site: Site,
    found: Option<Variables>,
) -> Result<ItemList<Variable>, Unread>
    ensures { Reads result (at_site statements.locals_of site.entry (option_map variables_seen found.entry)) }
{
    match found {
        None => Ok(ItemList::new(alloc)),
        Some(found) => variables(alloc, site, found),
    }
}

/// A statement at a place, of the statements that it is made of.
#[tactic(auto, unfolding(crate::specs::Statements::stated))]
fn stated(
    alloc: Global,
    site: Site,
    what: StatementKind,
    locals: Option<Variables>,
    values: &[Part],
    parts: ItemList<Statement>,
) -> Result<Statement, Unread>
    ensures { Reads result (at_site statements.stated site.entry what
        (option_map variables_seen locals.entry) (seen values.now) (Some parts)) }
{
    let locals = locals_of(alloc, site, locals)?;
    let values = values_in(
        alloc,
        site.tokens,
        site.classes,
        site.depth,
        site.place,
        values,
    )?;
    Ok(Statement::Node {
        place: site.place,
        what,
        locals,
        values,
        parts,
    })
}

/// What a `for` begins with.
fn begin(alloc: Global, site: Site, simple: Simple) -> Result<Statement, Unread>
    ensures { Reads result (at_site statements.stated_alone site.entry
        (statements.simple_shape (simple_seen simple.entry))) }
{
    let shape = simple_shape(alloc, simple)?;
    let parts = ItemList::new(alloc);
    stated(
        alloc,
        site,
        shape.what,
        shape.locals,
        shape.values.as_slice(),
        parts,
    )
}

/// A label of a `switch`.
fn label(alloc: Global, site: Site, value: Part) -> Result<Statement, Unread>
    ensures { Reads result (at_site statements.stated_alone site.entry
        (statements.plain kind.Case (part_seen value.entry ∷ []) [])) }
{
    let parts = ItemList::new(alloc);
    stated(alloc, site, StatementKind::Case, None, &[value], parts)
}

/// Reads a statement that stands at a node, where nodes go in one another at most as deep as the number says.
#[cycle(statements)]
pub(crate) fn statement(
    alloc: Global,
    tokens: &[(Token, Span)],
    classes: &[Class],
    depth: u32,
    inside: Place,
    part: Part,
) -> Result<Statement, Unread>
    ensures { Reads result
        (statements.statement tokens.now classes.now depth inside (part_seen part.entry)) }
{
    let depth = match depth.checked_sub(1) {
        None => return Err(Unread::Nothing),
        Some(depth) => depth,
    };
    let place = place_of(inside, part);
    let parts = inner(alloc, classes, part)?;
    let shape = shape_in(alloc, part, parts.as_slice())?;
    let site = Site {
        tokens,
        classes,
        depth,
        place,
    };
    let parts = statements_in(alloc, site, shape.parts.as_slice())?;
    stated(
        alloc,
        site,
        shape.what,
        shape.locals,
        shape.values.as_slice(),
        parts,
    )
}

/// Reads what a statement is made of.
#[cycle(statements)]
fn statement_piece(alloc: Global, site: Site, piece: Piece) -> Result<Statement, Unread>
    ensures { Reads result (at_site statements.read_piece site.entry (piece_seen piece.entry)) }
{
    match piece {
        Piece::Whole(part) => {
            statement(
                alloc,
                site.tokens,
                site.classes,
                site.depth,
                site.place,
                part,
            )
        }
        Piece::Begin(simple) => begin(alloc, site, simple),
        Piece::Case(value) => label(alloc, site, value),
        Piece::Default => Ok(Statement::Node {
            place: site.place,
            what: StatementKind::Default,
            locals: ItemList::new(alloc),
            values: ItemList::new(alloc),
            parts: ItemList::new(alloc),
        }),
    }
}

/// Reads the statements and labels that a statement is made of.
#[cycle(statements)]
fn statements_in(alloc: Global, site: Site, pieces: &[Piece]) -> Result<ItemList<Statement>, Unread>
    ensures { Reads result
        (each (at_site statements.read_piece site.entry) (pieces_seen pieces.now)) }
{
    let mut found = ItemList::new(alloc);
    for piece in pieces {
        found.push(statement_piece(alloc, site, *piece)?)?;
    }
    Ok(found)
}

/// Reads a statement: a part that stands at a place, where nodes go in one another at most as deep as the
/// number says. `None` exactly where the part is no statement, or one that is too deep.
pub fn read_statement(
    alloc: Global,
    tokens: &[(Token, Span)],
    classes: &[Class],
    depth: u32,
    inside: Place,
    part: Part,
) -> Result<Option<Statement>, OutOfMemory>
    ensures { IfOk result (λ read.
        read ≡ statements.statement tokens.now classes.now depth inside (part_seen part.entry)) }
{
    match statement(alloc, tokens, classes, depth, inside, part) {
        Ok(statement) => Ok(Some(statement)),
        Err(Unread::Nothing) => Ok(None),
        Err(Unread::OutOfMemory) => Err(OutOfMemory),
    }
}
