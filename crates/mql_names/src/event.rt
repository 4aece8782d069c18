//! Event functions.
ghost use Rattle.std.specs.Prelude.{◌≡◌};
ghost use Rattle.mql_spelling.specs.Spelled.{spelled_among};
ghost use Rattle.mql_names.specs.Maps.{meaning};
ghost use Rattle.mql_names.specs.Events.{event_name, event_named, event_of, is_void, is_int, is_double, result_fits, is_reason, one_reason, params_fit, result_is, is_event, other_event, is_event_item, some_event};

use crate::types::{Meanings, Sort, type_sort};
use fx8::IntKind;
use mql_spelling::is_spelled;
use mql_syntax::{Function, Item, Param, TypeUse};
use natives::SimpleType;

/// A function that the tester calls (MQL5 Reference, Event Handling).
#[derive(Clone, Copy, Debug, PartialEq, Eq)]
pub enum Event {
    /// `int` or `void OnInit()`
    Init,
    /// `void OnTick()`
    Tick,
    /// `void OnTrade()`
    Trade,
    /// `double OnTester()`
    Tester,
    /// `void OnDeinit(const int reason)`
    Deinit,
}

impl Event {
    /// The name of the function.
    #[tactic(auto, unfolding(crate::specs::Events::event_name))]
    pub fn name(self) -> &'static [u8]
        ensures { result.now ≡ event_name self }
    {
        match self {
            Event::Init => b"OnInit".as_slice(),
            Event::Tick => b"OnTick".as_slice(),
            Event::Trade => b"OnTrade".as_slice(),
            Event::Tester => b"OnTester".as_slice(),
            Event::Deinit => b"OnDeinit".as_slice(),
        }
    }
}

/// All event functions.
pub const EVENTS: [Event; 5] = [
    Event::Init,
    Event::Tick,
    Event::Trade,
    Event::Tester,
    Event::Deinit,
];

fn event_among(events: &[Event], name: &[u16]) -> Option<Event>
    ensures { result ≡ spelled_among event_name events.now name.now }
{
    let mut rest = events;
    while let [event, others @ ..] = rest {
        if is_spelled(name, event.name()) {
            return Some(*event);
        }
        rest = others;
    }
    None
}

#[tactic(auto, unfolding(crate::specs::Events::event_named))]
fn event_named(name: &[u16]) -> Option<Event>
    ensures { result ≡ event_named name.now }
{
    event_among(&EVENTS, name)
}

/// The event function that a function is by its name.
#[tactic(auto, unfolding(crate::specs::Events::event_of))]
pub fn event_of(f: &Function) -> Option<Event>
    ensures { result ≡ event_of f.now }
{
    match &f.scope {
        None => event_named(f.name.as_slice()),
        Some(_) => None,
    }
}

fn is_void(sort: Sort) -> bool
    ensures { result ≡ is_void sort }
{
    match sort {
        Sort::Void => true,
        _ => false,
    }
}

fn is_int(sort: Sort) -> bool
    ensures { result ≡ is_int sort }
{
    match sort {
        Sort::Simple(SimpleType::Integer(IntKind::Int)) => true,
        _ => false,
    }
}

fn is_double(sort: Sort) -> bool
    ensures { result ≡ is_double sort }
{
    match sort {
        Sort::Simple(SimpleType::Double) => true,
        _ => false,
    }
}

fn result_fits(event: Event, sort: Sort) -> bool
    ensures { result ≡ result_fits event sort }
{
    match event {
        Event::Init => is_int(sort) || is_void(sort),
        Event::Tester => is_double(sort),
        Event::Tick | Event::Trade | Event::Deinit => is_void(sort),
    }
}

#[tactic(auto, unfolding(crate::specs::Events::is_reason))]
fn is_reason(names: &Meanings<'_>, param: &Param) -> bool
    ensures { result ≡ is_reason (meaning names.now) param.now }
{
    is_int(type_sort(names, &param.variable.of))
        && param.variable.dimensions.len() == 0
        && !param.reference
}

fn one_reason(names: &Meanings<'_>, params: &[Param]) -> bool
    ensures { result ≡ one_reason (meaning names.now) params.now }
{
    match params {
        [param] => is_reason(names, param),
        _ => false,
    }
}

fn params_fit(names: &Meanings<'_>, event: Event, params: &[Param]) -> bool
    ensures { result ≡ params_fit (meaning names.now) event params.now }
{
    match event {
        Event::Deinit => one_reason(names, params),
        Event::Init | Event::Tick | Event::Trade | Event::Tester => params.len() == 0,
    }
}

fn result_is(names: &Meanings<'_>, event: Event, of: &Option<TypeUse>) -> bool
    ensures { result ≡ result_is (meaning names.now) event of.now }
{
    match of {
        None => false,
        Some(one) => result_fits(event, type_sort(names, one)),
    }
}

#[tactic(auto, unfolding(crate::specs::Events::is_event))]
fn is_event(names: &Meanings<'_>, event: Event, f: &Function) -> bool
    ensures { result ≡ is_event (meaning names.now) event f.now }
{
    result_is(names, event, &f.result) && params_fit(names, event, f.params.as_slice())
}

/// Whether a function has the name of an event function, and other parameters or another result.
#[tactic(auto, unfolding(crate::specs::Events::other_event))]
pub(crate) fn other_event(names: &Meanings<'_>, f: &Function) -> bool
    ensures { result ≡ other_event (meaning names.now) f.now }
{
    match event_of(f) {
        None => false,
        Some(event) => !is_event(names, event, f),
    }
}

fn is_event_item(item: &Item) -> bool
    ensures { result ≡ is_event_item item.now }
{
    match item {
        Item::Function(f) => event_of(f).is_some(),
        _ => false,
    }
}

/// Whether one of the event functions is there.
pub(crate) fn some_event(items: &[Item]) -> bool
    ensures { result ≡ some_event items.now }
{
    let mut rest = items;
    while let [item, others @ ..] = rest {
        if is_event_item(item) {
            return true;
        }
        rest = others;
    }
    false
}
