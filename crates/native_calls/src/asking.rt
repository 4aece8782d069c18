//! What a native function asks the world.
ghost use Rattle.std.specs.Prelude.{◌≡◌, ◌∷◌, [], ℕ, IfOk};
ghost use Rattle.mql_meaning.specs.Calls.{host_call, last_error, tells, values_of};
ghost use Rattle.mql_meaning.specs.Natives.{whole};
ghost use Rattle.native_arguments.specs.Arguments.{all_shown};
ghost use Rattle.native_calls.specs.Lent.{cells_in};
ghost use Rattle.native_calls.specs.Outcomes.{asked, judged};
ghost use Rattle.natives.specs.Names.{native_number};
ghost use Rattle.natives.specs.Signatures.{error_number};
ghost use Rattle.natives.specs.declared.signature.LastError.TheVariants as errors;
ghost use Rattle.stack_world.specs.Acts.{Acts};

use crate::fitting::fits;
use crate::lending::{has_dynamic, values_of, weights};
use crate::outcome::{Fitting, Outcome};
use fx8::{IntKind, ItemList, OutOfMemory};
use mql_mean::{HostCall, HostEnd, Value};
use mql_meaning::Store;
use native_arguments::Argument;
use natives::Native;
use stack_world::{Halt, World};
use std::alloc::Global;
use store_places::failed;

/// The number that the world is called with to set the last error.
const LAST_ERROR: u16 = 112;

/// The last error of an argument that is out of range (MQL5 Reference, Codes of Errors and Warnings).
const INVALID_PARAMETER: i128 = 4003;

/// A call is made: a reply that it may not give stops the run, an error ends it at the line in force.
#[tactic(auto, using(crate::proofs::Acting::reply_fits, crate::proofs::Acting::reply_unfit, crate::proofs::Acting::refused))]
pub(crate) fn judged<W: World>(
    alloc: Global,
    native: Option<Native>,
    call: &HostCall,
    arguments: &[Argument<'_>],
    store: &Store,
    world: &mut W,
) -> Result<Fitting, Halt>
    ensures { (n : ℕ) → Acts W.answers (judged native call.now (cells_in (all_shown arguments.now)))
        result n store.now store.now world.old world.new }
{
    match world.ask(call) {
        Ok(reply) => match fits(alloc, native, &reply, arguments) {
            Ok(Some(news)) => Ok(Fitting {
                value: reply.value,
                news,
            }),
            Ok(None) => Err(Halt::Stopped),
            Err(_) => Err(Halt::OutOfMemory),
        },
        Err(HostEnd::Error(kind)) => Err(Halt::End(failed(kind, store))),
        Err(HostEnd::OutOfMemory) => Err(Halt::OutOfMemory),
    }
}

/// The call of the world by a native function.
fn host_call(
    alloc: Global,
    native: Native,
    arguments: &[Argument<'_>],
) -> Result<HostCall, OutOfMemory>
    ensures { IfOk result (λ call. call ≡ host_call (native_number native)
        (values_of (all_shown arguments.now)) (cells_in (all_shown arguments.now))) }
{
    Ok(HostCall {
        id: u16::from(native.number()),
        args: values_of(alloc, arguments)?,
        dynamic: has_dynamic(arguments),
    })
}

/// A native function asks the world.
pub(crate) fn asked<W: World>(
    alloc: Global,
    native: Native,
    arguments: &[Argument<'_>],
    store: &Store,
    world: &mut W,
) -> Result<Outcome, Halt>
    ensures { (n : ℕ) → Acts W.answers (asked native (all_shown arguments.now)) result n store.now store.now
        world.old world.new }
{
    let counts = weights(alloc, arguments)?;
    let call = host_call(alloc, native, arguments)?;
    match judged(alloc, Some(native), &call, arguments, store, world) {
        Ok(reply) => Ok(Outcome {
            value: reply.value,
            news: reply.news,
            counts,
            out_of_range: false,
        }),
        Err(halt) => Err(halt),
    }
}

/// The call of the world that sets the last error.
#[tactic(auto, unfolding(natives::specs::Names::native_number, natives::specs::Signatures::error_number))]
fn last_error_call(alloc: Global) -> Result<HostCall, OutOfMemory>
    ensures { IfOk result (λ call. call
        ≡ host_call last_error (whole (error_number errors.InvalidParameter) ∷ []) []) }
{
    let mut args = ItemList::new(alloc);
    args.push(Value::Num(IntKind::Int, INVALID_PARAMETER))?;
    Ok(HostCall {
        id: LAST_ERROR,
        args,
        dynamic: false,
    })
}

/// A native function that met an argument out of range tells the world the last error.
pub(crate) fn tells<W: World>(
    alloc: Global,
    out_of_range: bool,
    store: &Store,
    world: &mut W,
) -> Result<(), Halt>
    ensures { (n : ℕ) → Acts W.answers (tells out_of_range) result n store.now store.now world.old world.new }
{
    if !out_of_range {
        return Ok(());
    }
    let call = last_error_call(alloc)?;
    match judged(alloc, None, &call, &[], store, world) {
        Ok(_) => Ok(()),
        Err(halt) => Err(halt),
    }
}
