//! The machine.
ghost use Rattle.std.specs.Prelude.{◌≡◌, IfOk};
ghost use Rattle.mql_meaning.specs.Frames.{opening};
ghost use Rattle.stack_code.specs.Paced.{Paced};
ghost use Rattle.stack_machine.specs.Steps.{Ends};

use crate::ends::{End, Fault};
use crate::events::begin_event;
use crate::native_functions::NativeFunctions;
use crate::run::run;
use crate::state::State;
use fx8::{ItemList, OutOfMemory, Stack};
use mql_meaning::{Entry, SetInput, Store};
use stack_code::Code;
use std::alloc::Global;
use std::marker::Model;

/// A machine, seen by contracts as its store.
#[derive(Drop)]
pub struct Machine {
    alloc: Global,
    state: State,
}

impl Model for Machine {
    ghost use Rattle.mql_meaning.specs.declared.store.Store.{Store};
    ghost use Rattle.mql_meaning.specs.contracts.store.Store as store;

    ghost Value = { Store };

    ghost coded = { store.the_row.coded };

    ghost view = { λ m. m.state.store };
}

impl Machine {
    /// A machine whose store is the one with which a program begins whose inputs were set to these values.
    pub fn new(alloc: Global, set: ItemList<SetInput>) -> Machine
        ensures { result ≡ opening set }
    {
        Machine {
            alloc,
            state: State {
                operands: Stack::new(alloc),
                backs: Stack::new(alloc),
                store: Store {
                    frames: ItemList::new(alloc),
                    globals: ItemList::new(alloc),
                    heap: ItemList::new(alloc),
                    last: 0,
                    cells: 0,
                    inputs: set,
                },
                function: 0,
                place: 0,
            },
        }
    }

    /// Runs the function of an event with an argument, for at most so many steps, over a world. It goes on
    /// from the store as it stands; where there was no memory nothing is said of it.
    pub fn call<W: NativeFunctions>(
        &mut self,
        code: &Code,
        entry: Entry,
        arg: i32,
        steps: &mut u64,
        world: &mut W,
    ) -> Result<End, OutOfMemory>
        requires { Paced code.now }
        ensures { IfOk result (λ e. Ends W.answers code.now entry arg self.old steps.old world.old world.new
            e self.new steps.new) }
    {
        match begin_event(self.alloc, code, entry, arg, &mut self.state) {
            Ok(()) => run(self.alloc, code, &mut self.state, steps, world),
            Err(Fault::End(end)) => Ok(end),
            Err(Fault::OutOfMemory) => Err(OutOfMemory),
        }
    }
}
