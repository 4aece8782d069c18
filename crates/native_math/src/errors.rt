//! The errors of a run that faults of arithmetic are.
ghost use Rattle.std.specs.Prelude.{◌≡◌, Err};
ghost use Rattle.mql_meaning.specs.Changes.{fail};
ghost use Rattle.mql_meaning.specs.Operators.{no_fault};
ghost use Rattle.mql_meaning.specs.declared.store.Store.{Store};

use fx8::FixFault;
use mql_mean::ErrorKind;

/// The error that ends the run at a fault of arithmetic.
pub fn error_of(fault: FixFault) -> ErrorKind
    ensures { (store : Store) → no_fault (Err fault) store ≡ fail result store }
{
    match fault {
        FixFault::Overflow => ErrorKind::FixedOverflow,
        FixFault::ZeroDivide => ErrorKind::ZeroDivide,
    }
}
