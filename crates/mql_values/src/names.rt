//! What names and types mean where locals are in force.
ghost use Rattle.std.specs.Prelude.{◌≡◌};
ghost use Rattle.mql_names.specs.Maps.{meaning};
ghost use Rattle.mql_names.specs.Scopes.{is_among};
ghost use Rattle.mql_sizes.specs.Maps.{value_at};
ghost use Rattle.mql_sizes.specs.Members as members;
ghost use Rattle.mql_values.specs.Sources.{known_names};

use mql_constants::ConstantScope;
use mql_names::Meanings;
use mql_scope::Known;
use mql_sizes::{Values, global_number, simple_in};
use mql_syntax::TypeUse;
use natives::{ConstantValue, SimpleType};

/// Whether a name is among those of locals.
fn is_known(locals: &[Known], name: &[u16]) -> bool
    ensures { result ≡ is_among name.now (known_names locals.now) }
{
    let mut rest = locals;
    while let [local, others @ ..] = rest {
        if local.name.as_slice() == name {
            return true;
        }
        rest = others;
    }
    false
}

/// The names and types of a source where locals are in force.
#[derive(Drop)]
pub(crate) struct NamesHere<'a, 'n, 'v> {
    pub names: &'a Meanings<'n>,
    pub values: &'a Values<'v>,
    pub locals: &'a [Known],
}

impl ConstantScope for NamesHere<'_, '_, '_> {
    ghost numbers = { λ s x.
        members.number_in (meaning s.names.now) (value_at s.values.now) (known_names s.locals.now) x };

    ghost types = { λ s t. members.simple_in (meaning s.names.now) t };

    #[tactic(auto, unfolding(mql_sizes::specs::Members::number_in))]
    fn number(&self, name: &[u16]) -> Option<ConstantValue> {
        let number = global_number(self.names, self.values, name)?;
        if is_known(self.locals, name) {
            None
        } else {
            Some(number)
        }
    }

    fn simple_type(&self, of: &TypeUse) -> Option<SimpleType> {
        simple_in(self.names, of)
    }
}
