//! Laws of passes.
ghost use Rattle.std.specs.Prelude.{List};
ghost use Rattle.mql_meaning.specs.declared.store.SetInput.{SetInput};
ghost use Rattle.mql_meaning.specs.declared.tree.Checked.{Checked};
ghost use Rattle.stack_code.specs.declared.code.Code.{Code};
ghost use Rattle.stack_follows.specs.Stands.{Stands};
ghost use Rattle.market_types.specs.declared.quote.Quote.{Quote};
ghost use Rattle.tester_pass.specs.declared.result.PassResult.{PassResult};
ghost use Rattle.tester_pass.specs.Laws.{IsFunction, OneOutcome};
ghost use Rattle.tester_world.specs.World.{TesterStep};
ghost use Rattle.tester_pass.specs.Pass.{of_code, of_source, Passes};

use mql_meaning::is_talk;
use stack_follows::code_follows;

/// A pass of a source, with given inputs over given quotes, comes to one result. What the tester answers to an
/// expert, and what it is then, is a function of what was asked. The call does nothing.
pub fn one_outcome()
    ensures outcome { OneOutcome }
    ensures world { IsFunction TesterStep }
{
    is_talk();
}

/// A pass of code that stands for a source is a pass of the source. The call does nothing.
pub fn code_passes_as_source()
    ensures { (p : Checked) (code : Code) → Stands p code → (set : List SetInput) (quotes : List Quote)
        (r : PassResult) → Passes (of_code code) set quotes r → Passes (of_source p) set quotes r }
{
    code_follows();
}
