ghost use Rattle.std.specs.Prelude.{take, IfOk};
ghost use Rattle.counts.specs.Counts.{count_joins, count_rules};
ghost use Rattle.reports.specs.Balance.{nothing_seen, Balances};
ghost use Rattle.run.specs.Calls.{AskState, StateIs, answer_by};
ghost use Rattle.run.specs.Serving.{Serves, Tells};

use counts::{CountState, CountSummary};
use run::Run;
use station::Refusal;

// The state behind the first entries of a run of frame counts, so many of them, from no frame seen. Where they hold a
// frame and none was late, the figures balance.
pub fn count_report(run: &Run<'_, CountSummary>, entries: usize) -> Result<CountState, Refusal>
    ensures serves { Serves count_joins count_rules (AskState entries nothing_seen) run.now run.now (answer_by StateIs result) }
    ensures balance { Tells count_joins count_rules run.now (λ t. IfOk result (λ end. Balances (take entries t.entries) end)) }
{
    run.state(entries, CountState::default())
}
