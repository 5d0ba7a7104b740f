// The laws of upgraded cells, as contracts of functions with empty bodies.
ghost use Rattle.law_link.specs.UpgradedCells.{UpgradedAreWhole, UpgradedCellsAreOld, UpgradedCostsArePlain};

use reception::laws::costs;
use soft_metric::laws::whole_weight_changes_nothing;

/// Upgraded cells are as many whole symbols as the old ones, with the same parts, and for a receiver they have the
/// costs of the old cells without weights.
pub fn upgraded_costs()
    ensures whole { UpgradedAreWhole }
    ensures cells { UpgradedCellsAreOld }
    ensures plain { UpgradedCostsArePlain }
{
    whole_weight_changes_nothing();
    costs();
}
