// Laws of the costs, each the contract of a function that does nothing.
ghost use Rattle.soft_metric.specs.Costs.{ExactPointsCostNothing, NearPointsFavourTheirBits};
ghost use Rattle.soft_metric.specs.Weights.{NoWeightLeavesNothing, WeightsTellApart, WholeWeightChangesNothing};

/// Where a cell is within the tolerance of a label's point on both axes, each bit of the label
/// costs less than the other bit at its place, by 15 at least.
pub fn near_points_favour_their_bits()
    ensures { NearPointsFavourTheirBits }
{}

/// At the very point of a label each of its bits costs 0, and the other bit at least 1.
pub fn exact_points_cost_nothing()
    ensures { ExactPointsCostNothing }
{}

/// Costs that differ by 15 at least still differ at each weight but 0.
pub fn weights_tell_apart()
    ensures { WeightsTellApart }
{}

/// The whole weight, 15, changes no cost.
pub fn whole_weight_changes_nothing()
    ensures { WholeWeightChangesNothing }
{}

/// The weight 0 leaves no cost.
pub fn no_weight_leaves_nothing()
    ensures { NoWeightLeavesNothing }
{}
