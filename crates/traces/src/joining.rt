ghost use Rattle.traces.specs.Lists.{Gathers, prefixes};
ghost use Rattle.std.specs.List.{AllByRecursion};
ghost use Rattle.std.specs.Prelude.{◌≡◌};

use station::Summary;

// The join of a list of summaries, the empty one for none.
pub fn gather<S: Summary>(summaries: &[S]) -> S
    ensures { AllByRecursion S.Summary.joins.is_summary summaries.now → Gathers S.Summary.joins summaries.now result }
{
    let mut sum = S::empty();
    for next in summaries {
        sum = sum.join(*next);
    }
    sum
}

// Each summary becomes the join of all up to it, itself with them.
pub fn prefix<S: Summary>(summaries: &mut [S])
    ensures joins { AllByRecursion S.Summary.joins.is_summary summaries.old → summaries.new ≡ prefixes S.Summary.joins summaries.old }
    ensures counts { AllByRecursion S.Summary.joins.is_summary summaries.old → AllByRecursion S.Summary.joins.is_summary summaries.new }
{
    let mut front = S::empty();
    for place in summaries.iter_mut() {
        front = front.join(*place);
        *place = front;
    }
}
