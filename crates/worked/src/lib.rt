//! The worked figures of the rules, as one theorem.
#![tactic(auto)]

ghost use Rattle.worked.specs.Worked.{WorkedFigures};

// The figures follow from the definitions that the library's contracts cite.
pub fn figures_follow_from_rules()
    ensures { WorkedFigures }
{}
