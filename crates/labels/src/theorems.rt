// Theorems on the rules and the six tests: each function answers nothing, and its contract is the theorem.
ghost use Rattle.labels.specs.Example.{ExampleMeetsRules, ExampleAnswers};
ghost use Rattle.labels.specs.Theorems.{RulesCompute, CycleBreaksRules, RivalsDecideNoMore};

// The rules can be computed: a test for each rule is true exactly where the rule holds.
pub fn rules_compute()
    ensures { RulesCompute }
{}

// Where the arcs hold a cycle, no labels meet the rules.
pub fn cycle_breaks_rules()
    ensures { CycleBreaksRules }
{}

// Labels with `sure` as far as it may go and the lowest vertex for the component decide whatever other labels
// with the same positions and supports decide, and alike.
pub fn rivals_decide_no_more()
    ensures { RivalsDecideNoMore }
{}

// The rules can be met: a graph of six vertices has labels that do, and the six tests decide questions on them.
pub fn example_meets_rules()
    ensures met { ExampleMeetsRules }
    ensures answers { ExampleAnswers }
{}
