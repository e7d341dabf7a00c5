// The rules that labels meet.
ghost use Rattle.std.specs.Prelude.{◌≡◌};
ghost use Rattle.labels.specs.Rules.{rule_number};

// A rule for labels; each holds or fails at a vertex.
#[derive(Clone, Copy, PartialEq, Eq, Debug)]
pub enum Rule {
    // In each row the positions are those below the number of vertices, each used once.
    Positions,
    // In each row each arc goes to a higher position.
    Arcs,
    // In each row `sure` is allowed.
    Sures,
    // In each row `far` is as high, or in backward rows as low, as the position and the neighbours make it.
    Fars,
    // The levels count the arcs of the longest paths.
    Levels,
    // Both ends of an arc have the same component.
    Components,
    // The bits of `from` and `to` say which supports reach the vertex and which it reaches.
    SupportBits,
}

// The number of a rule, from 1 to 7.
impl From<Rule> for u16 {
    ghost from_gives = { λ rule n. n ≡ rule_number rule };

    fn from(rule: Rule) -> u16 {
        match rule {
            Rule::Positions => 1,
            Rule::Arcs => 2,
            Rule::Sures => 3,
            Rule::Fars => 4,
            Rule::Levels => 5,
            Rule::Components => 6,
            Rule::SupportBits => 7,
        }
    }
}
