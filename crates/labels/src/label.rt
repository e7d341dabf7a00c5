// What is written down for each vertex.
ghost use Rattle.std.specs.Prelude.{◌≡◌};
ghost use Rattle.labels.specs.Labels.{zero_label};

// The place of a vertex in one order of all vertices, in which each arc goes up, and what the order tells of reaching.
#[derive(Clone, Copy, PartialEq, Eq, Debug)]
pub struct Row {
    // The place in the order: from 0 up to just below the number of vertices, and no two vertices have the same.
    pub position: u16,
    // Our own term. In a forward row: a position so that the vertex reaches every vertex placed from its own position up to it.
    // In a backward row: a position so that every vertex placed from it up to the own position reaches the vertex.
    pub sure: u16,
    // Our own term. In a forward row: the highest position among the vertices that the vertex reaches, itself included.
    // In a backward row: the lowest position among the vertices that reach the vertex, itself included.
    pub far: u16,
}

// What one vertex's label says. Only labels that meet the rules can be relied on.
#[derive(Clone, Copy, PartialEq, Eq, Debug)]
pub struct Label {
    // Rows 0 and 1 are forward, rows 2 and 3 backward.
    pub rows: [Row; 4],
    // The number of arcs of the longest path that ends at the vertex.
    pub up: u16,
    // The number of arcs of the longest path that starts at the vertex.
    pub down: u16,
    // A number that all vertices of a weakly connected component share.
    pub component: u16,
    // Bit i is set where support i reaches the vertex.
    pub from: u16,
    // Bit i is set where the vertex reaches support i.
    pub to: u16,
}

// A vertex with its label.
#[derive(Clone, Copy, PartialEq, Eq, Debug)]
pub struct Labelled {
    pub vertex: u16,
    pub label: Label,
}

impl Label {
    // The label of zeros, as a constant too, for tables of labels.
    pub const ZERO: Label = Label {
        rows: [Row {
            position: 0,
            sure: 0,
            far: 0,
        }; 4],
        up: 0,
        down: 0,
        component: 0,
        from: 0,
        to: 0,
    };
}

impl Default for Label {
    ghost is_default = { λ label. label ≡ zero_label };

    fn default() -> Label {
        Label::ZERO
    }
}
