// The six tests on two labels that none of them decides, changed so that one of them does.
use crate::decision::{Decision, Verdict};
use crate::label::{Label, Labelled, Row};
use crate::rule::Rule;
use crate::six::judge_by_six;

// The label of the first vertex.
const S: Label = Label {
    rows: [Row {
        position: 1,
        sure: 1,
        far: 3,
    }; 4],
    up: 0,
    down: 1,
    component: 0,
    from: 0,
    to: 0,
};

// The label of the second vertex.
const T: Label = Label {
    rows: [Row {
        position: 2,
        sure: 2,
        far: 0,
    }; 4],
    up: 1,
    down: 0,
    component: 0,
    from: 0,
    to: 0,
};

fn said(at_s: Label, at_t: Label) -> Option<Decision> {
    judge_by_six(
        Labelled {
            vertex: 0,
            label: at_s,
        },
        Labelled {
            vertex: 1,
            label: at_t,
        },
    )
}

#[test]
fn all_pass(rt: HostRuntime) {
    assert_eq!(rt; said(S, T), None);
}

#[test]
fn a_vertex_reaches_itself(rt: HostRuntime) {
    assert_eq!(rt;
        judge_by_six(
            Labelled {
                vertex: 7,
                label: Label::default(),
            },
            Labelled {
                vertex: 7,
                label: Label::ZERO,
            },
        ),
        Some(Verdict::Yes.on(1))
    );
}

#[test]
fn ends_before_components(rt: HostRuntime) {
    assert_eq!(rt;
        said(
            Label {
                down: 0,
                component: 9,
                ..S
            },
            T,
        ),
        Some(Verdict::No.on(2))
    );
    assert_eq!(rt; said(S, Label { up: 0, ..T }), Some(Verdict::No.on(2)));
}

#[test]
fn components_before_levels(rt: HostRuntime) {
    assert_eq!(rt;
        said(
            Label {
                component: 9,
                up: 1,
                ..S
            },
            T,
        ),
        Some(Verdict::No.on(3))
    );
}

#[test]
fn levels_before_orders(rt: HostRuntime) {
    let rows = S.rows;
    assert_eq!(rt;
        said(Label { up: 1, ..S }, Label { rows, ..T }),
        Some(Verdict::No.on(4))
    );
    assert_eq!(rt; said(S, Label { down: 1, ..T }), Some(Verdict::No.on(4)));
}

#[test]
fn orders_in_forward_rows(rt: HostRuntime) {
    let lower = Row {
        position: 0,
        sure: 0,
        far: 0,
    };
    let surely = Row {
        position: 1,
        sure: 2,
        far: 3,
    };
    let farthest = Row {
        position: 1,
        sure: 1,
        far: 2,
    };
    let pass = S.rows[0];
    assert_eq!(rt;
        said(
            S,
            Label {
                rows: [lower, pass, pass, pass],
                ..T
            },
        ),
        Some(Verdict::No.on(5))
    );
    assert_eq!(rt;
        said(
            Label {
                rows: [surely, pass, pass, pass],
                ..S
            },
            T,
        ),
        Some(Verdict::Yes.on(5))
    );
    assert_eq!(rt;
        said(
            Label {
                rows: [pass, farthest, pass, pass],
                ..S
            },
            T,
        ),
        Some(Verdict::Yes.on(5))
    );
}

#[test]
fn orders_in_backward_rows(rt: HostRuntime) {
    let surely = Row {
        position: 2,
        sure: 1,
        far: 0,
    };
    let nearest = Row {
        position: 3,
        sure: 3,
        far: 2,
    };
    let pass = T.rows[0];
    assert_eq!(rt;
        said(
            S,
            Label {
                rows: [pass, pass, surely, pass],
                ..T
            },
        ),
        Some(Verdict::Yes.on(5))
    );
    assert_eq!(rt;
        said(
            S,
            Label {
                rows: [pass, pass, pass, nearest],
                ..T
            },
        ),
        Some(Verdict::No.on(5))
    );
}

#[test]
fn supports_come_last(rt: HostRuntime) {
    assert_eq!(rt;
        said(
            Label {
                from: 1,
                to: 6,
                ..S
            },
            Label { from: 4, ..T },
        ),
        Some(Verdict::Yes.on(6))
    );
    assert_eq!(rt;
        said(
            Label {
                from: 1,
                to: 6,
                ..S
            },
            T,
        ),
        Some(Verdict::No.on(6))
    );
    assert_eq!(rt; said(S, Label { to: 32768, ..T }), Some(Verdict::No.on(6)));
}

#[test]
fn rules_are_numbered(rt: HostRuntime) {
    assert_eq!(rt; u16::from(Rule::Positions), 1);
    assert_eq!(rt; u16::from(Rule::SupportBits), 7);
}
