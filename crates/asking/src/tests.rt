// Questions that tests answer, and questions that open vertices.
use crate::{Answer, Oracle};
use graph::{BitMatrix, GrowableDigraph, add_vertices};
use labels::{Label, Row, SIX_TESTS, Same, Verdict};
use search::Refusal;
use std::test::Fail;

// The label of a vertex that stands at its own number in each row, in the one component, with no supports.
fn label(vertex: u16, highest: u16, lowest: u16, up: u16, down: u16) -> Label {
    let forward = Row {
        position: vertex,
        sure: vertex,
        far: highest,
    };
    let backward = Row {
        position: vertex,
        sure: vertex,
        far: lowest,
    };
    Label {
        rows: [forward, forward, backward, backward],
        up,
        down,
        component: 0,
        from: 0,
        to: 0,
    }
}

// The arcs 0→3, 1→2, 1→4 and 2→3.
fn five_vertices() -> Result<BitMatrix, Fail> {
    let mut graph = BitMatrix::new();
    add_vertices(&mut graph, 5)?;
    graph.add_arc(0, 3)?;
    graph.add_arc(1, 2)?;
    graph.add_arc(2, 3)?;
    graph.add_arc(1, 4)?;
    Ok(graph)
}

fn answer(verdict: Verdict, ground: u16, opened: u16) -> Result<Answer, Refusal> {
    Ok(Answer {
        verdict,
        ground,
        opened,
    })
}

// The tests pass on 1 and 3, and say yes of the first successor of 1.
#[test]
fn yes_at_a_successor(rt: HostRuntime) -> Result<(), Fail> {
    let graph = five_vertices()?;
    let labels = [
        label(0, 3, 0, 0, 1),
        label(1, 4, 1, 0, 2),
        label(2, 3, 1, 1, 1),
        label(3, 3, 0, 2, 0),
        label(4, 4, 1, 1, 0),
    ];
    let oracle = Oracle {
        graph: &graph,
        labels: &labels,
        test: &SIX_TESTS,
    };
    let mut opened = [9; 6];
    assert_eq!(rt; oracle.ask(1, 3, &mut opened), answer(Verdict::Yes, 0, 1));
    assert!(rt; opened == [1, 9, 9, 9, 9, 9]);
    assert_eq!(rt; oracle.ask(3, 1, &mut opened), answer(Verdict::No, 2, 0));
    assert!(rt; opened == [1, 9, 9, 9, 9, 9]);
    Ok(())
}

// The tests pass on 1 and 2, and say no of the only successor of 1, which is not put.
#[test]
fn no_after_one_vertex(rt: HostRuntime) -> Result<(), Fail> {
    let mut graph = BitMatrix::new();
    add_vertices(&mut graph, 4)?;
    graph.add_arc(0, 2)?;
    graph.add_arc(0, 3)?;
    graph.add_arc(1, 3)?;
    let labels = [
        label(0, 3, 0, 0, 1),
        label(1, 3, 1, 0, 1),
        label(2, 2, 0, 1, 0),
        label(3, 3, 0, 1, 0),
    ];
    let oracle = Oracle {
        graph: &graph,
        labels: &labels,
        test: &SIX_TESTS,
    };
    let mut opened = [9; 4];
    assert_eq!(rt; oracle.ask(1, 2, &mut opened), answer(Verdict::No, 0, 1));
    assert!(rt; opened == [1, 9, 9, 9]);
    Ok(())
}

// With no labels and no test of the caller's that decides, the vertex put last is opened first.
#[test]
fn opens_the_vertex_put_last(rt: HostRuntime) -> Result<(), Fail> {
    let graph = five_vertices()?;
    let oracle = Oracle {
        graph: &graph,
        labels: &[],
        test: &Same,
    };
    let mut opened = [9; 5];
    assert_eq!(rt; oracle.ask(1, 3, &mut opened), answer(Verdict::Yes, 0, 3));
    assert!(rt; opened == [1, 4, 2, 9, 9]);
    Ok(())
}

#[test]
fn a_vertex_reaches_itself(rt: HostRuntime) -> Result<(), Fail> {
    let graph = five_vertices()?;
    let oracle = Oracle {
        graph: &graph,
        labels: &[],
        test: &SIX_TESTS,
    };
    let mut opened = [9; 5];
    assert_eq!(rt; oracle.ask(2, 2, &mut opened), answer(Verdict::Yes, 1, 0));
    assert!(rt; opened == [9; 5]);
    Ok(())
}

// No vertex comes before a short slice.
#[test]
fn refusals(rt: HostRuntime) -> Result<(), Fail> {
    let graph = five_vertices()?;
    let oracle = Oracle {
        graph: &graph,
        labels: &[],
        test: &Same,
    };
    let mut opened = [9; 4];
    assert_eq!(rt; oracle.ask(5, 0, &mut opened), Err(Refusal::NoVertex));
    assert_eq!(rt; oracle.ask(0, 5, &mut opened), Err(Refusal::NoVertex));
    assert_eq!(rt; oracle.ask(0, 0, &mut opened), Err(Refusal::ShortSlice));
    assert!(rt; opened == [9; 4]);
    Ok(())
}
