// A graph of six vertices, and what is answered of it.
use crate::{Refusal, trace, under};
use graph::{Arc, ArcList, BitMatrix, GrowableDigraph, add_vertices};
use std::test::Fail;

// Adds six vertices and the arcs 0→2, 1→2, 1→3 and 2→4.
fn fill<G: GrowableDigraph>(graph: &mut G) -> Result<(), Fail> {
    add_vertices(graph, 6)?;
    for (tail, head) in [(0, 2), (1, 2), (1, 3), (2, 4)] {
        graph.add_arc(tail, head)?;
    }
    Ok(())
}

#[test]
fn answers(rt: HostRuntime) -> Result<(), Fail> {
    let mut table = [Arc { tail: 0, head: 0 }; 4];
    let mut graph = ArcList::new(&mut table);
    fill(&mut graph)?;
    let mut out = [9u16; 7];
    assert_eq!(rt; trace(&graph, 1, 4, &mut out), Ok(3));
    assert_eq!(rt; out, [1, 2, 4, 9, 9, 9, 9]);
    assert_eq!(rt; trace(&graph, 0, 3, &mut out), Ok(0));
    assert_eq!(rt; out, [1, 2, 4, 9, 9, 9, 9]);
    assert_eq!(rt; under(&graph, 1, &mut out), Ok(4));
    assert_eq!(rt; out, [1, 2, 3, 4, 9, 9, 9]);
    Ok(())
}

#[test]
fn refusals(rt: HostRuntime) -> Result<(), Fail> {
    let mut graph = BitMatrix::new();
    fill(&mut graph)?;
    let mut out = [9u16; 5];
    assert_eq!(rt; trace(&graph, 6, 4, &mut out), Err(Refusal::NoVertex));
    assert_eq!(rt; trace(&graph, 1, 6, &mut out), Err(Refusal::NoVertex));
    assert_eq!(rt; trace(&graph, 1, 4, &mut out), Err(Refusal::ShortSlice));
    assert_eq!(rt; under(&graph, 1, &mut out), Err(Refusal::ShortSlice));
    assert_eq!(rt; out, [9; 5]);
    Ok(())
}
