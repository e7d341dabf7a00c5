// The refusals and limits of the graph types.
use graph::{
    Arc, ArcList, BitMatrix, Digraph, GrowableDigraph, Refusal, Reversed, Successors, add_vertices,
};
use std::process::Abort;
use std::test::Fail;

const NO_ARC: Arc = Arc { tail: 0, head: 0 };

// Each reason to refuse an arc comes before the later ones, and a refused arc leaves no trace.
fn refuses_in_order<G: GrowableDigraph>(rt: &impl Abort, graph: &mut G) -> Result<(), Fail> {
    add_vertices(graph, 3)?;
    assert_eq!(rt; graph.add_arc(0, 3), Err(Refusal::NoVertex));
    assert_eq!(rt; graph.add_arc(3, 0), Err(Refusal::NoVertex));
    assert_eq!(rt; graph.add_arc(3, 3), Err(Refusal::NoVertex));
    assert_eq!(rt; graph.add_arc(1, 1), Err(Refusal::SameVertex));
    assert_eq!(rt; graph.next_successor(0, 0), None);
    assert_eq!(rt; graph.add_arc(0, 2), Ok(()));
    assert_eq!(rt; graph.add_arc(0, 2), Err(Refusal::ArcPresent));
    assert_eq!(rt; graph.next_successor(0, 0), Some(2));
    assert_eq!(rt; graph.next_successor(0, 3), None);
    assert_eq!(rt; graph.next_predecessor(2, 0), Some(0));
    assert_eq!(rt; graph.next_predecessor(2, 1), None);
    assert_eq!(rt; graph.vertex_count(), 3);
    Ok(())
}

// Adding up to the vertex limit and one more, singly and many at once.
fn stops_at_vertex_limit<G: GrowableDigraph>(rt: &impl Abort, graph: &mut G, limit: u16) {
    assert_eq!(rt; G::vertex_limit(), limit);
    let more = limit.saturating_add(1);
    assert_eq!(rt; add_vertices(graph, more), Err(Refusal::LimitReached));
    assert_eq!(rt; graph.vertex_count(), 0);
    assert_eq!(rt; add_vertices(graph, limit.saturating_sub(1)), Ok(()));
    assert_eq!(rt; add_vertices(graph, 2), Err(Refusal::LimitReached));
    assert_eq!(rt; graph.add_vertex(), Ok(limit.saturating_sub(1)));
    assert_eq!(rt; graph.add_vertex(), Err(Refusal::LimitReached));
    assert_eq!(rt; graph.vertex_count(), limit);
}

// Adds the arcs from u to each other vertex.
fn add_all_from<G: GrowableDigraph>(graph: &mut G, u: u16) -> Result<(), Fail> {
    for v in 0..graph.vertex_count() {
        if v != u {
            graph.add_arc(u, v)?;
        }
    }
    Ok(())
}

#[test]
fn arc_list_refuses_in_order(rt: HostRuntime) -> Result<(), Fail> {
    let mut table = [NO_ARC; 4];
    refuses_in_order(&rt, &mut ArcList::new(&mut table))
}

#[test]
fn bit_matrix_refuses_in_order(rt: HostRuntime) -> Result<(), Fail> {
    refuses_in_order(&rt, &mut BitMatrix::new())
}

#[test]
fn vertex_limits(rt: HostRuntime) {
    let mut table = [NO_ARC; 1];
    stops_at_vertex_limit(&rt, &mut ArcList::new(&mut table), 512);
    stops_at_vertex_limit(&rt, &mut BitMatrix::new(), 64);
}

#[test]
fn table_of_none(rt: HostRuntime) -> Result<(), Fail> {
    let mut table = [NO_ARC; 0];
    let mut list = ArcList::new(&mut table);
    add_vertices(&mut list, 2)?;
    assert_eq!(rt; list.add_arc(0, 1), Err(Refusal::LimitReached));
    assert_eq!(rt; list.next_successor(0, 0), None);
    Ok(())
}

#[test]
fn table_of_one(rt: HostRuntime) -> Result<(), Fail> {
    let mut table = [NO_ARC; 1];
    let mut list = ArcList::new(&mut table);
    add_vertices(&mut list, 2)?;
    assert_eq!(rt; list.add_arc(0, 1), Ok(()));
    assert_eq!(rt; list.add_arc(1, 2), Err(Refusal::NoVertex));
    assert_eq!(rt; list.add_arc(1, 1), Err(Refusal::SameVertex));
    assert_eq!(rt; list.add_arc(0, 1), Err(Refusal::ArcPresent));
    assert_eq!(rt; list.add_arc(1, 0), Err(Refusal::LimitReached));
    assert_eq!(rt; list.next_successor(1, 0), None);
    Ok(())
}

// Of a longer table 4,096 places are used: eight vertices with 511 arcs each, and eight arcs more.
#[test]
fn table_above_the_most(rt: HostRuntime) -> Result<(), Fail> {
    let mut table = [NO_ARC; 4100];
    let mut list = ArcList::new(&mut table);
    add_vertices(&mut list, 512)?;
    for u in 0..8 {
        add_all_from(&mut list, u)?;
    }
    for v in 0..8 {
        list.add_arc(8, v)?;
    }
    assert_eq!(rt; list.add_arc(8, 7), Err(Refusal::ArcPresent));
    assert_eq!(rt; list.add_arc(8, 9), Err(Refusal::LimitReached));
    assert_eq!(rt; list.next_successor(8, 8), None);
    Ok(())
}

// A matrix holds every arc of 64 vertices, and then each arc is there already.
#[test]
fn matrix_of_all_arcs(rt: HostRuntime) -> Result<(), Fail> {
    let mut matrix = BitMatrix::new();
    add_vertices(&mut matrix, 64)?;
    for u in 0..64 {
        add_all_from(&mut matrix, u)?;
    }
    assert_eq!(rt; matrix.add_arc(63, 62), Err(Refusal::ArcPresent));
    assert_eq!(rt; matrix.next_successor(63, 62), Some(62));
    assert_eq!(rt; matrix.next_successor(63, 63), None);
    assert_eq!(rt; matrix.next_predecessor(0, 0), Some(1));
    Ok(())
}

#[test]
fn reversed_reads_the_other_way(rt: HostRuntime) -> Result<(), Fail> {
    let mut table = [NO_ARC; 4];
    let mut list = ArcList::new(&mut table);
    add_vertices(&mut list, 3)?;
    list.add_arc(0, 2)?;
    list.add_arc(1, 2)?;
    let back = Reversed::new(&list);
    assert_eq!(rt; back.vertex_count(), 3);
    assert_eq!(rt; back.next_successor(2, 0), Some(0));
    assert_eq!(rt; back.next_successor(2, 1), Some(1));
    assert_eq!(rt; back.next_successor(0, 0), None);
    assert_eq!(rt; back.next_predecessor(1, 0), Some(2));
    let again = Reversed::new(&back);
    assert_eq!(rt; again.next_successor(1, 0), Some(2));
    Ok(())
}

// Ascending, whatever the order of adding; none of a vertex that is none; and read against the arcs, the predecessors.
#[test]
fn successors_in_turn(rt: HostRuntime) -> Result<(), Fail> {
    let mut table = [NO_ARC; 4];
    let mut list = ArcList::new(&mut table);
    add_vertices(&mut list, 4)?;
    list.add_arc(0, 3)?;
    list.add_arc(0, 1)?;
    list.add_arc(2, 1)?;
    let mut found = Successors::of(&list, 0);
    assert_eq!(rt; found.next(), Some(1));
    assert_eq!(rt; found.next(), Some(3));
    assert_eq!(rt; found.next(), None);
    assert_eq!(rt; Successors::of(&list, 4).next(), None);
    let back = Reversed::new(&list);
    let mut found = Successors::of(&back, 1);
    assert_eq!(rt; found.next(), Some(0));
    assert_eq!(rt; found.next(), Some(2));
    assert_eq!(rt; found.next(), None);
    Ok(())
}
