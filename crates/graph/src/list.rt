// A graph as a table of arcs that the caller lends. No invariant is kept: the fields mean a graph whatever they hold.
ghost use Rattle.std.specs.Prelude.{◌≡◌, ◌+◌, ◌<◌, ◌≤◌, ◌++◌, map, take, drop, min, length, nat_le, slice_set};
ghost use Rattle.std.proofs.Common.{lit≤};
ghost use Rattle.graph.specs.Model.{Empty, NextSuccessor};
ghost use Rattle.graph.specs.Facts.{list_proper, list_bounded};
ghost use Rattle.graph.specs.ListModel.{list_model, list_arc_limit, places, taken as places_taken, list_order, entries};
ghost use Rattle.graph.specs.Table.{has, head_from, swept, turned, along};

use crate::{Digraph, GrowableDigraph, Refusal};

// Which way arcs are read. (One enum of two cases, read at one place; a closure for it would be written out at both calls.)
#[derive(Clone, Copy)]
enum Direction {
    Forward,
    Backward,
}

#[derive(Clone, Copy, PartialEq, Eq, Debug)]
pub struct Arc {
    pub tail: u16,
    pub head: u16,
}

impl Arc {
    // The arc as it is read that way.
    fn turned(self, direction: Direction) -> Arc
        ensures { result ≡ turned direction self }
    {
        match direction {
            Direction::Forward => self,
            Direction::Backward => Arc {
                tail: self.head,
                head: self.tail,
            },
        }
    }

    // The head of an arc from u to another vertex.
    fn head_from(self, u: u16) -> Option<u16>
        ensures { result ≡ head_from u self }
    {
        if self.tail == u && self.head != u {
            Some(self.head)
        } else {
            None
        }
    }
}

// Blots out each of the first `taken` entries that names the vertex n: what stands there draws no arc.
fn blot_out(table: &mut [Arc], taken: usize, n: u16)
    requires { taken ≤ length table.old }
    ensures { table.new ≡ map (swept n) (take taken table.old) ++ drop taken table.old }
{
    for arc in &mut table[..taken] {
        if arc.tail == n || arc.head == n {
            *arc = Arc { tail: 0, head: 0 };
        }
    }
}

// The table and its length stand side by side, since it is the caller's: a vector would own its places.
#[derive(Drop)]
pub struct ArcList<'a> {
    // The arcs are the first `used` entries.
    table: &'a mut [Arc],
    used: u16,
    // The number of vertices.
    count: u16,
}

// The most places of a table that are used.
const MOST_ARCS: usize = 4096;

impl<'a> ArcList<'a> {
    // A graph with no vertex, whose arc limit is the table's length, or 4096 if that is less.
    pub fn new(table: &'a mut [Arc]) -> ArcList<'a>
        ensures empty { Empty (list_model result) }
        ensures limit { list_arc_limit result ≡ min (length table.old) 4096 }
    {
        ArcList {
            table,
            used: 0,
            count: 0,
        }
    }

    // The number of places that may hold an arc.
    fn places(&self) -> usize
        ensures { result ≡ places self.now }
    {
        self.table.len().min(MOST_ARCS)
    }

    // The number of places that are taken.
    fn taken(&self) -> usize
        ensures { result ≡ places_taken self.now }
    {
        (self.used as usize).min(self.places())
    }

    // The arcs of the places that are taken.
    fn entries(&self) -> &[Arc]
        ensures { result.now ≡ entries self.now }
    {
        &self.table[..self.taken()]
    }

    fn is_full(&self) -> bool
        ensures { result ≡ nat_le (places self.now) (places_taken self.now) }
    {
        self.taken() >= self.places()
    }

    // Puts the arc into the first place that is free.
    fn push(&mut self, arc: Arc)
        requires { places_taken self.old < places self.old }
        ensures table { self.new.table.now ≡ slice_set self.old.table.now (places_taken self.old) arc }
        ensures used { self.new.used ≡ places_taken self.old + 1 }
        ensures count { self.new.count ≡ self.old.count }
    {
        let taken = self.taken();
        self.table[taken] = arc;
        self.used = taken as u16 + 1;
    }

    fn order(&self) -> u16
        ensures { result ≡ list_order self.now }
    {
        self.count.min(Self::LIMIT)
    }

    // Whether an entry is u→v.
    fn has_entry(&self, u: u16, v: u16) -> bool
        ensures { result ≡ has (entries self.now) u v }
    {
        let arc = Arc { tail: u, head: v };
        self.entries().iter().any(|entry| *entry == arc)
    }

    // The lowest v, not below `from`, with an arc u→v, where arcs are read that way.
    fn next(&self, direction: Direction, u: u16, from: u16) -> Option<u16>
        ensures { NextSuccessor (along direction (list_model self.now)) u from result }
    {
        let n = self.order();
        if u >= n {
            return None;
        }
        // n is no vertex, and stands for none, in an entry and so far: what is found is then compared as a number, and no entry takes a branch
        let mut best = n;
        for arc in self.entries() {
            let v = arc.turned(direction).head_from(u).unwrap_or(n);
            let v = if from <= v { v } else { n };
            best = best.min(v);
        }
        if best < n { Some(best) } else { None }
    }
}

impl<'a> Digraph for ArcList<'a> {
    const LIMIT: u16 = 512;

    ghost most = { 512 };

    ghost model = { list_model };

    ghost modest = { lit≤ tt };

    ghost bounded = { list_bounded };

    ghost proper = { list_proper };

    fn vertex_limit() -> u16
        ensures { result ≡ 512 }
    {
        Self::LIMIT
    }

    fn vertex_count(&self) -> u16 {
        self.order()
    }

    fn next_successor(&self, u: u16, from: u16) -> Option<u16> {
        self.next(Direction::Forward, u, from)
    }

    fn next_predecessor(&self, v: u16, from: u16) -> Option<u16> {
        self.next(Direction::Backward, v, from)
    }
}

impl<'a> GrowableDigraph for ArcList<'a> {
    ghost arc_limit = { list_arc_limit };

    // An entry that names the vertex to come drew no arc, and must draw none now, so it is blotted out. Lists that `new` and these calls
    // make have no such entry.
    fn add_vertex(&mut self) -> Result<u16, Refusal> {
        let n = self.order();
        if n >= Self::LIMIT {
            return Err(Refusal::LimitReached);
        }
        let taken = self.taken();
        blot_out(self.table, taken, n);
        self.count = n + 1;
        Ok(n)
    }

    fn add_arc(&mut self, u: u16, v: u16) -> Result<(), Refusal> {
        let n = self.order();
        if u >= n || v >= n {
            return Err(Refusal::NoVertex);
        }
        if u == v {
            return Err(Refusal::SameVertex);
        }
        if self.has_entry(u, v) {
            return Err(Refusal::ArcPresent);
        }
        if self.is_full() {
            return Err(Refusal::LimitReached);
        }
        self.push(Arc { tail: u, head: v });
        Ok(())
    }
}
