// A binary heap, the greatest key first, as functions over a lent slice whose first `len` places hold the heap, for every key type with an `Ord`.
// No struct holds the slice and `len`: the slice is the caller's between calls, and functions over a lent slice are the rule for this heap.
#![tactic(auto)]

ghost use Rattle.std.specs.Prelude.{◌≡◌, ◌+◌, ◌*◌, ◌<◌, ◌≤◌, length, IfSome, IfNone, Some, OnSome, OnOk, OnErr, slice_index_or, codes};
ghost use Rattle.std.specs.Ordering.{is_lt};
ghost use Rattle.heap.specs.Heaps.{Heaped, HeapedPast, GreatestChild, Rearranged, Pushed, Popped, NoHeap};

use std::error::Error;
use std::fmt;

// Every place of the slice holds a key already. A type of this crate's own, which stands on no other, though `answers` has one like it.
#[derive(Clone, Copy, PartialEq, Eq, Debug)]
pub struct NoRoom;

impl fmt::Display for NoRoom {
    ghost output = { λ _. Some (codes "the slice has no free place") };

    fn fmt<W: fmt::Write>(&self, f: &mut fmt::Formatter<W>) -> fmt::Result {
        f.write_str("the slice has no free place")
    }
}

impl Error for NoRoom {}

// Whether the key at i is less than the one at j.
fn is_less<K: Ord + Copy>(heap: &[K], i: usize, j: usize) -> bool
    requires first { i < length heap.now }
    requires second { j < length heap.now }
    ensures { (d : K) → result ≡ is_lt (K.cmp (slice_index_or heap.now i d) (slice_index_or heap.now j d)) }
{
    // By `cmp`, of which the clause speaks: `<` asks `partial_cmp`, which is slower where keys are arrays.
    heap[i].cmp(&heap[j]).is_lt()
}

// Moves the key at `last` up past the lesser keys above it.
fn sift_up<K: Ord + Copy>(heap: &mut [K], last: usize)
    requires { last < length heap.old }
    ensures rearranged { Rearranged heap.old heap.new (last + 1) }
    ensures heaped { Heaped K.cmp heap.old last → Heaped K.cmp heap.new (last + 1) }
{
    let mut child = last;
    // From child to parent, and not a count, so no `for`.
    while child > 0 {
        let parent = (child - 1) / 2;
        if !is_less(heap, parent, child) {
            return;
        }
        heap.swap(parent, child);
        child = parent;
    }
}

// Puts a key into the heap of `len` keys.
pub fn push<K: Ord + Copy>(heap: &mut [K], len: usize, key: K) -> Result<(), NoRoom>
    ensures pushed { OnOk result (Pushed K.cmp heap.old heap.new len key) }
    ensures room { OnOk result (len < length heap.old) }
    ensures full { OnErr result (length heap.old ≤ len) }
    ensures unchanged { OnErr result (heap.new ≡ heap.old) }
{
    if len >= heap.len() {
        return Err(NoRoom);
    }
    heap[len] = key;
    sift_up(heap, len);
    Ok(())
}

// The child of `parent` with the greater key, among the first `end` places.
fn greater_child<K: Ord + Copy>(heap: &[K], parent: usize, end: usize) -> usize
    requires has_child { parent * 2 + 1 < end }
    requires within { end ≤ length heap.now }
    ensures child { (parent * 2 + 1 ≤ result) × (result ≤ parent * 2 + 2) }
    ensures within { result < end }
    ensures greatest { GreatestChild K.cmp heap.now parent result end }
{
    let left = parent * 2 + 1;
    let right = left + 1;
    if right < end && is_less(heap, left, right) {
        right
    } else {
        left
    }
}

// Moves the first key down past the greater of its children, among the first `end` places.
fn sift_down<K: Ord + Copy>(heap: &mut [K], end: usize)
    requires { end ≤ length heap.old }
    ensures rearranged { Rearranged heap.old heap.new end }
    ensures heaped { HeapedPast K.cmp heap.old end → Heaped K.cmp heap.new end }
{
    let mut parent = 0;
    // From parent to child, and not a count, so no `for`.
    while parent < end / 2 {
        let child = greater_child(heap, parent, end);
        if !is_less(heap, parent, child) {
            return;
        }
        heap.swap(parent, child);
        parent = child;
    }
}

// Takes the greatest key out of the heap of `len` keys; none where it is empty, or where the slice has no heap of so many.
pub fn pop<K: Ord + Copy>(heap: &mut [K], len: usize) -> Option<K>
    ensures popped { IfSome result (λ key. Popped K.cmp heap.old heap.new len key) }
    ensures not_empty { OnSome result (0 < len) }
    ensures within { OnSome result (len ≤ length heap.old) }
    ensures none { IfNone result (NoHeap (length heap.old) len) }
    ensures unchanged { IfNone result (heap.new ≡ heap.old) }
{
    if len == 0 || len > heap.len() {
        return None;
    }
    let top = heap[0];
    let last = len - 1;
    heap.swap(0, last);
    sift_down(heap, last);
    Some(top)
}

#[cfg(test)]
mod tests {
    use super::*;
    use std::cmp::Reverse;
    use std::test::Fail;

    // The greatest key comes out first, and the place past the heap stays as it was.
    #[test]
    fn greatest_first(rt: HostRuntime) -> Result<(), Fail> {
        let mut heap = [0u16; 5];
        heap[4] = 99;
        push(&mut heap, 0, 5)?;
        push(&mut heap, 1, 9)?;
        push(&mut heap, 2, 1)?;
        push(&mut heap, 3, 7)?;
        assert_eq!(rt; heap[4], 99);
        assert_eq!(rt; pop(&mut heap, 4), Some(9));
        assert_eq!(rt; pop(&mut heap, 3), Some(7));
        assert_eq!(rt; pop(&mut heap, 2), Some(5));
        assert_eq!(rt; pop(&mut heap, 1), Some(1));
        assert_eq!(rt; pop(&mut heap, 0), None);
        Ok(())
    }

    // Of two pairs with one weight the one with the lower number comes first.
    #[test]
    fn lower_number_first(rt: HostRuntime) -> Result<(), Fail> {
        let mut heap = [(0u16, Reverse(0u16)); 4];
        push(&mut heap, 0, (3, Reverse(7)))?;
        push(&mut heap, 1, (5, Reverse(9)))?;
        push(&mut heap, 2, (5, Reverse(2)))?;
        push(&mut heap, 3, (4, Reverse(1)))?;
        assert_eq!(rt; pop(&mut heap, 4), Some((5, Reverse(2))));
        assert_eq!(rt; pop(&mut heap, 3), Some((5, Reverse(9))));
        assert_eq!(rt; pop(&mut heap, 2), Some((4, Reverse(1))));
        assert_eq!(rt; pop(&mut heap, 1), Some((3, Reverse(7))));
        assert_eq!(rt; pop(&mut heap, 0), None);
        Ok(())
    }

    // The derived order reads the fields from the first to the last.
    #[derive(Clone, Copy, PartialEq, Eq, PartialOrd, Ord, Debug)]
    struct Candidate {
        weight: u32,
        arcs: u16,
        vertex: Reverse<u16>,
    }

    impl Candidate {
        fn new(weight: u32, arcs: u16, vertex: u16) -> Candidate {
            Candidate {
                weight,
                arcs,
                vertex: Reverse(vertex),
            }
        }
    }

    #[test]
    fn first_field_first(rt: HostRuntime) -> Result<(), Fail> {
        let mut heap = [Candidate::new(0, 0, 0); 4];
        push(&mut heap, 0, Candidate::new(70000, 1, 3))?;
        push(&mut heap, 1, Candidate::new(8, 900, 0))?;
        push(&mut heap, 2, Candidate::new(70000, 2, 5))?;
        push(&mut heap, 3, Candidate::new(70000, 2, 4))?;
        assert_eq!(rt; pop(&mut heap, 4), Some(Candidate::new(70000, 2, 4)));
        assert_eq!(rt; pop(&mut heap, 3), Some(Candidate::new(70000, 2, 5)));
        assert_eq!(rt; pop(&mut heap, 2), Some(Candidate::new(70000, 1, 3)));
        assert_eq!(rt; pop(&mut heap, 1), Some(Candidate::new(8, 900, 0)));
        Ok(())
    }

    #[test]
    fn no_room(rt: HostRuntime) {
        let mut heap = [3u16; 1];
        assert_eq!(rt; push(&mut heap, 1, 5), Err(NoRoom));
        assert_eq!(rt; pop(&mut heap, 2), None);
        assert_eq!(rt; heap[0], 3);
    }
}
