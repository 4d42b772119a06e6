//! The two ends of each ring, brought together again.
ghost use Rattle.std.specs.Prelude.{◌≡◌, ◌+◌, ◌<◌, [], ◌∷◌, ◌++◌, length, map};
ghost use Rattle.std.specs.Prelude.{slice_index_or, vec_len, vec_capacity};
ghost use Rattle.block_rings.specs.declared.pair.PortPair.{PortPair as PairFields};
ghost use Rattle.block_rings.specs.Links.{links_of};
ghost use Rattle.block_rings.specs.Pairing.{IsReadyToPair, IsTakenOut, Pairs};

use crate::pair::PortPair;
use block_workers::Port;

/// The last port of a block and the port that it leads to become a pair. Takes no memory.
fn pair_last(lists: &mut Vec<Vec<Port>>, b: usize, pairs: &mut Vec<PortPair>)
    requires block { b < length lists.old.items }
    requires ready { IsReadyToPair (length lists.old.items) (b + 1)
        (map (λ l. l.items) lists.old.items)
        (length pairs.old.items) (vec_capacity pairs.old) }
    requires some { 0 < length (slice_index_or (map (λ l. l.items) lists.old.items) b []) }
    requires room { vec_len pairs.old < vec_capacity pairs.old }
    ensures one { (p : PairFields) × (pairs.new.items ≡ pairs.old.items ++ p ∷ [])
        × IsTakenOut (length lists.old.items) b (map (λ l. l.items) lists.old.items)
        (map (λ l. l.items) lists.new.items) p }
    ensures capacity { vec_capacity pairs.new ≡ vec_capacity pairs.old }
{
    let first = lists[b].pop().unwrap();
    let c = first.other() as usize;
    let second = lists[c].pop().unwrap();
    pairs.push_reserved(PortPair { first, second });
}

/// All ports of a block become pairs with those that they lead to. Takes no memory.
fn pair_row(lists: &mut Vec<Vec<Port>>, b: usize, pairs: &mut Vec<PortPair>)
    requires block { b < length lists.old.items }
    requires ready { IsReadyToPair (length lists.old.items) (b + 1)
        (map (λ l. l.items) lists.old.items)
        (length pairs.old.items) (vec_capacity pairs.old) }
    ensures len { length lists.new.items ≡ length lists.old.items }
    ensures ready { IsReadyToPair (length lists.old.items) b (map (λ l. l.items) lists.new.items)
        (length pairs.new.items) (vec_capacity pairs.new) }
    ensures paired { Pairs (length lists.old.items)
        (map (λ l. l.items) lists.old.items) (links_of pairs.old.items)
        (map (λ l. l.items) lists.new.items) (links_of pairs.new.items) }
{
    let count = lists[b].len();
    for _ in 0..count {
        pair_last(lists, b, pairs);
    }
}

/// All ports become pairs with those that they lead to, from the last block down. Takes no memory.
pub(crate) fn pair_all(lists: &mut Vec<Vec<Port>>, pairs: &mut Vec<PortPair>)
    requires { IsReadyToPair (length lists.old.items) (length lists.old.items)
        (map (λ l. l.items) lists.old.items) (length pairs.old.items) (vec_capacity pairs.old) }
    ensures ready { IsReadyToPair (length lists.old.items) 0 (map (λ l. l.items) lists.new.items)
        (length pairs.new.items) (vec_capacity pairs.new) }
    ensures paired { Pairs (length lists.old.items)
        (map (λ l. l.items) lists.old.items) (links_of pairs.old.items)
        (map (λ l. l.items) lists.new.items) (links_of pairs.new.items) }
{
    for b in (0..lists.len()).rev() {
        pair_row(lists, b, pairs);
    }
}
