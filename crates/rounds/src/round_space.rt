//! Room for the blocks that come back from a round.
ghost use Rattle.std.specs.Prelude.{◌≡◌, ◌*◌, ◌≤◌, ℕ, IfOk, length, vec_capacity, vec_len};
ghost use Rattle.block_net.specs.Limits.{block_limit};
ghost use Rattle.block_rings.specs.Mated.{AreMated, room_to, messages_sent, messages_taken};
ghost use Rattle.block_rings.specs.Links.{ring_room, sent_in, taken_in};
ghost use Rattle.rounds.specs.Seated.{blocks_of, ends_of_seats, ports_of};

use crate::seats::apart;
use block_net::Cells;
use block_rings::{Deck, Piles, PortPair, Rings};
use block_workers::Port;
use std::alloc::{AllocError, Global};

/// Room for blocks that come back from workers, and for the rings between them.
#[derive(Drop)]
pub(crate) struct Space {
    pub(crate) count: usize,
    blocks: Vec<Cells>,
    lists: Vec<Vec<Port>>,
    pairs: Vec<PortPair>,
    piles: Piles,
    ghost no_block: { vec_len blocks ≡ 0 },
    ghost no_list: { vec_len lists ≡ 0 },
    ghost no_pair: { vec_len pairs ≡ 0 },
    ghost for_blocks: { count ≤ vec_capacity blocks },
    ghost for_lists: { count ≤ vec_capacity lists },
    ghost for_pairs: { count * count ≤ 2 * vec_capacity pairs },
}

/// Blocks that came back from their workers, the rings between them, and lists for the next round.
#[derive(Drop)]
pub(crate) struct Came {
    pub(crate) blocks: Vec<Cells>,
    pub(crate) rings: Rings,
    pub(crate) piles: Piles,
    pub(crate) deck: Deck,
}

impl Space {
    /// Room for so many blocks, each joined with each other, by lists that served. Pairs that are
    /// left are lost. The only error is that memory runs out.
    pub(crate) fn new(
        alloc: Global,
        count: usize,
        pairs: Vec<PortPair>,
        piles: Piles,
    ) -> Result<Space, AllocError>
        requires { count ≤ block_limit }
        ensures { IfOk result (λ space. space.count ≡ count) }
    {
        let (mut pairs, mut piles) = (pairs, piles);
        piles.reserve(count)?;
        pairs.clear();
        pairs.reserve(count * count / 2 + 1)?;
        Ok(Space {
            count,
            blocks: Vec::with_capacity(alloc, count)?,
            lists: Vec::with_capacity(alloc, count)?,
            pairs,
            piles,
        })
    }
}

/// The blocks of seats that came back, and the rings between them. Takes no memory.
pub(crate) fn gather_seats(deck: Deck, space: Space) -> Came
    requires count { vec_len deck.seats ≡ space.count }
    requires mated { AreMated (length deck.seats.items)
        (ports_of (ends_of_seats deck.seats.items)) }
    ensures blocks { result.blocks.items ≡ blocks_of deck.seats.items }
    ensures count { result.rings.blocks ≡ length deck.seats.items }
    ensures sent { (b c : ℕ) → sent_in result.rings b c
        ≡ messages_sent (ports_of (ends_of_seats deck.seats.items)) b c }
    ensures taken { (b c : ℕ) → taken_in result.rings b c
        ≡ messages_taken (ports_of (ends_of_seats deck.seats.items)) b c }
    ensures room { (b c : ℕ) → ring_room result.rings b c
        ≡ room_to (ports_of (ends_of_seats deck.seats.items)) b c }
{
    let Space {
        count: _,
        mut blocks,
        mut lists,
        pairs,
        mut piles,
    } = space;
    let mut deck = deck;
    apart(&mut deck.seats, &mut blocks, &mut lists, &mut piles);
    Came {
        blocks,
        rings: Rings::pair(lists, pairs, &mut piles.ports),
        piles,
        deck,
    }
}
