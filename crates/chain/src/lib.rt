// The addresses on the chain, read into a lent buffer: what the `keys` line shows. Rests on the place table's walk and on the words.
#![tactic(auto)]

ghost use Rattle.std.specs.Prelude.{◌≡◌, ltb, eqb, Ok};
ghost use Rattle.record.specs.Record.{tail_node};
ghost use Rattle.table.specs.Words.{Memory, addresses≔};
ghost use Rattle.table.specs.Chain.{ahead_of};
ghost use Rattle.words.specs.LentMemory.{lent_memory};
ghost use Rattle.chain.specs.Walking.{memory_with, ahead_in, ahead_from};
ghost use Rattle.chain.specs.Keys.{buffer_left, read_keys, keys_of};

use record::{Address, HEAD, Node, Refusal, TAIL};
use words::Sizes;

// What the walk along the chain meets after a node: a node to go on to, with its address, or why it stops.
#[derive(Clone, Copy, Debug, PartialEq, Eq)]
pub enum Ahead {
    Next(Node, Address),
    Tail,
    NotInUse,
    NotAbove,
}

// What a walk along the chain looks at: lent addresses and links, and the stated sizes.
#[derive(Clone, Copy)]
pub struct Chain<'a> {
    pub addresses: &'a [u32],
    pub links: &'a [u32],
    pub sizes: Sizes,
}

impl Chain<'_> {
    // The step of the walk: what it meets after a node. Where the target sorts is looked at only where the target is in use.
    #[tactic(auto, unfolding(table::specs::Chain::ahead, table::specs::Words::address_at, table::specs::Words::link_at))]
    pub fn onward(&self, from: Node) -> Ahead
        ensures { (m : Memory) → result ≡ ahead_from (memory_with self.now m) from }
    {
        let target = words::target_of(words::word_at(self.links, from));
        if target == TAIL {
            return Ahead::Tail;
        }
        if !words::in_use(self.links, self.sizes, target) {
            return Ahead::NotInUse;
        }
        if words::rank_of(self.addresses, from) < words::rank_of(self.addresses, target) {
            let address = words::word_at(self.addresses, target);
            return Ahead::Next(target, Address(address));
        }
        Ahead::NotAbove
    }

    // As many of the chain's addresses as the buffer has room for: how many they are, and what the walk meets after the last of them.
    fn read_into(&self, buffer: &mut [u32]) -> (usize, Ahead)
        ensures { (m : Memory) → buffer_left buffer.new (Ok result) ≡ read_keys (memory_with self.now m) buffer.old }
    {
        let mut from = HEAD;
        for read in 0..buffer.len() {
            let ahead = self.onward(from);
            let Ahead::Next(onto, address) = ahead else {
                return (read, ahead);
            };
            buffer[read] = address.0;
            from = onto;
        }
        (buffer.len(), self.onward(from))
    }
}

// The addresses on the chain from head, written from the buffer's start; its rest stays. Answers how many were written, and what the walk met after
// the last of them: a next node with its address, where the buffer was full.
#[tactic(auto, using(crate::proofs::Reading::keys_refused))]
pub fn chain_addresses(
    addresses: &[u32],
    links: &[u32],
    deleters: &[u32],
    sizes: Sizes,
    buffer: &mut [u32],
) -> Result<(usize, Ahead), Refusal>
    ensures { buffer_left buffer.new result ≡
        keys_of (lent_memory addresses.now links.now deleters.now sizes) buffer.old }
{
    if words::tables_fit(addresses, links, deleters, sizes) {
        let chain = Chain {
            addresses,
            links,
            sizes,
        };
        return Ok(chain.read_into(buffer));
    }
    Err(Refusal::BadSizes)
}
