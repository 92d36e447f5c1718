// Lent tables and a lent row of records made fresh, or refused. Rests on the words.
#![tactic(auto)]

ghost use Rattle.std.specs.Prelude.{◌≡◌, ℕ, ◌≤◌, length};
ghost use Rattle.basics.specs.Over.{over};
ghost use Rattle.table.specs.Words.{fresh_memory};
ghost use Rattle.table.specs.Events.{state_of};
ghost use Rattle.words.specs.LentMemory.{memory_in, SameTables};
ghost use Rattle.fresh.specs.Fresh.{fresh_sizes, fresh_tables, tables_left, fresh_list, list_left};

use record::{Record, Refusal, TAIL};
use words::{Sizes, Tables};

// Zeros, then head's link and tail's, both to tail.
#[tactic(auto, using(crate::proofs::Freshness::links_laid))]
fn fresh_links(links: &mut [u32], nodes: usize)
    requires { (2 ≤ nodes) × (nodes ≤ length links.old) }
    ensures { (processes : ℕ) → links.new ≡ over (fresh_memory nodes processes).links links.old }
{
    links[..nodes].fill(0);
    let tail = words::link_word(TAIL, false);
    links[..2].fill(tail);
}

// The lent tables made fresh for these sizes, or refused and left as they are.
#[tactic(auto, using(crate::proofs::Freshness::tables_told))]
pub fn fresh_tables(tables: &mut Tables, nodes: u32, processes: u32) -> Result<Sizes, Refusal>
    ensures same { SameTables tables.old tables.new }
    ensures left { tables_left (memory_in tables.new (fresh_sizes nodes processes)) result ≡
        fresh_tables (memory_in tables.old (fresh_sizes nodes processes)) }
{
    let sizes = Sizes {
        nodes,
        processes,
        count: 2,
    };
    let addresses = &mut *tables.addresses;
    let links = &mut *tables.links;
    let deleters = &mut *tables.deleters;
    if words::tables_fit(addresses, links, deleters, sizes) {
        let stated = nodes as usize;
        addresses[..stated].fill(0);
        fresh_links(links, stated);
        deleters[..stated].fill(0);
        return Ok(sizes);
    }
    Err(Refusal::BadSizes)
}

// The lent tables and the lent row made fresh for these sizes, or refused and left as they are.
#[tactic(auto, using(crate::proofs::Freshness::row_refused))]
pub fn fresh_list(
    tables: &mut Tables,
    row: &mut [Record],
    nodes: u32,
    processes: u32,
) -> Result<Sizes, Refusal>
    ensures same { SameTables tables.old tables.new }
    ensures left { list_left (state_of (memory_in tables.new (fresh_sizes nodes processes))
        row.new) result ≡
        fresh_list (state_of (memory_in tables.old (fresh_sizes nodes processes))
        row.old) }
{
    let stated = processes as usize;
    if row.len() < stated {
        return Err(Refusal::BadSizes);
    }
    let sizes = fresh_tables(tables, nodes, processes)?;
    row[..stated].fill(Record::fresh());
    Ok(sizes)
}
