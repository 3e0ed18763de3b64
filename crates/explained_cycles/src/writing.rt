//! An explanation as lines of text.

use crate::names::Naming;
use crate::naming::{relation_name, write_access, write_event_name};
use crate::verdict::write_verdict;
use litmus_cycles::{Broken, Edge, Explanation, MemoryEvent, Relation, Shown};
use std::io;
use std::io::Write;

/// Writes why a state can't come as lines (docs/FORMATS.md). An error is the one that `out` answered.
pub fn write_explanation<N: Naming, W: Write>(
    names: &N,
    explanation: &Explanation,
    out: &mut W,
) -> io::Result<()> {
    write_verdict(explanation, out)?;
    out.write_all(b"\n")?;
    match &explanation.shown {
        Shown::Nothing => Ok(()),
        Shown::Cycle { events, edges } | Shown::Incoherent { events, edges } => {
            write_cycle(edges.as_slice(), out)?;
            write_events(names, events.as_slice(), out)?;
            write_edges(names, events.as_slice(), edges.as_slice(), out)
        }
        Shown::Atomicity { events, broken } => {
            write_broken(*broken, out)?;
            out.write_all(b"\n")?;
            write_events(names, events.as_slice(), out)
        }
        Shown::Execution { events, order } => {
            write_order(order.as_slice(), out)?;
            write_events(names, events.as_slice(), out)
        }
    }
}

fn write_cycle<W: Write>(edges: &[Edge], out: &mut W) -> io::Result<()> {
    out.write_all(b"cycle ")?;
    write_way(edges, out)?;
    out.write_all(b"\n")
}

/// Writes the events of a cycle with the relations between them, the first again at the end.
pub(crate) fn write_way<W: Write>(edges: &[Edge], out: &mut W) -> io::Result<()> {
    if let Some(first) = edges.first() {
        write_event_name(first.from, out)?;
    }
    for edge in edges {
        write!(out, " {} ", relation_name(edge.relation))?;
        write_event_name(edge.to, out)?;
    }
    Ok(())
}

fn write_events<N: Naming, W: Write>(
    names: &N,
    events: &[MemoryEvent],
    out: &mut W,
) -> io::Result<()> {
    for (index, event) in events.iter().enumerate() {
        write_event_name(index, out)?;
        write!(out, " hart {} ", event.hart)?;
        write_access(names, event, out)?;
        out.write_all(b" ")?;
        names.write_instruction(event, out)?;
        names.write_place(event, out)?;
        out.write_all(b"\n")?;
    }
    Ok(())
}

fn write_edges<N: Naming, W: Write>(
    names: &N,
    events: &[MemoryEvent],
    edges: &[Edge],
    out: &mut W,
) -> io::Result<()> {
    for edge in edges {
        write_event_name(edge.from, out)?;
        write!(out, " -{}", relation_name(edge.relation))?;
        write_edge_location(names, events, edge, out)?;
        out.write_all(b"-> ")?;
        write_event_name(edge.to, out)?;
        out.write_all(b"\n")?;
    }
    Ok(())
}

/// Writes the location of an edge, which po has none of.
fn write_edge_location<N: Naming, W: Write>(
    names: &N,
    events: &[MemoryEvent],
    edge: &Edge,
    out: &mut W,
) -> io::Result<()> {
    match (edge.relation, events.get(edge.to)) {
        (Relation::ProgramOrder, _) | (_, None) => Ok(()),
        (_, Some(event)) => {
            out.write_all(b" ")?;
            names.write_location(event.location, out)
        }
    }
}

/// Writes what lies between a load and its write; of an AMO, between what it reads and what it writes.
pub(crate) fn write_broken<W: Write>(broken: Broken, out: &mut W) -> io::Result<()> {
    write_event_name(broken.between, out)?;
    out.write_all(b" lies between ")?;
    if broken.load == broken.store {
        out.write_all(b"what ")?;
        write_event_name(broken.store, out)?;
        return out.write_all(b" reads and what it writes");
    }
    write_event_name(broken.load, out)?;
    out.write_all(b" and ")?;
    write_event_name(broken.store, out)
}

fn write_order<W: Write>(order: &[usize], out: &mut W) -> io::Result<()> {
    out.write_all(b"order")?;
    for index in order {
        out.write_all(b" ")?;
        write_event_name(*index, out)?;
    }
    out.write_all(b"\n")
}
