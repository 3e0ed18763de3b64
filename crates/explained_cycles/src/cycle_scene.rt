//! The execution that an explanation shows, as boxes and arrows: po and co from each event to the next, rf to each
//! read, and those of the cycle, which are thick and drawn last.

use crate::names::Naming;
use crate::naming::{write_access, write_event_name};
use crate::scene::{Arrow, Heading, Scene, Shape, mark, none_of, start_text, write_word};
use crate::verdict::write_verdict;
use crate::writing::{write_broken, write_way};
use litmus_cycles::{Edge, Explanation, MemoryEvent, Relation, Shown, is_edge};
use litmus_runs::initial_number;
use litmus_tests::LitmusTest;
use std::alloc::Global;
use std::io;
use std::io::Write;

/// All relations, in the order in which they are told.
pub(crate) const RELATIONS: [Relation; 5] = [
    Relation::ProgramOrder,
    Relation::ReadsFrom,
    Relation::Coherence,
    Relation::FromRead,
    Relation::Breaks,
];

/// What is drawn of an explanation.
pub(crate) fn scene_of<N: Naming>(
    test: &LitmusTest,
    names: &N,
    explanation: &Explanation,
    alloc: Global,
) -> io::Result<Scene> {
    let (events, cycle): (&[MemoryEvent], &[Edge]) = match &explanation.shown {
        Shown::Nothing => (&[], &[]),
        Shown::Cycle { events, edges } | Shown::Incoherent { events, edges } => {
            (events.as_slice(), edges.as_slice())
        }
        Shown::Atomicity { events, .. } | Shown::Execution { events, .. } => {
            (events.as_slice(), &[])
        }
    };
    Ok(Scene {
        heading: heading_of(test, explanation, cycle, alloc)?,
        columns: test.threads.len(),
        shapes: shapes_of(names, events, alloc)?,
        arrows: arrows_of(events, cycle, alloc)?,
        start: start_of(test, names, events, alloc)?,
        end: end_of(test, names, events, alloc)?,
    })
}

fn heading_of(
    test: &LitmusTest,
    explanation: &Explanation,
    cycle: &[Edge],
    alloc: Global,
) -> io::Result<Heading> {
    let mut name = Vec::new(alloc);
    name.write_all(test.name.as_slice())?;
    let mut sentence = Vec::new(alloc);
    write_verdict(explanation, &mut sentence)?;
    let mut way = Vec::new(alloc);
    match &explanation.shown {
        Shown::Atomicity { broken, .. } => write_broken(*broken, &mut way)?,
        _ => write_way(cycle, &mut way)?,
    }
    Ok(Heading {
        name,
        sentence,
        way,
    })
}

fn shapes_of<N: Naming>(
    names: &N,
    events: &[MemoryEvent],
    alloc: Global,
) -> io::Result<Vec<Shape>> {
    let mut shapes = Vec::new(alloc);
    for (index, event) in events.iter().enumerate() {
        shapes.push(shape_of(names, index, event, alloc)?)?;
    }
    Ok(shapes)
}

fn shape_of<N: Naming>(
    names: &N,
    index: usize,
    event: &MemoryEvent,
    alloc: Global,
) -> io::Result<Shape> {
    let mut title = Vec::new(alloc);
    write_event_name(index, &mut title)?;
    title.write_all(b": ")?;
    write_access(names, event, &mut title)?;
    let mut below = Vec::new(alloc);
    names.write_instruction(event, &mut below)?;
    Ok(Shape {
        column: usize::from(event.hart),
        row: event.place,
        title,
        below,
    })
}

fn start_of<N: Naming>(
    test: &LitmusTest,
    names: &N,
    events: &[MemoryEvent],
    alloc: Global,
) -> io::Result<Vec<u8>> {
    let accessed = accessed_by(test, events, alloc)?;
    start_text(test, names, accessed.as_slice(), alloc)
}

/// Which words of the locations the events access.
fn accessed_by(test: &LitmusTest, events: &[MemoryEvent], alloc: Global) -> io::Result<Vec<bool>> {
    let mut accessed = none_of(test, alloc)?;
    for event in events {
        mark(&mut accessed, event.location);
    }
    Ok(accessed)
}

/// What is there at the end in the words that the events access: what the last write in coherence order has written.
fn end_of<N: Naming>(
    test: &LitmusTest,
    names: &N,
    events: &[MemoryEvent],
    alloc: Global,
) -> io::Result<Vec<u8>> {
    let accessed = accessed_by(test, events, alloc)?;
    let mut text = Vec::new(alloc);
    text.write_all(b"end")?;
    let mut between: &[u8] = b" ";
    for (word, is_wanted) in accessed.iter().enumerate() {
        if *is_wanted {
            text.write_all(between)?;
            write_word(names, word, last_number(test, events, word), &mut text)?;
            between = b", ";
        }
    }
    Ok(text)
}

fn last_number(test: &LitmusTest, events: &[MemoryEvent], word: usize) -> Option<u32> {
    let mut last = initial_number(test, word);
    let mut rank = 0_usize;
    for event in events {
        if event.location == word && event.writes.is_some() && event.rank >= rank {
            last = event.writes;
            rank = event.rank;
        }
    }
    last
}

fn arrows_of(events: &[MemoryEvent], cycle: &[Edge], alloc: Global) -> io::Result<Vec<Arrow>> {
    let mut arrows = Vec::new(alloc);
    for (to, event) in events.iter().enumerate() {
        if event.reads.is_some() && event.source.is_none() {
            arrows.push(Arrow {
                from: None,
                relation: Relation::ReadsFrom,
                to,
                is_thick: false,
            })?;
        }
    }
    for from in 0..events.len() {
        for to in 0..events.len() {
            push_between(events, cycle, from, to, &mut arrows)?;
        }
    }
    for edge in cycle {
        arrows.push(arrow_of(edge, true))?;
    }
    Ok(arrows)
}

fn arrow_of(edge: &Edge, is_thick: bool) -> Arrow {
    Arrow {
        from: Some(edge.from),
        relation: edge.relation,
        to: edge.to,
        is_thick,
    }
}

/// The arrows between two events that aren't of the cycle.
fn push_between(
    events: &[MemoryEvent],
    cycle: &[Edge],
    from: usize,
    to: usize,
    arrows: &mut Vec<Arrow>,
) -> io::Result<()> {
    for relation in RELATIONS {
        let edge = Edge { from, relation, to };
        if is_edge(events, &edge) && !is_among(cycle, edge) && is_next(events, &edge) {
            arrows.push(arrow_of(&edge, false))?;
        }
    }
    Ok(())
}

fn is_among(cycle: &[Edge], wanted: Edge) -> bool {
    for edge in cycle {
        if *edge == wanted {
            return true;
        }
    }
    false
}

/// Whether an edge is drawn outside of a cycle: po and co lead to the next one alone, and fr isn't drawn.
fn is_next(events: &[MemoryEvent], edge: &Edge) -> bool {
    let (Some(a), Some(b)) = (events.get(edge.from), events.get(edge.to)) else {
        return false;
    };
    match edge.relation {
        Relation::ProgramOrder => a.place.saturating_add(1) == b.place,
        Relation::Coherence => a.rank.saturating_add(1) == b.rank,
        Relation::FromRead => false,
        Relation::ReadsFrom | Relation::Breaks => true,
    }
}
