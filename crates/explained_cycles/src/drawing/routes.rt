//! By which ways arrows go: in the rooms between the columns, each on a track of its own, and in the rooms between the
//! rows, each on a lane of its own. So none crosses a box, and no name stands over another.

use crate::scene::{Arrow, Scene, Shape};
use litmus_cycles::Relation;
use std::alloc::Global;
use std::io;

/// A track from above to below in the room left of a column; the room behind the last column is counted as that of one
/// more.
#[derive(Clone, Copy, Drop)]
pub(super) struct Track {
    pub room: usize,
    pub place: u32,
}

/// A lane from side to side above a row.
#[derive(Clone, Copy, Drop)]
pub(super) struct Lane {
    pub row: usize,
    pub place: u32,
}

/// The way of an arrow.
#[derive(Clone, Copy, Drop)]
pub(super) enum Route {
    /// From the lower edge of a box to the upper edge of the next one below it.
    Down,
    /// From the start, by a track.
    Start(Track),
    /// From the side of a box to that of another by the track of one room.
    Beside(Track),
    /// By the track of one room, a lane, and the track of another room.
    Over {
        first: Track,
        lane: Lane,
        last: Track,
    },
}

/// The ways of all arrows of a scene, and how many tracks each room and how many lanes each row has.
#[derive(Drop)]
pub(super) struct Routes {
    pub routes: Vec<Route>,
    pub tracks: Vec<u32>,
    pub lanes: Vec<u32>,
}

impl Routes {
    pub fn of(scene: &Scene, alloc: Global) -> io::Result<Routes> {
        let mut routes = Routes {
            routes: Vec::new(alloc),
            tracks: zeros(scene.columns.saturating_add(1), alloc)?,
            lanes: zeros(scene.rows(), alloc)?,
        };
        for arrow in scene.arrows.iter() {
            routes.push(scene, arrow)?;
        }
        Ok(routes)
    }

    fn push(&mut self, scene: &Scene, arrow: &Arrow) -> io::Result<()> {
        let route = self.route(scene, arrow);
        self.routes.push(route)?;
        Ok(())
    }

    fn route(&mut self, scene: &Scene, arrow: &Arrow) -> Route {
        let Some(to) = scene.shapes.get(arrow.to) else {
            return Route::Down;
        };
        let Some(from) = arrow.from else {
            return Route::Start(self.track(to.column, arrow.relation));
        };
        let Some(from) = scene.shapes.get(from) else {
            return Route::Down;
        };
        if from.column == to.column {
            return self.route_within(scene, from, to, arrow.relation);
        }
        self.route_across(from, to, arrow.relation)
    }

    /// Between two boxes of one column: po left of them, or straight down to the next one, and all else right of them.
    fn route_within(
        &mut self,
        scene: &Scene,
        from: &Shape,
        to: &Shape,
        relation: Relation,
    ) -> Route {
        if relation != Relation::ProgramOrder {
            return Route::Beside(self.track(from.column.saturating_add(1), relation));
        }
        if scene.is_next(from, to) {
            return Route::Down;
        }
        Route::Beside(self.track(from.column, relation))
    }

    fn route_across(&mut self, from: &Shape, to: &Shape, relation: Relation) -> Route {
        let (near, far) = if from.column < to.column {
            (from.column.saturating_add(1), to.column)
        } else {
            (from.column, to.column.saturating_add(1))
        };
        let first = self.track(near, relation);
        if near == far {
            return Route::Beside(first);
        }
        let lane = self.lane(from.row.max(to.row));
        let last = self.track(far, relation);
        Route::Over { first, lane, last }
    }

    /// The next track of a room; that of a relation with a long name is as wide as two.
    fn track(&mut self, room: usize, relation: Relation) -> Track {
        let width = if relation == Relation::Breaks { 2 } else { 1 };
        Track {
            room,
            place: taken(&mut self.tracks, room, width),
        }
    }

    fn lane(&mut self, row: usize) -> Lane {
        Lane {
            row,
            place: taken(&mut self.lanes, row, 1),
        }
    }
}

/// Takes so many more places, and answers the first of them.
fn taken(counts: &mut Vec<u32>, index: usize, more: u32) -> u32 {
    let Some(count) = counts.get_mut(index) else {
        return 0;
    };
    let first = *count;
    *count = first.saturating_add(more);
    first
}

fn zeros(count: usize, alloc: Global) -> io::Result<Vec<u32>> {
    let mut zeros = Vec::new(alloc);
    for _ in 0..count {
        zeros.push(0)?;
    }
    Ok(zeros)
}
