ghost use Rattle.std.specs.Prelude.{◌≡◌, ◌<◌, ℕ, length, IfOk, IfSome, IsTrue, ◌↔◌};
ghost use Rattle.searches.specs.Ending.{IsLeastStuck};
ghost use Rattle.searches.specs.Marks.{AreMarkedEnds, AreMarks, IsMarkedAfter, LeadsToMarked};
ghost use Rattle.searches.specs.Marks.{IsLeft, MarksFrom, MarksAt, IsFirstUnmarked};

use crate::search::Search;
use std::alloc::{AllocError, Global};
use std::hash::Hash;

impl<S: Copy + Eq + Hash, W: Copy> Search<S, W> {
    /// The least place from which no way along the steps that were looked at leads to an end. None where
    /// from each place some way does. Errors: want of memory.
    pub fn stuck(&self, alloc: Global) -> Result<Option<u32>, AllocError>
        ensures { IfOk result (IsLeastStuck self.now) }
    {
        let mut marks = self.marked_ends(alloc)?;
        let marks = marks.as_mut_slice();
        self.mark_all(marks);
        Ok(self.first_unmarked(marks))
    }

    /// Marks each place from which some way leads to a marked one.
    fn mark_all(&self, marks: &mut [bool])
        requires { AreMarks self.now marks.old }
        ensures marks { AreMarks self.now marks.new }
        ensures left { (place : ℕ) → IsLeft self.now marks.new place }
    {
        // Most edges lead on to later places, so that few sweeps back are needed.
        while self.sweep_back(marks) {}
    }

    /// Marks for all places, of which the ends are marked. Errors: want of memory.
    fn marked_ends(&self, alloc: Global) -> Result<Vec<bool>, AllocError>
        ensures { IfOk result (λ marks. AreMarkedEnds self.now marks.items) }
    {
        let mut marks = vec![in alloc; false; self.states.len()]?;
        for end in self.ends.as_slice() {
            marks[*end as usize] = true;
        }
        Ok(marks)
    }

    /// Marks, from the last place to the first, each from which an edge leads to a marked one.
    /// Answers whether there was one to mark.
    fn sweep_back(&self, marks: &mut [bool]) -> bool
        requires { AreMarks self.now marks.old }
        ensures marks { AreMarks self.now marks.new }
        ensures more { MarksFrom self.now 0 marks.old marks.new result }
    {
        let mut is_more = false;
        let mut place = self.states.len();
        while place > 0 {
            place -= 1;
            if self.mark(place, marks) {
                is_more = true;
            }
        }
        is_more
    }

    /// Marks a place from which an edge leads to a marked one. Answers whether it has done so.
    fn mark(&self, place: usize, marks: &mut [bool]) -> bool
        requires inside { place < length self.now.states }
        requires marks { AreMarks self.now marks.old }
        ensures marks { AreMarks self.now marks.new }
        ensures more { MarksAt self.now place marks.old marks.new result }
    {
        if marks[place] {
            return false;
        }
        if !self.leads_to_marked(place, marks) {
            return false;
        }
        marks[place] = true;
        true
    }

    /// Does some edge lead from a place to a marked one?
    fn leads_to_marked(&self, place: usize, marks: &[bool]) -> bool
        requires inside { place < length self.now.states }
        requires paired { length marks.now ≡ length self.now.states }
        ensures { IsTrue result ↔ LeadsToMarked self.now marks.now place }
    {
        for hart in 0..self.harts {
            if is_marked(marks, self.edge(place, hart)) {
                return true;
            }
        }
        false
    }

    /// The first place that isn't marked.
    fn first_unmarked(&self, marks: &[bool]) -> Option<u32>
        requires { length marks.now ≡ length self.now.states }
        ensures { IsFirstUnmarked marks.now result }
    {
        for place in 0..self.states.len() {
            if !marks[place] {
                return Some(place as u32);
            }
        }
        None
    }
}

/// Does an edge lead to a marked place?
fn is_marked(marks: &[bool], edge: Option<u32>) -> bool
    requires { IfSome edge (λ place. place < length marks.now) }
    ensures { IsTrue result ↔ IsMarkedAfter marks.now edge }
{
    match edge {
        Some(place) => marks[place as usize],
        None => false,
    }
}
