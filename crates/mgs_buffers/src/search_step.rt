// A step of an incremental search in the text of a buffer.
ghost use Rattle.std.specs.Prelude.{◌≡◌, ◌≤◌, length};
ghost use Rattle.mgs_model.specs.Searching.{places_after, sought_after};
ghost use Rattle.mgs_buffers.specs.Contents.{Changed};
ghost use Rattle.mgs_buffers.specs.MarkedBuffer.{HasBuffer, marked_at};
ghost use Rattle.mgs_buffers.specs.Searched.{IsStepPlanned};

use crate::buffer::Buffer;
use crate::buffers::Buffers;
use mgs_marks::Marked;
use mgs_model::{Name, SearchPlaces, SearchStep};
use mgs_search::IncrementalSearch;

impl<T: Marked + Drop> Buffer<T> {
    fn look(
        &mut self,
        search: &mut IncrementalSearch,
        step: SearchStep,
        places: SearchPlaces,
    ) -> SearchPlaces
        requires origin { places.origin ≤ length (T.text self.old.text) }
        requires anchor { places.anchor ≤ length (T.text self.old.text) }
        ensures same { Changed T.text T.marks (λ k. k) self.old self.new }
        ensures plan { IsStepPlanned step search.old search.new (T.text self.old.text) places result }
        ensures sought { search.new ≡ sought_after step search.old (T.text self.old.text) places }
        ensures places { result ≡ places_after step search.old (T.text self.old.text) places }
        ensures anchor { result.anchor ≤ length (T.text self.old.text) }
        ensures point { places.point ≤ length (T.text self.old.text) → result.point ≤ length (T.text self.old.text) }
    {
        self.text.look(search, step, places)
    }
}

impl<T: Marked + Drop> Buffers<T> {
    /// Does a step of an incremental search in the buffer's text, and tells the positions afterwards, as `IncrementalSearch::look` does.
    /// The buffers stay. A search that failed is remembered with the text until that is edited: the text is not walked again for one
    /// that goes the same way, looks at no other places, and whose pattern begins with the one that failed.
    pub fn look(
        &mut self,
        name: &Name,
        search: &mut IncrementalSearch,
        step: SearchStep,
        places: SearchPlaces,
    ) -> SearchPlaces
        requires kept { HasBuffer name.now self.old }
        requires origin { places.origin ≤ length (marked_at name.now self.old).buffer.text }
        requires anchor { places.anchor ≤ length (marked_at name.now self.old).buffer.text }
        ensures same { self.new ≡ self.old }
        ensures plan { IsStepPlanned step search.old search.new (marked_at name.now self.old).buffer.text places result }
        ensures sought { search.new ≡ sought_after step search.old (marked_at name.now self.old).buffer.text places }
        ensures places { result ≡ places_after step search.old (marked_at name.now self.old).buffer.text places }
        ensures anchor { result.anchor ≤ length (marked_at name.now self.old).buffer.text }
        ensures point { let b = (marked_at name.now self.old).buffer in places.point ≤ length b.text → result.point ≤ length b.text }
    {
        let at = self.place_of(name);
        let (_, buffer) = self.all.pair_mut(at);
        buffer.look(search, step, places)
    }
}
