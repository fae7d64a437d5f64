// One set: lookup, fill and drops. Each change gives the set anew, its gaps closed, the rest zeros.
ghost use Rattle.std.specs.Prelude.{◌≡◌, Bool, ◌∷◌};
ghost use Rattle.std.specs.Iterator.{ActsAsAt};
ghost use Rattle.cache.specs.Sets as spec;

use crate::{Drop, Place, Set, Wanted};

// A set is handed its own number by its caller: the record's layout is C's, and has no number in a set.
impl Set {
    // The set of four zero places.
    pub fn empty() -> Set
        ensures { result ≡ spec.empty_set }
    {
        Set {
            places: [Place::empty(); 4],
        }
    }

    // The set with a place in front; the fifth falls out.
    fn put(self, front: Place) -> Set
        ensures { result ≡ spec.set_of (front ∷ self.places) }
    {
        let [a, b, c, _] = self.places;
        Set {
            places: [front, a, b, c],
        }
    }

    // The set with the places that pass a test, in their order, gaps closed.
    fn keep<F: FnMut(&Place) -> bool>(self, test: F) -> Set
        requires { (state : F) (place : _) → F.pre state place }
        ensures { (passes : Place → Bool) → ActsAsAt F.FnMut test passes → result ≡ spec.set_of (spec.keep passes self.places) }
    {
        let mut kept = Set::empty();
        let mut passing = self.places.iter().copied().filter(test);
        // No zip of the slots with the filter: a proof knows nothing of what is written through one.
        for slot in kept.places.iter_mut() {
            let Some(place) = passing.next() else { break };
            *slot = place;
        }
        kept
    }

    // The first filled place that serves.
    pub fn find(self, set: u64, wanted: Wanted) -> Option<Place>
        ensures { result ≡ spec.find_in set wanted self }
    {
        self.places
            .iter()
            .find(|place| place.serves(wanted) && place.filled_in(set))
            .copied()
    }

    // The set with a new place in front, without those that it does not spare.
    pub fn fill(self, set: u64, place: Place) -> Set
        ensures { result ≡ spec.fill_set set place self }
    {
        let stays = |old: &Place| old.filled_in(set) && old.spared_by(place);
        // The quick way where all places stay: docs/DESIGN-PASS.md has what a fill took without it.
        if self.places.iter().all(&stays) {
            return self.put(place);
        }
        self.keep(stays).put(place)
    }

    // The set with the places that a drop leaves.
    pub fn drop(self, set: u64, drop: Drop) -> Set
        ensures { result ≡ spec.drop_set set drop self }
    {
        self.keep(|place| place.filled_in(set) && place.left_by(drop))
    }
}
