// A ring of tags, for callers that work through lists of calls: it takes tags in, and gives one out again by
// the number of its arc. It must be empty before it is let go.

ghost use Rattle.std.specs.Prelude.{◌≡◌, ℕ, true, false, replicate, if◌then◌else◌, Some, None, Ok, Err};
ghost use Rattle.std.specs.Option.{option_map};
ghost use Rattle.networks.specs.Answers.{refusal, unless};
ghost use Rattle.networks.specs.Nets.{take_out_stop, taken, hand_back_stop, handed_back};
ghost use Rattle.networks.specs.Rings.{is_free, holds, found_place, free_of_tags, has_room, keeps, put_in, put_in_answer, given_out, given_out_answer, with_tag, without_tag, through_ring};

use crate::{Network, Stop, Tag, try_out};
use std::mem::ManuallyDrop;

// Each place has the tag that it keeps, or is free.
pub struct TagRing<const ROOM: usize> {
    places: [Option<Tag>; ROOM],
}

impl<const ROOM: usize> Drop for TagRing<ROOM> {
    // Only an empty ring may be let go. The checker does not cover the drop of an array whose elements' drop
    // has a condition: so the places, all of them free, are not dropped.
    fn drop(self)
        requires { free_of_tags self.places ≡ true }
    {
        let TagRing { places } = self;
        let _free = unsafe { ManuallyDrop::new_unchecked(places) };
    }
}

// Whether no place holds a tag.
fn all_free(places: &[Option<Tag>]) -> bool
    ensures { result ≡ free_of_tags places.now }
{
    places.iter().all(|place| place.is_none())
}

// The first free place.
fn free_place(places: &[Option<Tag>]) -> Option<usize>
    ensures { result ≡ found_place is_free places.now }
{
    places.iter().position(|place| place.is_none())
}

// The first place with a tag of this arc.
fn tag_place(places: &[Option<Tag>], a: usize) -> Option<usize>
    ensures { result ≡ found_place (holds a) places.now }
{
    places
        .iter()
        .position(|place| matches!(place, Some(tag) if tag.arc() == a))
}

// Empty.
impl<const ROOM: usize> Default for TagRing<ROOM> {
    ghost is_default = { λ r. r ≡ record { places = replicate ROOM None } };

    fn default() -> TagRing<ROOM> {
        TagRing::new()
    }
}

impl<const ROOM: usize> TagRing<ROOM> {
    pub fn new() -> TagRing<ROOM>
        ensures { result ≡ record { places = replicate ROOM None } }
    {
        TagRing {
            places: [const { None }; ROOM],
        }
    }

    // Lets an empty ring go; any other comes back.
    pub fn close(self) -> Result<(), TagRing<ROOM>>
        ensures { result ≡ (if free_of_tags self.entry.places then Ok tt else Err self.entry) }
    {
        if all_free(&self.places) {
            Ok(())
        } else {
            Err(self)
        }
    }

    // Takes a tag in, or gives it back where no place is free.
    pub fn put(&mut self, tag: Tag) -> Result<(), Tag>
        ensures answers { result ≡ put_in_answer self.old.places tag }
        ensures leaves { self.new.places ≡ put_in self.old.places tag.arc }
    {
        let Some(room) = free_place(&self.places) else {
            return Err(tag);
        };
        self.places[room] = Some(tag);
        Ok(())
    }

    // Gives out a tag that names this arc, if it has one.
    pub fn take(&mut self, a: usize) -> Option<Tag>
        ensures answers { result ≡ given_out_answer self.old.places a }
        ensures leaves { self.new.places ≡ given_out self.old.places a }
    {
        let at = tag_place(&self.places, a)?;
        self.places[at].take()
    }

    // Takes an arc out at a lock-out and keeps its tag. Where no place is free, a refusal is told all the same,
    // and an arc that could be taken out is not.
    pub fn take_out<N: Network>(
        &mut self,
        net: &mut N,
        layer: usize,
        a: usize,
    ) -> Option<Result<(), Stop>>
        ensures answers { option_map refusal result ≡ through_ring (has_room self.old.places) (take_out_stop (N.meaning net.old) layer a) }
        ensures network { N.meaning net.new ≡ (if has_room self.old.places then taken (N.meaning net.old) layer a else N.meaning net.old) }
        ensures same_references { N.references net.new ≡ N.references net.old }
        ensures ring { self.new.places ≡ (if has_room self.old.places then unless (take_out_stop (N.meaning net.old) layer a) self.old.places (with_tag self.old.places a) else self.old.places) }
    {
        let Some(free) = free_place(&self.places) else {
            return try_out(net, layer, a).err().map(Err);
        };
        match net.take_out(layer, a) {
            Ok(tag) => {
                self.places[free] = Some(tag);
                Some(Ok(()))
            }
            Err(stop) => Some(Err(stop)),
        }
    }

    // Hands an arc back at a lock-out with a tag that is kept. Where none names it, an arc that is not out there
    // is told all the same, and one that is out stays out.
    pub fn hand_back<N: Network>(
        &mut self,
        net: &mut N,
        layer: usize,
        a: usize,
    ) -> Option<Result<(), Stop>>
        ensures answers { option_map refusal result ≡ through_ring (keeps self.old.places a) (hand_back_stop (N.meaning net.old) layer a) }
        ensures network { N.meaning net.new ≡ (if keeps self.old.places a then handed_back (N.meaning net.old) layer a else N.meaning net.old) }
        ensures same_references { N.references net.new ≡ N.references net.old }
        ensures ring { self.new.places ≡ (if keeps self.old.places a then unless (hand_back_stop (N.meaning net.old) layer a) self.old.places (without_tag self.old.places a) else self.old.places) }
    {
        let Some(at) = tag_place(&self.places, a) else {
            return out_elsewhere(net, layer, a);
        };
        let tag = self.take(a)?;
        match net.hand_back(layer, tag) {
            Ok(()) => Some(Ok(())),
            Err((stop, tag)) => {
                self.places[at] = Some(tag);
                Some(Err(stop))
            }
        }
    }
}

// A hand-back for which there is no tag: none where the arc is out there, which a take-out would refuse with 9.
fn out_elsewhere<N: Network>(net: &mut N, layer: usize, a: usize) -> Option<Result<(), Stop>>
    ensures answers { option_map refusal result ≡ through_ring false (hand_back_stop (N.meaning net.old) layer a) }
    ensures same { N.meaning net.new ≡ N.meaning net.old }
    ensures same_references { N.references net.new ≡ N.references net.old }
{
    match try_out(net, layer, a) {
        Err(Stop::Held(_)) => None,
        _ => Some(Err(Stop::NotOut(a))),
    }
}
