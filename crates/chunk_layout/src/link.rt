//! Lists of free chunks, in which each names the next by its own bytes.
ghost use Rattle.std.specs.Prelude.{◌≡◌, ◌≤◌, Option, Some, None, true, false, [], IsTrue, IfSome, IfNone, length};
ghost use Rattle.chunk_layout.specs.Contents.{has, contents_at, put_at};
ghost use Rattle.chunk_layout.specs.declared.place.Place.{Place};
ghost use Rattle.chunk_layout.specs.Links.{place_bytes, link_bytes, IsLink};

use crate::layout::ChunkLayout;
use crate::place::Place;

/// The bytes of a place.
fn place_bytes(place: Place) -> [u8; 8]
    ensures { result ≡ place_bytes place }
{
    let [a, b, c, d] = place.block.to_be_bytes();
    let [e, f, g, h] = place.offset.to_be_bytes();
    [a, b, c, d, e, f, g, h]
}

/// The place that eight bytes name.
fn place_from(bytes: &[u8]) -> Place
    requires { length bytes.now ≡ 8 }
    ensures { place_bytes result ≡ bytes.now }
{
    Place {
        block: u32::from_be_bytes([bytes[0], bytes[1], bytes[2], bytes[3]]),
        offset: u32::from_be_bytes([bytes[4], bytes[5], bytes[6], bytes[7]]),
    }
}

/// The bytes by which a free chunk names the next, if there is one.
fn link_bytes(next: Option<Place>) -> [u8; 8]
    ensures { result ≡ link_bytes next }
{
    match next {
        Some(place) => place_bytes(place),
        None => [0; 8],
    }
}

/// The chunk that a link names, if it names one: none begins at offset 0.
fn read_link(bytes: &[u8]) -> Option<Place>
    requires { length bytes.now ≡ 8 }
    ensures { (next : Option Place) → IsLink next → bytes.now ≡ link_bytes next → result ≡ next }
{
    let place = place_from(bytes);
    if place.offset == 0 {
        return None;
    }
    Some(place)
}

/// Takes the first chunk of a free list, if there is one. It is live then, and has no bytes.
pub fn take_first(layout: &mut ChunkLayout, first: &mut Option<Place>) -> Option<Place>
    requires { (place : Place) → first.old ≡ Some place → (IsTrue (has layout.old.contents place))
        × (length (contents_at layout.old.contents place).bytes ≡ 8) }
    ensures none { IfNone result ((first.old ≡ None) × (first.new ≡ None) × (layout.new ≡ layout.old)) }
    ensures some { IfSome result (λ place. (first.old ≡ Some place) × (layout.new ≡ put_at layout.old place 0 [] true)) }
    ensures next { IfSome result (λ place. (next : Option Place) → IsLink next → (contents_at layout.old.contents place).bytes
        ≡ link_bytes next
        → first.new ≡ next) }
{
    let place = (*first)?;
    let next = read_link(layout.get(place, 8));
    layout.put(place, 0, &[], true);
    *first = next;
    Some(place)
}

/// Puts a chunk in front of a free list.
pub fn put_first(layout: &mut ChunkLayout, first: &mut Option<Place>, place: Place)
    requires there { IsTrue (has layout.old.contents place) }
    requires room { 8 ≤ (contents_at layout.old.contents place).room }
    ensures freed { layout.new ≡ put_at layout.old place 0 (link_bytes first.old) false }
    ensures first { first.new ≡ Some place }
{
    let link = link_bytes(*first);
    layout.put(place, 0, &link, false);
    *first = Some(place);
}
