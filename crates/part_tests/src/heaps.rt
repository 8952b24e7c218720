//! The numbers of heaps, and the seats in them.

ghost use Rattle.std.specs.Prelude.{◌≡◌};
ghost use Rattle.heap_geometry.specs.Geometry.{IsChecked};

use heap_geometry::geometry::Geometry;
use heap_geometry::limits::CLASSES;
use std::process::Abort;
use word_table::seat::{Seat, Site};

/// These numbers, which a heap can have.
pub fn checked<R: Abort>(rt: &R, geometry: Geometry) -> Geometry
    ensures checked { IsChecked result }
    ensures same { result ≡ geometry }
{
    match geometry.check() {
        Ok(_) => geometry,
        Err(_) => panic!(rt; "there is no such heap"),
    }
}

/// The seat of a caller of a heap with these numbers, for blocks of this class.
pub fn seat_of<R: Abort>(rt: &R, geometry: Geometry, caller: u8, class: u8) -> Seat {
    let geometry = checked(rt, geometry);
    if u32::from(caller) < geometry.callers && class < CLASSES {
        Seat::new(geometry, caller, class)
    } else {
        panic!(rt; "the heap has no such seat")
    }
}

/// Descriptor 0 and frame 0, for a seat.
pub fn first_site(seat: Seat) -> Site {
    Site {
        seat,
        desc: 0,
        frame: 0,
    }
}
