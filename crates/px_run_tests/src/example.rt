//! The example for callers, by pictures that were worked out by hand.
use crate::runs::{one_solid, try_bytes, two_maps};
use px_example::{NotDrawn, picture_of};
use px_scene::{Cause, SceneFault};

#[test]
fn one_pixel_shows_its_front(rt: HostRuntime) {
    let maps = picture_of(rt.alloc(), one_solid()).expect(&rt, "a picture");
    try_bytes(&rt, maps.written(), two_maps());
    assert!(rt; maps.finished());
}

#[test]
fn a_text_without_end_is_refused_at_its_last_line(rt: HostRuntime) {
    assert!(rt;
        matches!(
            picture_of(rt.alloc(), b"pxscene 1\n".as_slice()),
            Err(NotDrawn::Text(SceneFault::Malformed {
                line: 1,
                cause: Cause::MissingEnd,
            }))
        )
    );
}
