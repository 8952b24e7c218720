//! Words of a room.

use plain_words::Room;

#[test]
fn words_are_laid_and_read(rt: HostRuntime) {
    let Ok(mut room) = Room::new(rt.alloc(), 5) else {
        panic!(rt; "no memory");
    };
    room.lay(3, 7);
    assert_eq!(rt; room.word(3), 7);
    assert_eq!(rt; room.count(), 5);
}
