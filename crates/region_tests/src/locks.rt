//! Uses of a lock over a range of words, one after another and on two threads.

use crate::lock::Lock;

#[test]
fn each_use_of_a_thread_adds_one(rt: HostRuntime) {
    let Ok((lock, seat)) = Lock::new(rt.alloc(), 16, 7) else {
        panic!(rt; "no memory");
    };
    let (one, two) = lock.add_on_two(&rt, seat, 1000);
    assert!(rt; one <= 1000 && two <= 1000 && one + two > 0);
}

#[test]
fn a_use_finds_what_the_last_one_left(rt: HostRuntime) {
    let Ok((lock, mut seat)) = Lock::new(rt.alloc(), 3, 7) else {
        panic!(rt; "no memory");
    };
    assert_eq!(rt; lock.add_one(&mut seat), Some(7));
    assert_eq!(rt; lock.add_one(&mut seat), Some(8));
}
