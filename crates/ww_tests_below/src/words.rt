//! Owner words: which owner each is, and which words are none.

use std::test::Fail;
use ww_word::{HANDOFF, Owner, WAITERS, pack, unpack};

#[test]
fn owners_pack_to_their_words(rt: HostRuntime) -> Result<(), Fail> {
    let first = Owner {
        seat: Some(0),
        stamp: 1,
        flags: 0,
    };
    assert!(rt; pack(first) == 264);
    assert!(rt; pack(first.with_waiters()) == 265);
    let last = Owner {
        seat: Some(15),
        stamp: 5,
        flags: WAITERS | HANDOFF,
    };
    assert!(rt; pack(last) == 1411);
    assert!(rt; pack(last.with_waiters()) == 1411);
    let free = Owner {
        seat: None,
        stamp: 0,
        flags: WAITERS,
    };
    assert!(rt; free.is_free() && !last.is_free());
    assert!(rt; pack(free) == 1);
    assert!(rt; pack(Owner::handed_to(2, 3)) == 797);
    Ok(())
}

#[test]
fn words_of_no_owner_are_refused(rt: HostRuntime) -> Result<(), Fail> {
    for word in [2, 136, 256] {
        assert!(rt; unpack(word).is_none());
    }
    assert!(rt; unpack(797) == Some(Owner::handed_to(2, 3)));
    Ok(())
}
