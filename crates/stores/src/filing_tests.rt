use crate::card::Card;
use crate::pocket::{Pocket, PocketError};
use std::alloc::{AllocError, Global};
use std::test::Fail;
use store::filing::FilingStore;
use store::reading::ReadingStore;
use store::refusal::Refusal;

// So many bytes of 9.
fn nines(heap: Global, length: usize) -> Result<Vec<u8>, AllocError> {
    vec![in heap; 9; length]
}

#[test]
fn whole_keys_that_fit(rt: HostRuntime) -> Result<(), Fail> {
    assert_eq!(rt; Card::new(7, nines(rt.alloc(), 6)?)?.capacity(), 0);
    assert_eq!(rt; Card::new(7, nines(rt.alloc(), 13)?)?.capacity(), 1);
    assert_eq!(rt; Card::new(7, nines(rt.alloc(), 14)?)?.capacity(), 2);
    assert_eq!(rt; Card::new(32, nines(rt.alloc(), 0)?)?.capacity(), 0);
    assert_eq!(rt;
        Card::new(1, nines(rt.alloc(), 65_535)?)?.capacity(),
        65_535
    );
    assert_eq!(rt;
        Card::new(1, nines(rt.alloc(), 70_000)?)?.capacity(),
        65_535,
        "a record's number has 16 bits"
    );
    Ok(())
}

#[test]
fn widths_of_a_card(rt: HostRuntime) -> Result<(), Fail> {
    for width in [0, 1, 32, 33] {
        match Card::new(width, nines(rt.alloc(), 64)?) {
            Ok(card) => {
                assert!(rt; width == 1 || width == 32);
                assert_eq!(rt; card.width(), width);
                assert_eq!(rt; card.held(), 0);
                assert_eq!(rt; card.tally(), 0);
                assert_eq!(rt; card.into_bytes().as_slice(), [9; 64].as_slice());
            }
            Err(unmade) => {
                assert!(rt; width == 0 || width == 33);
                assert_eq!(rt; unmade.refusal, Refusal::KeyWidth);
                assert_eq!(rt; unmade.bytes.as_slice(), [9; 64].as_slice(), "handed back");
            }
        }
    }
    Ok(())
}

#[test]
fn card_filled_up(rt: HostRuntime) -> Result<(), Fail> {
    let mut card = Card::new(3, nines(rt.alloc(), 8)?)?;
    assert_eq!(rt; card.append(&[1, 2, 3]), Ok(0));
    assert_eq!(rt; card.append(&[1, 2]), Err(Refusal::KeyLength));
    assert_eq!(rt; card.append(&[255, 0, 255]), Ok(1));
    assert_eq!(rt; card.append(&[7, 8, 6]), Err(Refusal::StoreFull));
    assert_eq!(rt;
        card.append(&[7, 8]),
        Err(Refusal::KeyLength),
        "the length is looked at first"
    );
    assert_eq!(rt; card.append(&[]), Err(Refusal::KeyLength));
    assert_eq!(rt; card.held(), 2);
    let mut key = [0; 3];
    assert_eq!(rt; card.fetch(1, &mut key), Ok(()));
    assert_eq!(rt; key, [255, 0, 255]);
    assert_eq!(rt; card.fetch(2, &mut key), Err(Refusal::NotHeld));
    assert_eq!(rt; key, [255, 0, 255]);
    assert_eq!(rt; card.tally(), 1);
    assert_eq!(rt;
        card.into_bytes().as_slice(),
        [1, 2, 3, 255, 0, 255, 9, 9].as_slice(),
        "what no key was filed over is untouched"
    );
    Ok(())
}

#[test]
fn widths_of_a_pocket(rt: HostRuntime) -> Result<(), Fail> {
    for width in [0, 1, 32, 33] {
        match Pocket::new(rt.alloc(), width) {
            Ok(pocket) => {
                assert!(rt; width == 1 || width == 32);
                assert_eq!(rt; pocket.width(), width);
                assert_eq!(rt; pocket.held(), 0);
                assert_eq!(rt; pocket.capacity(), 64);
                assert_eq!(rt; pocket.tally(), 0);
            }
            Err(PocketError::Refused(refusal)) => {
                assert!(rt; width == 0 || width == 33);
                assert_eq!(rt; refusal, Refusal::KeyWidth);
            }
            Err(PocketError::NoMemory(want)) => return Err(want.into()),
        }
    }
    Ok(())
}

#[test]
fn pocket_of_64(rt: HostRuntime) -> Result<(), Fail> {
    let mut pocket = Pocket::new(rt.alloc(), 32)?;
    for number in 0..64u16 {
        assert_eq!(rt; pocket.append(&[7; 31]), Err(Refusal::KeyLength));
        assert_eq!(rt; pocket.append(&[number as u8; 32]), Ok(number));
    }
    assert_eq!(rt; pocket.append(&[7; 32]), Err(Refusal::StoreFull));
    assert_eq!(rt; pocket.append(&[7; 33]), Err(Refusal::KeyLength));
    assert_eq!(rt; pocket.held(), 64);
    for number in 0..64u16 {
        let mut key = [0; 32];
        assert_eq!(rt; pocket.fetch(number, &mut key), Ok(()));
        assert_eq!(rt; key, [number as u8; 32]);
    }
    let mut key = [5; 32];
    assert_eq!(rt; pocket.fetch(64, &mut key), Err(Refusal::NotHeld));
    assert_eq!(rt; key, [5; 32]);
    assert_eq!(rt; pocket.tally(), 64);
    Ok(())
}
