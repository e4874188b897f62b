use crate::worn::Worn;
use layers::newest::newest_first;
use layers::turn::turned_at;
use store::reading::ReadingStore;
use store::refusal::Refusal;
use stores::plan::Plan;

// The key of a record, or the refusal.
fn fetched<S: ReadingStore>(store: &mut S, number: u16) -> Result<[u8; 3], Refusal> {
    let mut key = [0; 3];
    store.fetch(number, &mut key)?;
    Ok(key)
}

#[test]
fn plan_of_0_classes(rt: HostRuntime) {
    let mut plan = Plan::new(0);
    assert_eq!(rt; plan.width(), 3);
    assert_eq!(rt; plan.held(), 0);
    assert_eq!(rt; plan.capacity(), 0);
    assert_eq!(rt; fetched(&mut plan, 0), Err(Refusal::NotHeld));
    assert_eq!(rt; plan.tally(), 0);
}

#[test]
fn plan_of_255_classes(rt: HostRuntime) {
    let mut plan = Plan::new(255);
    assert_eq!(rt; plan.held(), 6120);
    assert_eq!(rt; plan.capacity(), 6120);
    assert_eq!(rt; fetched(&mut plan, 0), Ok([0, 0, 0]));
    assert_eq!(rt; fetched(&mut plan, 23), Ok([0, 5, 100]));
    assert_eq!(rt; fetched(&mut plan, 24), Ok([1, 0, 0]));
    assert_eq!(rt; fetched(&mut plan, 6119), Ok([254, 5, 100]));
    assert_eq!(rt; fetched(&mut plan, 6120), Err(Refusal::NotHeld));
    assert_eq!(rt; fetched(&mut plan, 65535), Err(Refusal::NotHeld));
    assert_eq!(rt; plan.tally(), 4);
}

#[test]
fn refused_fetch_leaves_the_buffer(rt: HostRuntime) {
    let mut plan = Plan::new(1);
    let mut short = [9; 2];
    assert_eq!(rt;
        plan.fetch(99, &mut short),
        Err(Refusal::KeyLength),
        "the length is looked at first"
    );
    assert_eq!(rt; short, [9; 2]);
    let mut key = [9; 3];
    assert_eq!(rt; plan.fetch(24, &mut key), Err(Refusal::NotHeld));
    assert_eq!(rt; key, [9; 3]);
    assert_eq!(rt; plan.tally(), 0);
}

#[test]
fn cuts_of_0_and_the_width_and_above_it(rt: HostRuntime) {
    for cut in 0..6usize {
        let mut turned = turned_at(cut, Plan::new(2));
        let expected = match cut {
            1 => [5, 100, 1],
            2 => [100, 1, 5],
            _ => [1, 5, 100],
        };
        assert_eq!(rt; fetched(&mut turned, 47), Ok(expected));
        assert_eq!(rt; turned.tally(), 1);
        assert_eq!(rt; turned.held(), 48);
    }
}

#[test]
fn layers_on_layers(rt: HostRuntime) {
    let turned = turned_at(1, Plan::new(2));
    let mut newest = newest_first(turned);
    assert_eq!(rt; newest.width(), 3);
    assert_eq!(rt; newest.capacity(), 48);
    assert_eq!(rt; fetched(&mut newest, 47), Ok([250, 155, 254]));
    assert_eq!(rt; fetched(&mut newest, 48), Err(Refusal::NotHeld));
    assert_eq!(rt; newest.tally(), 1);
    assert_eq!(rt; newest.into_below().into_below().tally(), 1);
}

#[test]
fn tally_wraps(rt: HostRuntime) {
    let mut worn = Worn::new(4_294_967_294);
    let mut key = [0; 1];
    assert_eq!(rt; worn.fetch(0, &mut key), Ok(()));
    assert_eq!(rt; worn.tally(), 4_294_967_295);
    let mut inverted = newest_first(worn);
    assert_eq!(rt; inverted.fetch(0, &mut key), Ok(()));
    assert_eq!(rt; key, [248]);
    assert_eq!(rt; inverted.tally(), 0);
    assert_eq!(rt;
        inverted.tally().wrapping_sub(4_294_967_294),
        2,
        "the reads are the rise modulo 2^32"
    );
}

#[test]
fn grounds_and_their_records(rt: HostRuntime) {
    assert_eq!(rt; Refusal::LineForm.number(), 1);
    assert_eq!(rt; Refusal::PartialKeyMissing(8).number(), 15);
    assert_eq!(rt; Refusal::KeyPresent(3).record(), Some(3));
    assert_eq!(rt; Refusal::SearchMissing(65535).record(), Some(65535));
    assert_eq!(rt; Refusal::NodesSpent.record(), None);
}
