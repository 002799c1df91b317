use crate::readings::{Peak, PeakSummary, Reading};
use crate::visits::{Visit, VisitSummary, Visits};
use station::{Pair, Station, Summary};
use traces::{gather, replay, summarize};

type Both = Pair<PeakSummary, VisitSummary>;

fn item(value: u32, people: u16) -> Pair<Reading, Visit> {
    Pair {
        first: Reading { value },
        second: Visit { people },
    }
}

fn state(top: u32, people: u32) -> Pair<Peak, Visits> {
    Pair {
        first: Peak { top },
        second: Visits { people },
    }
}

#[test]
fn a_maximum_beside_a_counter(rt: HostRuntime) {
    let items = [item(3, 10), item(9, 5), item(4, 65_535)];
    let start = state(5, 4_294_901_756);
    let end = state(9, 10);
    assert_eq!(rt; replay::<Both>(start, &items), end);
    let sum = gather(&items.map(Both::of_item));
    assert_eq!(rt; sum.effect(start), end);
    let front = summarize::<Both>(&[Some(items[0]), None]);
    let back = summarize::<Both>(&[Some(items[1]), Some(items[2])]);
    assert_eq!(rt; front.join(back), sum);
    assert_eq!(rt; gather::<Both>(&[]), Both::empty());
}
