//! Fronts and their tariffs, worked by hand.
use crate::{cheapest, intervals};
use mill_model::Sums;
use std::test::Fail;

// The middle point lies on the line between its neighbours: it is never the cheapest alone.
#[test]
fn fronts_have_spans(rt: HostRuntime) -> Result<(), Fail> {
    let points = [
        Sums { loss: 0, count: 4 },
        Sums { loss: 1, count: 3 },
        Sums { loss: 2, count: 2 },
        Sums { loss: 5, count: 1 },
    ];
    let spans = intervals(rt.alloc(), &points)?;
    assert_eq!(rt; spans.len(), 3);
    assert!(rt; spans[0].sums == points[0] && spans[0].from == (0, 1) && spans[0].to == (1, 1));
    assert!(rt; spans[1].sums == points[2] && spans[1].from == (1, 1) && spans[1].to == (3, 1));
    assert!(rt; spans[2].sums == points[3] && spans[2].from == (3, 1) && spans[2].to == (1, 0));
    Ok(())
}

#[test]
fn the_first_of_the_cheapest_is_told(rt: HostRuntime) {
    let points = [Sums { loss: 0, count: 2 }, Sums { loss: 2, count: 1 }];
    assert!(rt; cheapest(&points, 1, 5) == Some((7, points[1])));
    assert!(rt; cheapest(&points, 1, 2) == Some((4, points[0])));
    assert!(rt; cheapest(&[], 1, 2).is_none());
}
