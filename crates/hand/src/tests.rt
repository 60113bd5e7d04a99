// Points in the hand, held to values that were worked out by hand.
use crate::points::Hand;
use kinds::kind::PointKind;
use kinds::lay::LayPoint;

// A hand holds any points: shog 3000 lies off its axis, and the entry tells of it all the same.
#[test]
fn a_point_off_its_axes_is_told(rt: HostRuntime) {
    let near = LayPoint {
        course: 9,
        shog: -4,
    };
    let far = LayPoint {
        course: 2,
        shog: 3000,
    };
    let low = LayPoint {
        course: 2,
        shog: -4,
    };
    let high = LayPoint {
        course: 9,
        shog: 3000,
    };
    assert!(rt; !far.on_axes());
    let entry = Hand::one(near).joined(&Hand::one(far)).entry(7);
    assert_eq!(rt; entry.page, 7);
    assert_eq!(rt; entry.count, 2);
    assert_eq!(rt; entry.low, low);
    assert_eq!(rt; entry.high, high);
}
