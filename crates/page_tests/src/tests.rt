// What the encoders write and what the views read, held to the sample pages.
ghost use Rattle.std.specs.Prelude.{◌≡◌, ◌<◌};

use crate::samples::*;
use kinds::bar::BarPoint;
use kinds::kind::PointKind;
use kinds::lay::LayPoint;
use page::data_page::DataView;
use page::directory_page::DirectoryView;
use page::encode::{data_page, directory_page, free_page, head_page};
use page::entry::Entry;
use page::fault::PageFault;
use page::free_page::next_free;
use page::head_page::{Head, HeadView};
use std::array;
use std::fmt::Debug;
use std::process::Abort;
use std::test::Fail;

fn lay(course: u16, shog: i16) -> LayPoint
    ensures { result ≡ record { course = course; shog = shog } }
{
    LayPoint { course, shog }
}

fn bar(course: u16, bar: u16, shog: i16) -> BarPoint
    ensures { result ≡ record { course = course; bar = bar; shog = shog } }
{
    BarPoint { course, bar, shog }
}

// The points of a full data page. Casts, as each place is below 15.
fn full_lay() -> [LayPoint; 15] {
    array::from_fn(
        |place|
            requires { place < 15 }
        { lay(place as u16, 2 * (place as i16) - 14) },
    )
}

fn full_bar() -> [BarPoint; 10] {
    array::from_fn(
        |place|
            requires { place < 10 }
        { bar(place as u16, 7 * (place as u16), 2047 - place as i16) },
    )
}

// The corners of the low half, of the high half and of the root.
fn lay_corners() -> [(LayPoint, LayPoint); 3] {
    [
        (lay(0, -2048), lay(0, -1)),
        (lay(0, 0), lay(4660, 7)),
        (lay(0, -2048), lay(65535, 2047)),
    ]
}

fn bar_corners() -> [(BarPoint, BarPoint); 3] {
    [
        (bar(0, 0, -2048), bar(12, 5, -7)),
        (bar(4660, 63, 0), bar(4660, 63, 0)),
        (bar(0, 0, -2048), bar(65535, 63, 2047)),
    ]
}

// An entry with these corners.
fn entry<K: PointKind>(page: u16, count: u32, corners: (K, K)) -> Entry<K> {
    let (low, high) = corners;
    Entry {
        page,
        count,
        low,
        high,
    }
}

// The pages that lead to others are written.
fn entries_written<K: PointKind>(
    rt: &impl Abort,
    corners: [(K, K); 3],
    directory: &[u8; 64],
    empty_head: &[u8; 64],
    head: &[u8; 64],
) {
    let [low, high, root] = corners;
    let low = entry(513, 70_000, low);
    let high = entry(2, 16, high);
    assert_eq!(rt; directory_page(1, &low, &high), *directory);
    let empty: Head<K> = Head {
        first: 1,
        free: 65_534,
        root: None,
    };
    assert_eq!(rt; head_page(&empty), *empty_head);
    let root = Some(entry(7, 70_016, root));
    let full = Head {
        first: 0,
        free: 258,
        root,
    };
    assert_eq!(rt; head_page(&full), *head);
}

// A page of points and a full one are read; `other` is on neither.
fn data_read<K: PointKind + PartialEq + Debug>(
    rt: &impl Abort,
    data: &[u8; 64],
    points: &[K],
    corners: (K, K),
    other: K,
    full: &[u8; 64],
    full_points: &[K],
) -> Result<(), Fail> {
    assert_eq!(rt; next_free::<K>(9, FREE)?, 0x1234);
    let view = DataView::<K>::new(9, data)?;
    assert_eq!(rt; view.count(), points.len());
    for (place, point) in points.iter().enumerate() {
        assert_eq!(rt; view.point(place), Some(*point));
        if !point.on_axes() {
            return Err(Fail::new("off its axes"));
        }
        assert!(rt; view.holds(point));
    }
    assert_eq!(rt; view.point(points.len()), None);
    assert_eq!(rt; view.corners(), Some(corners));
    if !other.on_axes() {
        return Err(Fail::new("off its axes"));
    }
    assert!(rt; !view.holds(&other));
    let view = DataView::<K>::new(9, full)?;
    for (place, point) in full_points.iter().enumerate() {
        assert_eq!(rt; view.point(place), Some(*point));
    }
    assert_eq!(rt; view.point(full_points.len()), None);
    Ok(())
}

// The pages that lead to others are read.
fn entries_read<K: PointKind + PartialEq + Debug>(
    rt: &impl Abort,
    corners: [(K, K); 3],
    directory: &[u8; 64],
    empty_head: &[u8; 64],
    head: &[u8; 64],
) -> Result<(), Fail> {
    let [
        (low_low, low_high),
        (high_low, high_high),
        (root_low, root_high),
    ] = corners;
    let view = DirectoryView::<K>::new(9, directory)?;
    assert_eq!(rt; view.depth(), 1);
    let low = view.low();
    assert_eq!(rt; low.page(), 513);
    assert_eq!(rt; low.count(), 70_000);
    assert_eq!(rt; low.low(), Some(low_low));
    assert_eq!(rt; low.high(), Some(low_high));
    let high = view.high();
    assert_eq!(rt; high.page(), 2);
    assert_eq!(rt; high.count(), 16);
    assert_eq!(rt; high.low(), Some(high_low));
    assert_eq!(rt; high.high(), Some(high_high));
    let empty = HeadView::<K>::new(0, empty_head)?;
    assert_eq!(rt; empty.first(), 1);
    assert_eq!(rt; empty.free(), 65_534);
    assert!(rt; empty.root().is_none());
    let head = HeadView::<K>::new(0, head)?;
    assert_eq!(rt; head.first(), 0);
    assert_eq!(rt; head.free(), 258);
    let root = head.root().ok_or("no root")?;
    assert_eq!(rt; root.page(), 7);
    assert_eq!(rt; root.count(), 70_016);
    assert_eq!(rt; root.low(), Some(root_low));
    assert_eq!(rt; root.high(), Some(root_high));
    Ok(())
}

#[test]
fn lay_pages_are_written(rt: HostRuntime) {
    assert_eq!(rt; free_page::<LayPoint>(0x1234), *FREE);
    assert_eq!(rt; data_page(&LAY_POINTS), *LAY_DATA);
    assert_eq!(rt; data_page(&full_lay()), *LAY_FULL);
    entries_written(&rt, lay_corners(), LAY_DIRECTORY, LAY_EMPTY_HEAD, LAY_HEAD);
}

#[test]
fn lay_data_is_read(rt: HostRuntime) -> Result<(), Fail> {
    let corners = (lay(0, -2048), lay(65535, 2047));
    let full = full_lay();
    data_read(
        &rt,
        LAY_DATA,
        &LAY_POINTS,
        corners,
        lay(4661, 7),
        LAY_FULL,
        &full,
    )
}

// Zero bytes claim no points. Their first place is that of a point on its axes all the same, and the view tells it.
#[test]
fn first_place_of_bytes_without_points(rt: HostRuntime) {
    let view = DataView::<LayPoint>::over(&[0; 64]);
    assert_eq!(rt; view.count(), 0);
    assert_eq!(rt; view.point(0), None);
    assert_eq!(rt; view.corners(), Some((lay(0, 0), lay(0, 0))));
    let view = DataView::<BarPoint>::over(&[0; 64]);
    assert_eq!(rt; view.corners(), Some((bar(0, 0, 0), bar(0, 0, 0))));
}

#[test]
fn lay_entries_are_read(rt: HostRuntime) -> Result<(), Fail> {
    entries_read(&rt, lay_corners(), LAY_DIRECTORY, LAY_EMPTY_HEAD, LAY_HEAD)
}

#[test]
fn bar_pages_are_written(rt: HostRuntime) {
    assert_eq!(rt; free_page::<BarPoint>(0x1234), *FREE);
    assert_eq!(rt; data_page(&BAR_POINTS), *BAR_DATA);
    assert_eq!(rt; data_page(&full_bar()), *BAR_FULL);
    entries_written(&rt, bar_corners(), BAR_DIRECTORY, BAR_EMPTY_HEAD, BAR_HEAD);
}

#[test]
fn bar_data_is_read(rt: HostRuntime) -> Result<(), Fail> {
    let corners = (bar(0, 0, -2048), bar(65535, 63, 2047));
    let full = full_bar();
    data_read(
        &rt,
        BAR_DATA,
        &BAR_POINTS,
        corners,
        bar(4661, 63, 0),
        BAR_FULL,
        &full,
    )
}

#[test]
fn bar_entries_are_read(rt: HostRuntime) -> Result<(), Fail> {
    entries_read(&rt, bar_corners(), BAR_DIRECTORY, BAR_EMPTY_HEAD, BAR_HEAD)
}

#[test]
fn kinds_are_told_apart(rt: HostRuntime) {
    assert_eq!(rt;
        next_free::<LayPoint>(3, LAY_DATA).err(),
        Some(PageFault::Kind(3))
    );
    assert_eq!(rt;
        DataView::<BarPoint>::new(4, LAY_DATA).err(),
        Some(PageFault::Kind(4))
    );
    assert_eq!(rt;
        DataView::<LayPoint>::new(5, LAY_DIRECTORY).err(),
        Some(PageFault::Kind(5))
    );
    assert_eq!(rt;
        DirectoryView::<LayPoint>::new(6, BAR_DIRECTORY).err(),
        Some(PageFault::Kind(6))
    );
    assert_eq!(rt;
        HeadView::<BarPoint>::new(0, LAY_HEAD).err(),
        Some(PageFault::Kind(0))
    );
}

#[test]
fn wrong_fields_are_refused(rt: HostRuntime) {
    let mut page = *LAY_DATA;
    page[1] = 0;
    assert_eq!(rt;
        DataView::<LayPoint>::new(1, &page).err(),
        Some(PageFault::Field(1))
    );
    page[1] = 16;
    assert_eq!(rt;
        DataView::<LayPoint>::new(2, &page).err(),
        Some(PageFault::Field(2))
    );
    page[1] = 4;
    assert_eq!(rt;
        DataView::<LayPoint>::new(3, &page).err(),
        Some(PageFault::Field(3))
    );
    let mut deep = *BAR_DIRECTORY;
    deep[1] = 33;
    assert_eq!(rt; DirectoryView::<BarPoint>::new(4, &deep).err(), None);
    deep[1] = 34;
    assert_eq!(rt;
        DirectoryView::<BarPoint>::new(4, &deep).err(),
        Some(PageFault::Field(4))
    );
    let mut crossed = *LAY_DIRECTORY;
    crossed[12] = 0;
    crossed[14] = 0xff;
    crossed[15] = 0xf7;
    assert_eq!(rt;
        DirectoryView::<LayPoint>::new(5, &crossed).err(),
        Some(PageFault::Field(5))
    );
    let mut long = *BAR_HEAD;
    long[63] = 1;
    assert_eq!(rt;
        HeadView::<BarPoint>::new(0, &long).err(),
        Some(PageFault::Field(0))
    );
}
