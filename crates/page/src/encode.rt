// Encoders: the 64 bytes of each kind of page.
ghost use Rattle.std.specs.Prelude.{◌≡◌, ℕ, ◌+◌, ◌≤◌, List, [], ◌∷◌, ◌++◌, map, length, Option};
ghost use Rattle.kinds.specs.Bytes.{bytes};
ghost use Rattle.kinds.specs.Kind.{size_of, bytes_of, entry_length};
ghost use Rattle.page.specs.Form.{free_view, data_view, directory_view, head_view, entry_bytes, encode};
ghost use Rattle.page.specs.Checks.{summary, root_summary};
ghost use Rattle.page.specs.Adds.{Adds};

use crate::directory_page::Fork;
use crate::entry::{Entry, entry_size};
use crate::head_page::Head;
use kinds::kind::PointKind;

// A free page: the number of the next free page, 0 for the last.
pub fn free_page<K: PointKind>(next: u16) -> [u8; 64]
    ensures { result ≡ encode K.PointKind.kind (free_view next) }
{
    let mut page = [0; 64];
    put_bytes(&mut page, 1, &next.to_le_bytes());
    page
}

// A directory page: the depth, the low entry and the high entry. Not a fork, whose depth may be no byte.
pub fn directory_page<K: PointKind>(depth: u8, low: &Entry<K>, high: &Entry<K>) -> [u8; 64]
    ensures { result ≡ encode K.PointKind.kind (directory_view depth (summary K.PointKind.kind low.now) (summary K.PointKind.kind high.now)) }
{
    let mut page = [0; 64];
    put_bytes(&mut page, 0, &[K::DIRECTORY_PAGE, depth]);
    put_entry(&mut page, 2, low);
    put_entry(&mut page, 2 + entry_size::<K>(), high);
    page
}

// The head: the first free page, how many are free, and the root entry, zero bytes where there is none.
pub fn head_page<K: PointKind>(head: &Head<K>) -> [u8; 64]
    ensures { result ≡ encode K.PointKind.kind (head_view head.now.first head.now.free (root_summary K.PointKind.kind head.now.root)) }
{
    let mut page = [0; 64];
    put_bytes(&mut page, 0, &[K::HEAD_PAGE]);
    put_bytes(&mut page, 1, &head.first.to_le_bytes());
    put_bytes(&mut page, 3, &head.free.to_le_bytes());
    if let Some(root) = &head.root {
        put_entry(&mut page, 5, root);
    }
    page
}

// A data page: how many points, and the points.
pub fn data_page<K: PointKind>(points: &[K]) -> [u8; 64]
    requires { length points.now ≤ K.PointKind.kind.capacity }
    ensures { result ≡ encode K.PointKind.kind (data_view (map K.PointKind.kind.coords points.now)) }
{
    let mut page = [0; 64];
    // a cast, as a page has room for 15 points at most
    put_bytes(&mut page, 0, &[K::DATA_PAGE, points.len() as u8]);
    for (i, point) in points.iter().enumerate() {
        put_point(&mut page, 2 + i * K::SIZE, point);
    }
    page
}

// Some bytes behind those before `at`. One line of the library, under a promise in the words of a page that is written from its front on.
fn put_bytes(page: &mut [u8; 64], at: usize, bytes: &[u8])
    requires { at + length bytes.now ≤ 64 }
    ensures { Adds page.old at bytes.now page.new }
{
    let end = at + bytes.len();
    page[at..end].copy_from_slice(bytes);
}

// A point behind the bytes before `at`. Its kind writes it where it stands, so there are no bytes to hand on.
fn put_point<K: PointKind>(page: &mut [u8; 64], at: usize, point: &K)
    requires { at + size_of K.PointKind.kind ≤ 64 }
    ensures adds { Adds page.old at (bytes_of K.PointKind.kind point.now) page.new }
    ensures long { length (bytes_of K.PointKind.kind point.now) ≡ size_of K.PointKind.kind }
{
    let end = at + K::SIZE;
    point.write(&mut page[at..end]);
}

// An entry behind the bytes before `at`.
fn put_entry<K: PointKind>(page: &mut [u8; 64], at: usize, entry: &Entry<K>)
    requires { at + entry_length K.PointKind.kind ≤ 64 }
    ensures adds { Adds page.old at (entry_bytes K.PointKind.kind (summary K.PointKind.kind entry.now)) page.new }
    ensures long { length (entry_bytes K.PointKind.kind (summary K.PointKind.kind entry.now)) ≡ entry_length K.PointKind.kind }
{
    put_bytes(page, at, &entry.page.to_le_bytes());
    put_bytes(page, at + 2, &entry.count.to_le_bytes());
    put_point(page, at + 6, &entry.low);
    put_point(page, at + 6 + K::SIZE, &entry.high);
}
