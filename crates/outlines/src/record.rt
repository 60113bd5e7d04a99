// The records of an outline.
ghost use Rattle.std.specs.Prelude.{◌≡◌, ℕ, ◌+◌, ◌≤◌, List, [], ◌∷◌, length};
ghost use Rattle.kinds.specs.Bytes.{bytes};
ghost use Rattle.kinds.specs.Kind.{On, size_of, bytes_of, entry_length};
ghost use Rattle.page.specs.Checks.{summary};
ghost use Rattle.outlines.specs.Records.{sort_number, record_of, Wrote};

use kinds::kind::PointKind;
use kinds::points::depth;
use page::entry::Entry;

// What a page of the tree is, as a record says it: 1 for a data page, 2 for a directory page.
#[derive(Clone, Copy)]
pub(crate) enum Sort {
    Data,
    Directory,
}

impl From<Sort> for u8 {
    ghost from_gives = { λ sort number. number ≡ sort_number sort };

    fn from(sort: Sort) -> u8 {
        match sort {
            Sort::Data => 1,
            Sort::Directory => 2,
        }
    }
}

// Some bytes at a place. One line of the library, under a promise in the words of a record, with the rest of the buffer kept.
fn put_bytes(buffer: &mut [u8], at: usize, bytes: &[u8])
    requires { at + length bytes.now ≤ length buffer.old }
    ensures { Wrote buffer.old at bytes.now buffer.new }
{
    let end = at + bytes.len();
    buffer[at..end].copy_from_slice(bytes);
}

// A point at a place. Its kind writes it where it stands, so there are no bytes to hand on.
fn put_point<K: PointKind>(buffer: &mut [u8], at: usize, point: &K)
    requires { at + size_of K.PointKind.kind ≤ length buffer.old }
    ensures wrote { Wrote buffer.old at (bytes_of K.PointKind.kind point.now) buffer.new }
    ensures long { length (bytes_of K.PointKind.kind point.now) ≡ size_of K.PointKind.kind }
{
    let end = at + K::SIZE;
    point.write(&mut buffer[at..end]);
}

// The record of a page that an entry leads to, at a place: kind (1 byte), number of points (4), shared first bits (1), low corner, high corner. It is as long as an entry.
pub(crate) fn put_record<K: PointKind>(buffer: &mut [u8], at: usize, sort: Sort, entry: &Entry<K>)
    requires room { at + entry_length K.PointKind.kind ≤ length buffer.old }
    requires low_on { On K.PointKind.kind entry.now.low }
    requires high_on { On K.PointKind.kind entry.now.high }
    ensures wrote { Wrote buffer.old at (record_of K.PointKind.kind sort (summary K.PointKind.kind entry.now)) buffer.new }
    ensures long { length (record_of K.PointKind.kind sort (summary K.PointKind.kind entry.now)) ≡ entry_length K.PointKind.kind }
{
    let shared = depth(&entry.low, &entry.high);
    put_bytes(buffer, at, &[u8::from(sort)]);
    put_bytes(buffer, at + 1, &entry.count.to_le_bytes());
    // a cast, as no code has more than 60 bits
    put_bytes(buffer, at + 5, &[shared as u8]);
    put_point(buffer, at + 6, &entry.low);
    put_point(buffer, at + 6 + K::SIZE, &entry.high);
}
