// A data page with one point.
ghost use Rattle.std.specs.Prelude.{◌≡◌, [], ◌∷◌};
ghost use Rattle.page.specs.Checks.{summary};
ghost use Rattle.page.specs.Form.{data_view, encode};
ghost use Rattle.tree.specs.Laid.{data_at};
ghost use Rattle.tree.specs.Lawful.{entry};

use kinds::kind::PointKind;
use page::entry::Entry;

// The entry of a data page with one point. Not by way of a hand: one point needs no sixteen places and no search for its corners.
pub fn lone_entry<K: PointKind>(page: u16, p: &K) -> Entry<K>
    ensures { summary K.PointKind.kind result ≡ entry K.PointKind.kind (data_at page (p.now ∷ [])) }
{
    Entry {
        page,
        count: 1,
        low: *p,
        high: *p,
    }
}

// A data page with one point, not by way of a hand either. The encoder cannot be lent one: a slice of one point asks of every caller that points fit into memory.
pub fn lone_page<K: PointKind>(p: &K) -> [u8; 64]
    ensures { result ≡ encode K.PointKind.kind (data_view (K.PointKind.kind.coords p.now ∷ [])) }
{
    let mut page = [0; 64];
    page[0] = K::DATA_PAGE;
    page[1] = 1;
    let end = 2 + K::SIZE;
    p.write(&mut page[2..end]);
    page
}
