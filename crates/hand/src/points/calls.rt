// What is done with the points in the hand.
ghost use Rattle.std.specs.Prelude.{◌≡◌, ◌+◌, ◌<◌, ◌≤◌, Bool, not, ◌==◌, List, [], ◌∷◌, ◌++◌, map, length, take, drop, filter, IfSome, slice_index_or};
ghost use Rattle.std.specs.List.{AllByRecursion};
ghost use Rattle.zorder.specs.Code.{bit_at};
ghost use Rattle.zorder.specs.Halves.{half as half_of};
ghost use Rattle.kinds.specs.Kind.{On, wide, code_of, low_corner, high_corner};
ghost use Rattle.page.specs.Form.{data_view, encode};
ghost use Rattle.page.specs.Fields.{Reads};
ghost use Rattle.tree.specs.Sets.{live, with_point, without_point};
ghost use Rattle.hand.specs.Hands.{listed, left, HoldsAll};

use crate::places::Four;
use crate::points::Hand;
use crate::points::iter::Points;
use kinds::kind::PointKind;
use kinds::points::bit as bit_of;
use page::data_page::DataView;
use page::entry::Entry;

impl<K: PointKind> Hand<K> {
    // The points of a data page; none where the bytes are those of no data page.
    pub fn of_page(bytes: &[u8; 64]) -> Option<Hand<K>>
        ensures tells { (ps : List K) → Reads K.PointKind.kind bytes.now (data_view (map K.PointKind.kind.coords ps)) → HoldsAll ps result }
        ensures sane { IfSome result (λ h. (1 ≤ length (listed h)) × (length (listed h) ≤ K.PointKind.kind.capacity) × AllByRecursion (On K.PointKind.kind) (listed h)) }
    {
        let view = DataView::<K>::new(0, bytes).ok()?;
        let first = view.point(0)?;
        let mut hand = Hand::one(first);
        // by its place, as a view answers for one place: an iterator over its points would be one more type with its laws, for two loops
        for i in 1..view.count() {
            let point = view.point(i)?;
            hand.push(point);
        }
        Some(hand)
    }

    // One point.
    pub fn one(p: K) -> Hand<K>
        ensures { listed result ≡ p ∷ [] }
    {
        Hand {
            points: Four::all(Four::all(p)),
            count: 1,
        }
    }

    // How many points there are.
    pub fn count(&self) -> usize
        ensures { result ≡ length (listed self.now) }
    {
        self.count
    }

    // Whether a point is among them. All are asked: on a damaged page the codes may not rise, so the search of a page's view by code may miss one.
    // A closure for `any` would need two clauses, as `code` asks that its point lies on its axes.
    pub fn holds(&self, p: &K) -> bool
        requires on { On K.PointKind.kind p.now }
        requires all_on { AllByRecursion (On K.PointKind.kind) (listed self.now) }
        ensures { result ≡ live (code_of K.PointKind.kind) p.now (listed self.now) }
    {
        let sought = p.code();
        for point in self.iter() {
            if sought == point.code() {
                return true;
            }
        }
        false
    }

    // The points with one more, before the first of a higher code.
    pub fn with(&self, p: &K) -> Hand<K>
        requires on { On K.PointKind.kind p.now }
        requires all_on { AllByRecursion (On K.PointKind.kind) (listed self.now) }
        requires few { length (listed self.now) ≤ K.PointKind.kind.capacity }
        ensures { listed result ≡ with_point (code_of K.PointKind.kind) p.now (listed self.now) }
    {
        let place = self.place(p);
        let mut hand = self.first(place);
        hand.push(*p);
        hand.append(self, place);
        hand
    }

    // The points without one.
    pub fn without(&self, p: &K) -> Hand<K>
        requires on { On K.PointKind.kind p.now }
        requires all_on { AllByRecursion (On K.PointKind.kind) (listed self.now) }
        ensures { listed result ≡ without_point (code_of K.PointKind.kind) p.now (listed self.now) }
    {
        let gone = p.code();
        let other = |point: &K| -> bool
            requires { On K.PointKind.kind point.now }
            ensures { result ≡ not (gone == code_of K.PointKind.kind point.now) }
        { gone != point.code() };
        self.kept(other)
    }

    // The points whose code has this bit behind the first `depth`.
    pub fn half(&self, depth: u32, bit: u64) -> Hand<K>
        requires all_on { AllByRecursion (On K.PointKind.kind) (listed self.now) }
        requires shallow { depth < wide K.PointKind.kind }
        ensures { listed result ≡ half_of (code_of K.PointKind.kind) (wide K.PointKind.kind) depth bit (listed self.now) }
    {
        let within = |point: &K| -> bool
            requires on { On K.PointKind.kind point.now }
            requires shallow { depth < wide K.PointKind.kind }
            ensures { result ≡ (bit_at (wide K.PointKind.kind) depth (code_of K.PointKind.kind point.now) == bit) }
        { bit_of(point, depth) == bit };
        self.kept(within)
    }

    // These points, and behind them those of another hand.
    pub fn joined(&self, other: &Hand<K>) -> Hand<K>
        requires { length (listed self.now) + length (listed other.now) ≤ 16 }
        ensures { listed result ≡ listed self.now ++ listed other.now }
    {
        let mut hand = *self;
        hand.append(other, 0);
        hand
    }

    // The entry of a data page with these points. They lie in fields, so what takes a slice of points cannot tell their corners.
    pub fn entry(&self, page: u16) -> Entry<K>
        requires { 1 ≤ length (listed self.now) }
        ensures page { result.page ≡ page }
        ensures count { result.count ≡ length (listed self.now) }
        ensures low { K.PointKind.kind.coords result.low ≡ low_corner K.PointKind.kind (listed self.now) }
        ensures high { K.PointKind.kind.coords result.high ≡ high_corner K.PointKind.kind (listed self.now) }
    {
        let first = self.point(0);
        let mut low = first;
        let mut high = first;
        for point in self.iter_from(1) {
            low = low.lower(&point);
            high = high.upper(&point);
        }
        Entry {
            page,
            // a cast, as there are 16 points at most
            count: self.count as u32,
            low,
            high,
        }
    }

    // A data page with these points. They lie in fields, so the encoder, which takes a slice of points, cannot write them.
    pub fn page(&self) -> [u8; 64]
        requires { length (listed self.now) ≤ K.PointKind.kind.capacity }
        ensures { result ≡ encode K.PointKind.kind (data_view (map K.PointKind.kind.coords (listed self.now))) }
    {
        let mut page = [0; 64];
        page[0] = K::DATA_PAGE;
        // a cast, as there are 16 points at most
        page[1] = self.count as u8;
        let mut at = 2;
        for point in self.iter() {
            let end = at + K::SIZE;
            point.write(&mut page[at..end]);
            at = end;
        }
        page
    }

    // The point at a place.
    pub(crate) fn point(&self, place: usize) -> K
        requires { place < self.now.count }
        ensures { result ≡ slice_index_or (listed self.now) place result }
    {
        self.points.at(place / 4).at(place % 4)
    }

    // The points one after another.
    fn iter(&self) -> Points<'_, K>
        ensures { left result ≡ listed self.now }
    {
        self.iter_from(0)
    }

    // The points from a place on, one after another.
    fn iter_from(&self, place: usize) -> Points<'_, K>
        ensures { left result ≡ drop place (listed self.now) }
    {
        Points {
            hand: self,
            next: place,
        }
    }

    // The points for which a test holds, which is asked of points on their axes.
    fn kept<F: Fn(&K) -> bool>(&self, test: F) -> Hand<K>
        requires all_on { AllByRecursion (On K.PointKind.kind) (listed self.now) }
        requires callable { (x : _) → On K.PointKind.kind x.now → F.pre test x }
        ensures { (keeps : K → Bool) → ((x : _) (r : Bool) → On K.PointKind.kind x.now → F.post test x r → r ≡ keeps x.now) → listed result ≡ filter keeps (listed self.now) }
    {
        let mut hand = self.first(0);
        for point in self.iter() {
            if test(&point) {
                hand.push(point);
            }
        }
        hand
    }

    // The first few points.
    fn first(&self, count: usize) -> Hand<K>
        requires { count ≤ self.now.count }
        ensures { listed result ≡ take count (listed self.now) }
    {
        Hand {
            points: self.points,
            count,
        }
    }

    // One more point, behind the others.
    fn push(&mut self, p: K)
        requires { length (listed self.old) < 16 }
        ensures { listed self.new ≡ listed self.old ++ p ∷ [] }
    {
        let place = self.count;
        let mut row = self.points.at(place / 4);
        row.put(place % 4, p);
        self.points.put(place / 4, row);
        self.count = place + 1;
    }

    // The points of another hand from a place on, behind the others.
    fn append(&mut self, other: &Hand<K>, from: usize)
        requires { length (listed self.old) + length (drop from (listed other.now)) ≤ 16 }
        ensures { listed self.new ≡ listed self.old ++ drop from (listed other.now) }
    {
        for point in other.iter_from(from) {
            self.push(point);
        }
    }

    // How many points have no higher code than p, from the first on.
    fn place(&self, p: &K) -> usize
        requires on { On K.PointKind.kind p.now }
        requires all_on { AllByRecursion (On K.PointKind.kind) (listed self.now) }
        ensures within { result ≤ length (listed self.now) }
        ensures splits { with_point (code_of K.PointKind.kind) p.now (listed self.now) ≡ take result (listed self.now) ++ (p.now ∷ drop result (listed self.now)) }
    {
        let code = p.code();
        // by place: a closure for `position` would need two clauses, as `code` asks that its point lies on its axes
        for i in 0..self.count {
            let point = self.point(i);
            if code < point.code() {
                return i;
            }
        }
        self.count
    }
}
