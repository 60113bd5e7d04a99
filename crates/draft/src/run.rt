// Runs: calls on a draft, one after another.
ghost use Rattle.std.specs.Prelude.{◌≡◌, ℕ, ◌<◌, List, length, IfOk, vec_len, vec_capacity, MatchResult};
ghost use Rattle.tree.specs.Lawful.{Lawful};
ghost use Rattle.draft.specs.declared.calls.Halt.TheVariants.{Room};
ghost use Rattle.draft.specs.Runs.{Step, Answered, Runs, WholeRun, Halted, KeptLaw, GoneLaw, SameTreeLaw};

use crate::Draft;
use crate::calls::{Call, Halt, Reply};
use kinds::kind::PointKind;
use store::page_store::PageStore;

impl<K: PointKind, S: PageStore> Draft<K, S> {
    // Makes a call.
    pub fn call(&mut self, call: Call<K>) -> Reply<K>
        ensures lawful { (set : List K) → Lawful K.PointKind.kind (S.PageStore.pages self.old.store) set → ((next : List K) × Step K.PointKind.kind (length (S.PageStore.pages self.old.store)) (S.PageStore.pages self.old.store) set call result (S.PageStore.pages self.new.store) next) }
        ensures always { Answered K.PointKind.kind (S.PageStore.pages self.old.store) (S.PageStore.pages self.new.store) call result }
        ensures origin { self.new.origin ≡ self.old.origin }
    {
        match call {
            Call::Put(p) => Reply::Put(self.put(p)),
            Call::Take(p) => Reply::Take(self.take(p)),
            Call::Ask(p) => Reply::Ask(self.ask(p)),
            Call::Pick(window) => Reply::Pick(self.pick(window)),
            Call::List(window, skip, mut buffer) => {
                let answer = self.list(window, skip, buffer.as_mut_slice());
                Reply::List(answer, buffer)
            }
            Call::Count(window) => Reply::Count(self.count(window)),
            Call::Tally => Reply::Tally(self.tally()),
            Call::Outline(mut buffer) => {
                let answer = self.outline(buffer.as_mut_slice());
                Reply::Outline(answer, buffer)
            }
        }
    }
}

// Makes calls one after another, into room for their replies that is lent. Where there is less room than calls, no call is made and the draft comes back.
pub fn resume<K: PointKind, S: PageStore>(
    mut draft: Draft<K, S>,
    calls: Vec<Call<K>>,
    mut replies: Vec<Reply<K>>,
) -> Result<(Draft<K, S>, Vec<Reply<K>>), (Halt, Draft<K, S>)>
    ensures lawful { IfOk result (λ x. (set : List K) → Lawful K.PointKind.kind (S.PageStore.pages draft.store) set → Runs K.PointKind.kind (length (S.PageStore.pages draft.store)) (S.PageStore.pages draft.store) set calls.items x.1.items (S.PageStore.pages x.0.store)) }
    ensures always { MatchResult result (λ x. vec_len x.1 ≡ vec_len calls) (λ e. (e.0 ≡ Room) × (vec_capacity replies < vec_len calls) × (S.PageStore.pages e.1.store ≡ S.PageStore.pages draft.store)) }
    ensures origin { MatchResult result (λ x. x.0.origin ≡ draft.origin) (λ e. e.1.origin ≡ draft.origin) }
{
    replies.clear();
    if replies.capacity() < calls.len() {
        return Err((Halt::Room, draft));
    }
    for call in calls {
        let reply = draft.call(call);
        replies.push_reserved(reply);
    }
    Ok((draft, replies))
}

// Begins a draft on a store and makes calls one after another, into room for their replies that is lent. The whole promise: at every moment the card, the replies and the buffers are those of the plain book,
// and a call changes only the pages that it may change. Where there is less room than calls, or else no draft can be begun (1), the store comes back unchanged.
pub fn run<K: PointKind, S: PageStore>(
    store: S,
    calls: Vec<Call<K>>,
    replies: Vec<Reply<K>>,
) -> Result<(Draft<K, S>, Vec<Reply<K>>), (Halt, S)>
    ensures { MatchResult result (λ x. WholeRun K.PointKind.kind (length (S.PageStore.pages store)) calls.items x.1.items (S.PageStore.pages x.0.store)) (λ e. Halted (length (S.PageStore.pages store)) (vec_capacity replies) (vec_len calls) e.0 × (S.PageStore.pages e.1 ≡ S.PageStore.pages store)) }
{
    if replies.capacity() < calls.len() {
        return Err((Halt::Room, store));
    }
    let draft = Draft::<K, S>::begin(store).map_err(|(why, store)| (Halt::Refused(why), store))?;
    resume(draft, calls, replies).map_err(|(halt, draft)| (halt, draft.close()))
}

// What a mill asks of a run: a point that was put and not taken is listed at the end, one that was taken and not put again is not, and equal books have equal trees whatever the order of the corrections.
pub fn runs_stand<P>()
    ensures kept { KeptLaw P }
    ensures gone { GoneLaw P }
    ensures same { SameTreeLaw P }
{}
